// A row put in among rows that begin at row lo of an array: the rows at the nearer end make room for it.
#![tactic(auto, using(grow_laws::proofs::Viewed::reached, grow_laws::proofs::PutIn::slid_inserted))]

ghost use Rattle.std.specs.Prelude.{◌≡◌, ◌*◌, ◌<◌, ◌≤◌, length, take, drop, set};
ghost use Rattle.grow_laws.specs.Moves.{Inserted, Slid};
ghost use Rattle.grow_laws.specs.Held.{view};

use grow_moves::{down, up};

// An array in which rows begin at row lo, with room for 1,023; no Vec: nothing is allocated in a call.
#[derive(Drop)]
pub struct Spread {
    buf: [i32; 4608],
    lo: usize,
    ghost room: { 4092 ≤ length (view buf lo) },
}

impl Spread {
    // The first row will stand at row 128.
    pub fn empty() -> Spread
        ensures { result.lo ≡ 128 }
    {
        Spread {
            buf: [0; 4608],
            lo: 128,
        }
    }

    // The numbers of the first n rows.
    pub fn numbers(&self, n: usize) -> &[i32]
        requires { n ≤ 1023 }
        ensures { result.now ≡ take (n * 4) (view self.now.buf self.now.lo) }
    {
        let first = self.lo * 4;
        &self.buf[first..first + n * 4]
    }

    // A number of the rows.
    pub fn set(&mut self, at: usize, number: i32)
        requires { at < 4092 }
        ensures { view self.new.buf self.new.lo ≡ set (view self.old.buf self.old.lo) at number }
    {
        self.buf[self.lo * 4 + at] = number;
    }

    // Numbers in the place of the first.
    pub fn copy(&mut self, numbers: &[i32])
        requires { length numbers.now ≤ 4092 }
        ensures put { take (length numbers.now) (view self.new.buf self.new.lo) ≡ numbers.now }
        ensures rest { drop (length numbers.now) (view self.new.buf self.new.lo)
            ≡ drop (length numbers.now) (view self.old.buf self.old.lo) }
    {
        let first = self.lo * 4;
        self.buf[first..first + numbers.len()].copy_from_slice(numbers);
    }

    // A row is put in before row p of n: the rows from p on go up.
    fn above(&mut self, n: usize, p: usize, row: [i32; 4])
        requires { (p ≤ n) × (n < 1023) }
        ensures { Inserted (view self.old.buf self.old.lo) (view self.new.buf self.new.lo) n p row }
    {
        up::insert_row(&mut self.buf[self.lo * 4..], n, p, row);
    }

    // The rows before p go down.
    fn below(&mut self, n: usize, p: usize, row: [i32; 4])
        requires { (p ≤ n) × (n < 1023) × (0 < self.old.lo) }
        ensures { Inserted (view self.old.buf self.old.lo) (view self.new.buf self.new.lo) n p row }
    {
        let low = self.lo - 1;
        down::insert_row(&mut self.buf[low * 4..], p, row);
        self.lo = low;
    }

    // Rows that begin at row 0 go up by 128 rows.
    fn spare(&mut self, n: usize)
        requires { n < 1023 }
        ensures { Slid (view self.old.buf self.old.lo) (view self.new.buf self.new.lo) n × (0 < self.new.lo) }
    {
        if self.lo == 0 {
            up::open_rows(&mut self.buf, 128, n, 0);
            self.lo = 128;
        }
    }

    // A row is put in before row p of n.
    pub fn insert(&mut self, n: usize, p: usize, row: [i32; 4])
        requires { (p ≤ n) × (n < 1023) }
        ensures { Inserted (view self.old.buf self.old.lo) (view self.new.buf self.new.lo) n p row }
    {
        self.spare(n);
        if p + p < n {
            self.below(n, p, row);
        } else {
            self.above(n, p, row);
        }
    }
}
