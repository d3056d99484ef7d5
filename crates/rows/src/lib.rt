// Document 01, module 1: the numbers of a table, and rows that passed its checks.
#![tactic(auto)]

pub mod numbers;

ghost use Rattle.std.specs.Prelude.{◌≡◌, ◌+◌, ◌*◌, ◌/◌, ◌<◌, ◌≤◌, length, get_or, pos};
ghost use Rattle.paper.specs.Rows.{natural};
ghost use Rattle.rows.specs.Places.{row_at, key, given};
ghost use Rattle.rows.specs.Passed.{Passed};

use paper::Production;

// Rows that passed the checks 2 and 3, as the numbers of a row slice. A method asks for a row that is there, as a slice
// asks for its index.
#[derive(Clone, Copy)]
pub struct Rows<'a> {
    pub numbers: &'a [i32],
    ghost passed: { Passed numbers.now },
}

impl<'a> Rows<'a> {
    // How many there are.
    pub fn count(self) -> usize
        ensures { result ≡ length self.entry.numbers.now / 4 }
    {
        self.numbers.len() / 4
    }

    // Row i's from.
    pub fn from(self, i: usize) -> usize
        requires { i < length self.numbers.now / 4 }
        ensures { (result ≡ (row_at self.entry.numbers.now i).from) × (result ≤ 1023) }
    {
        self.column(i, 0)
    }

    // Row i's terminal.
    pub fn terminal(self, i: usize) -> usize
        requires { i < length self.numbers.now / 4 }
        ensures { (result ≡ (row_at self.entry.numbers.now i).terminal) × (result ≤ 65535) }
    {
        self.column(i, 1)
    }

    // Row i's to.
    pub fn to(self, i: usize) -> usize
        requires { i < length self.numbers.now / 4 }
        ensures { (result ≡ (row_at self.entry.numbers.now i).to) × (result ≤ 1023) }
    {
        self.column(i, 2)
    }

    // Row i's production.
    pub fn production(self, i: usize) -> Option<Production>
        requires { i < length self.numbers.now / 4 }
        ensures { given result ≡ (row_at self.entry.numbers.now i).production }
    {
        numbers::accepting(self.numbers[i * 4 + 3])
    }

    // Row i's from and terminal in one number, by which rows rise.
    pub fn key(self, i: usize) -> usize
        requires { i < length self.numbers.now / 4 }
        ensures { result ≡ key (row_at self.entry.numbers.now i) }
    {
        numbers::key_at(self.numbers, i)
    }

    // The number in column c of row i, which no check lets be below 0.
    fn column(self, i: usize, c: usize) -> usize
        requires { (i < length self.numbers.now / 4) × (c ≤ 2) }
        ensures { (result ≡ natural (get_or self.entry.numbers.now (i * 4 + c) (pos 0))) × (result ≤ 65535) }
    {
        self.numbers[i * 4 + c] as usize
    }
}
