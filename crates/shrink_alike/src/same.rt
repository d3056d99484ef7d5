// Two states that become one: equal production and, where rows count, equal rows by their marks.
ghost use Rattle.std.specs.Prelude.{◌≡◌, ◌/◌, ◌<◌, ◌≤◌, length};
ghost use Rattle.paper.specs.Rows.{rows_in};
ghost use Rattle.paper.specs.Shrink.{production_of, rows_of, redirect};
ghost use Rattle.rows.specs.Places.{code, uncoded, given};
ghost use Rattle.merging.specs.Marks.{compared};
ghost use Rattle.shrink_alike.specs.Index.{Indexed};
ghost use Rattle.shrink_alike.specs.Faces.{mark_in, like, hash, sign, same_row, rows_alike};

use crate::faces::Faces;
use paper::{Mode, Production};
use rows::numbers;
use ruled::into;

// The code of a production: 0 for none, else one more than it.
fn code(p: Option<Production>) -> usize
    ensures { (result ≡ code (given p)) × (result ≤ 65536) }
{
    p.map_or(0, |q| q.0 as usize + 1)
}

// The code of a state's production: that of the first row into it, p0 where there is none.
pub fn production(
    p0: usize,
    rows: &[i32],
    into: &[u16; 1024],
    first: &[u16; 1024],
    s: usize,
) -> usize
    requires { Indexed rows.now into.now first.now × (s < 1024) }
    ensures { result ≡ code (production_of (uncoded p0) (rows_in rows.now) s) }
{
    match into::first_row(into, s) {
        None => p0,
        Some(i) => numbers::coded(numbers::production_at(rows, i)),
    }
}

// Whether rows count beside a production, by its code: not in archive when it accepts.
pub fn compared(mode: Mode, p: usize) -> bool
    ensures { result ≡ compared mode (uncoded p) }
{
    match mode {
        Mode::Intake => true,
        Mode::Archive => p == 0,
    }
}

impl<'a> Faces<'a> {
    ghost use Rattle.shrink_alike.specs.Tables.{table_of};

    // Whether rows count beside a production.
    fn compared(&self, p: Option<Production>) -> bool
        ensures { result ≡ compared self.now.mode (given p) }
    {
        compared(self.mode, code(p))
    }

    // A number of a state's rows by marks, after the number h.
    fn hash(&self, class: &[u16; 1024], s: usize, h: usize) -> usize
        requires { (s < 1024) × (h < 65521) }
        ensures small { result < 65521 }
        ensures value { result
            ≡ hash h (redirect (mark_in class.now) (rows_of (rows_in self.now.rows.numbers.now) s)) }
    {
        // to walk a range, its end would be looked for first: measured over 1,000 states, that was up to 6% slower
        let mut r = h;
        for i in self.first[s] as usize..self.rows.count() {
            if self.rows.from(i) != s {
                break;
            }
            r = (r * 27191 + self.rows.terminal(i) * 40493 + self.to_mark(class, i)) % 65521;
        }
        r
    }

    // The number of a state.
    pub fn sign(&self, class: &[u16; 1024], s: usize) -> usize
        requires { s < 1024 }
        ensures small { result < 65521 }
        ensures value { result ≡ sign self.now.mode (table_of self.now) (mark_in class.now) s }
    {
        let p = self.production(s);
        let h = code(p) % 65521;
        if self.compared(p) {
            self.hash(class, s, h)
        } else {
            h
        }
    }

    // Rows i and j have one terminal and lead to one mark.
    fn same_row(&self, class: &[u16; 1024], i: usize, j: usize) -> bool
        requires { (i < length self.now.rows.numbers.now / 4) × (j < length self.now.rows.numbers.now / 4) }
        ensures { result ≡ same_row self.now.rows.numbers.now (mark_in class.now) i j }
    {
        self.rows.terminal(i) == self.rows.terminal(j)
            && self.to_mark(class, i) == self.to_mark(class, j)
    }

    // The states a and b have equal rows by marks.
    fn same_rows(&self, class: &[u16; 1024], a: usize, b: usize) -> bool
        requires { (a < 1024) × (b < 1024) }
        ensures { result ≡ rows_alike self.now.rows.numbers.now (mark_in class.now) a b }
    {
        // no ranges and zip, as in `hash`: measured, up to a fifth slower; and j is asked about after the last turn
        let mut j = self.first[b] as usize;
        for i in self.first[a] as usize..self.rows.count() {
            if self.rows.from(i) != a {
                break;
            }
            if !self.leaves(b, j) || !self.same_row(class, i, j) {
                return false;
            }
            j += 1;
        }
        !self.leaves(b, j)
    }

    // The states a and b become one.
    pub fn like(&self, class: &[u16; 1024], a: usize, b: usize) -> bool
        requires { (a < 1024) × (b < 1024) }
        ensures { result ≡ like self.now.mode (table_of self.now) (mark_in class.now) a b }
    {
        let p = self.production(a);
        p == self.production(b) && (!self.compared(p) || self.same_rows(class, a, b))
    }
}
