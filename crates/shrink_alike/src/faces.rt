// What shrinking looks up of a table, and what it sees of one state.
ghost use Rattle.std.specs.Prelude.{◌≡◌, false, ◌/◌, ◌<◌, ◌≤◌, length};
ghost use mathlib.Core.Option.{none};
ghost use Rattle.paper.specs.Rows.{rows_in, accepting};
ghost use Rattle.paper.specs.Checks.{shape, split};
ghost use Rattle.rows.specs.Places.{row_at, given};
ghost use Rattle.shrink_alike.specs.Index.{leaves, Indexed, Starts};
ghost use Rattle.shrink_alike.specs.States.{State, Tells, Topped};
ghost use Rattle.shrink_alike.specs.Faces.{coded, mark_in, production_at};

use paper::{Mode, Production};
use rows::{Rows, numbers};
use ruled::{Ruled, into};

// No state, in an array over the states: an Option there would take twice the room, and the arrays of a call are fixed.
pub const NO_STATE: u16 = 65535;

// A table that passed 1 to 6 (what is held of it: 2, 3, 4 and 6), with the first row into each state (its number plus
// one; 0 where there is none), the first row from each, and one more than the highest state. The methods ask that a
// state be below 1,024, as an index of its arrays: a type for that would be unwrapped at each. The marks (`class`)
// stand beside it and not in it, since shrink_classes writes them while it reads the table: a struct of both would be
// made anew for each state.
#[derive(Clone, Copy)]
pub struct Faces<'a> {
    pub mode: Mode,
    pub prod0: Option<Production>,
    pub rows: Rows<'a>,
    pub into: &'a [u16; 1024],
    pub first: &'a [u16; 1024],
    pub top: usize,
    ghost indexed: { Indexed rows.numbers.now into.now first.now },
    ghost topped: { Topped (rows_in rows.numbers.now) top },
    ghost climbs: { shape (coded none rows.numbers.now) ≡ false },
    ghost whole: { split (coded none rows.numbers.now) ≡ false },
}

// One more than the highest state.
fn top(rows: Rows) -> usize
    ensures { Topped (rows_in rows.entry.numbers.now) result }
{
    let mut top = 1;
    for i in (0..rows.count()).rev() {
        top = top.max(rows.to(i) + 1);
    }
    top
}

impl<'a> Faces<'a> {
    ghost use Rattle.shrink_alike.specs.Tables.{table_of};

    // Of a table, by the first rows into each state and from each.
    pub fn new(mode: Mode, lent: Ruled<'a>, into: &'a [u16; 1024], first: &'a [u16; 1024]) -> Self
        requires { Starts lent.table.rows.now into.now first.now }
        ensures { (result.mode ≡ mode) × (given result.prod0 ≡ accepting lent.entry.table.prod0)
            × (result.rows.numbers.now ≡ lent.entry.table.rows.now) }
    {
        let few = lent.few_rows();
        Faces {
            mode,
            prod0: numbers::accepting(lent.table.prod0),
            rows: few.rows,
            into,
            first,
            top: top(few.rows),
        }
    }

    // A state's production: that of the first row into it, prod0 where there is none.
    pub(crate) fn production(&self, s: usize) -> Option<Production>
        requires { s < 1024 }
        ensures { given result ≡ production_at (table_of self.now) s }
    {
        match into::first_row(self.into, s) {
            None => self.prod0,
            Some(i) => self.rows.production(i),
        }
    }

    // s is a state: 0, or one that a row leads into.
    pub fn is_state(&self, s: usize) -> bool
        requires { s < 1024 }
        ensures { Tells (State (table_of self.now) s) result }
    {
        s == 0 || into::first_row(self.into, s).is_some()
    }

    // Row i is there, and leaves the state s.
    pub fn leaves(&self, s: usize, i: usize) -> bool
        ensures { result ≡ leaves self.now.rows.numbers.now s i }
    {
        i < self.rows.count() && self.rows.from(i) == s
    }

    // The mark of the state that row i leads to.
    pub fn to_mark(&self, class: &[u16; 1024], i: usize) -> usize
        requires { i < length self.now.rows.numbers.now / 4 }
        ensures { (result ≡ mark_in class.now (row_at self.now.rows.numbers.now i).to) × (result ≤ 65535) }
    {
        class[self.rows.to(i)] as usize
    }
}
