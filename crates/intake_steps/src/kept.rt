// A table in an array of its own.
ghost use Rattle.std.specs.Prelude.{◌≡◌, ◌*◌, length, take, Ok};
ghost use mathlib.Core.Option.{none};
ghost use Rattle.paper.specs.Rows.{accepting};
ghost use Rattle.intake_lists.specs.Held.{Few};

use paper::{Heading, Table};

// The room that build and unite ask of their output.
pub type Room = [i32; 16384];

// The heading of a table of at most 1,023 rows.
#[derive(Clone, Copy)]
pub struct Small {
    pub heading: Heading,
    ghost few: { Few (Ok heading) },
}

// A table: its heading, and its rows at the front of the array, which is no Vec: nothing is allocated in a call.
#[derive(Drop)]
pub struct Kept {
    pub small: Small,
    pub buf: [i32; 4096],
}

impl Kept {
    // No table yet: a heading of no rows, which the first list takes the place of.
    pub fn empty() -> Kept
        ensures prod0 { accepting result.small.heading.prod0 ≡ none }
        ensures k { result.small.heading.k ≡ 0 }
        ensures rows { result.small.heading.rows ≡ 0 }
        ensures states { result.small.heading.states ≡ 0 }
    {
        let heading = Heading {
            prod0: -1,
            k: 0,
            rows: 0,
            states: 0,
        };
        Kept {
            small: Small { heading },
            buf: [0; 4096],
        }
    }

    // The table as the next call is lent it.
    pub fn lent(&self) -> Table
        ensures prod0 { result.prod0 ≡ self.now.small.heading.prod0 }
        ensures k { result.k ≡ self.now.small.heading.k }
        ensures rows { result.rows.now ≡ take (self.now.small.heading.rows * 4) self.now.buf }
        ensures long { length self.now.buf ≡ 4096 }
    {
        let heading = self.small.heading;
        Table {
            prod0: heading.prod0,
            k: heading.k,
            rows: &self.buf[..heading.rows * 4],
        }
    }

    // A table whose rows stand at the front of the work takes the place of what is there.
    pub fn keep(&mut self, small: Small, work: &Room)
        ensures heading { self.new.small.heading ≡ small.heading }
        ensures rows { take (small.heading.rows * 4) self.new.buf ≡ take (small.heading.rows * 4) work.now }
    {
        let n = small.heading.rows * 4;
        self.buf[..n].copy_from_slice(&work[..n]);
        self.small = small;
    }
}
