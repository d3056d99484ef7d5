// A table's rows as they grow: they stand in an array from a row on, and a new row moves the fewer of them, up or down.
#![tactic(auto)]

ghost use Rattle.std.specs.Prelude.{◌≡◌, ◌+◌, ◌*◌, ◌<◌, ◌≤◌, ◌/◌, length, take, drop, Ok};
ghost use Rattle.paper.specs.Answers.{Makes};
ghost use Rattle.paper.specs.Build.{within};
ghost use Rattle.paper.specs.Rows.{rows_in};
ghost use Rattle.rows.specs.Places.{given};
ghost use Rattle.trees.proofs.Tree.{Tree};
ghost use Rattle.grow_laws.specs.Held.{view, row_held, Laid, table_of, Seeks, Missed, Given};

use grow_ends::Spread;
use paper::{Heading, Production, Refusal, State, Terminal};
use rows::{Rows, numbers};

// A tree has at most so many rows: one fewer than states.
const MOST_ROWS: usize = 1023;

// Whole rows that passed the checks, and no more than a tree has.
#[derive(Clone, Copy)]
pub struct WholeRows<'a> {
    pub rows: Rows<'a>,
    ghost few: { length rows.numbers.now ≤ 4092 },
    ghost whole: { length rows.numbers.now / 4 * 4 ≡ length rows.numbers.now },
}

// n rows that rise, each within its bounds. That they are a tree give asks: held here, grow would ask more of callers.
#[derive(Drop)]
pub struct Growing {
    spread: Spread,
    n: usize,
    ghost laid: { Laid (view spread.buf spread.lo) n },
}

impl Growing {
    ghost use Rattle.grow.specs.Seen.{seen, rows_of, Grows};

    // No rows yet.
    pub fn empty() -> Growing
        ensures { result.n ≡ 0 }
    {
        Growing {
            spread: Spread::empty(),
            n: 0,
        }
    }

    // The rows of a table that passed the checks take the place of those before. Made in place, and not returned: that
    // was measured as slower.
    pub fn copy(&mut self, lent: WholeRows)
        ensures is { rows_of self.new ≡ rows_in lent.entry.rows.numbers.now }
        ensures rest { drop (length lent.entry.rows.numbers.now) (seen self.new)
            ≡ drop (length lent.entry.rows.numbers.now) (seen self.old) }
    {
        let rows = lent.rows;
        self.spread.copy(rows.numbers);
        self.n = rows.count();
    }

    // How many rows there are.
    pub fn count(&self) -> usize
        ensures { result ≡ self.now.n }
    {
        self.n
    }

    // The rows themselves.
    fn rows(&self) -> Rows
        ensures { result.numbers.now ≡ take (self.now.n * 4) (seen self.now) }
    {
        Rows {
            numbers: self.spread.numbers(self.n),
        }
    }

    // The row of a state and a terminal, or where it would go.
    pub fn find(&self, state: State, terminal: Terminal) -> Result<usize, usize>
        requires { state.0 ≤ 1023 }
        ensures { Seeks (seen self.now) self.now.n state.0 terminal.0 result }
    {
        search::find(self.rows(), state, terminal)
    }

    // The state that row i leads to.
    pub fn to(&self, i: usize) -> State
        requires { i < self.now.n }
        ensures { (result.0 ≡ (row_held (seen self.now) self.now.n i).to)
            × (result.0 ≤ 1023) }
    {
        State(self.rows().to(i) as u16)
    }

    // The production of that state.
    pub fn production(&self, i: usize) -> Option<Production>
        requires { i < self.now.n }
        ensures { given result ≡ (row_held (seen self.now) self.now.n i).production }
    {
        self.rows().production(i)
    }

    // A new row at its place i, into a new state, unless there are 1,023 rows.
    pub fn grow(
        &mut self,
        i: usize,
        from: State,
        terminal: Terminal,
        production: Option<Production>,
    ) -> Result<State, Refusal>
        requires { Missed (seen self.old) self.old.n i from.0 terminal.0 }
        ensures { Grows self.old self.new i from.0 terminal.0 (given production) result }
    {
        if MOST_ROWS <= self.n {
            return Err(Refusal::Full);
        }
        let to = numbers::number_of(self.n + 1);
        let row = [
            numbers::number_of(from.0 as usize),
            numbers::number_of(terminal.0 as usize),
            to,
            numbers::signed(production),
        ];
        self.spread.insert(self.n, i, row);
        self.n += 1;
        Ok(State(self.n as u16))
    }

    // The state that row i of a tree leads to gets a production.
    #[tactic(auto, using(grow_laws::proofs::Painted::gives), unfolding(paper::specs::Checks::production_fits))]
    pub fn give(&mut self, i: usize, production: Option<Production>)
        requires { Tree (rows_of self.old) × (i < self.old.n) }
        ensures { Given (seen self.old) (seen self.new) self.old.n i (given production) × (self.new.n ≡ self.old.n) }
    {
        self.spread.set(i * 4 + 3, numbers::signed(production));
    }

    // The rows at the front of the output, and the answer.
    pub fn finish(&self, prod0: Option<Production>, k: usize, out: &mut [i32]) -> Heading
        requires { 16384 ≤ length out.old }
        ensures { Makes (within (table_of (given prod0) k (seen self.now) self.now.n))
            (Ok result) out.old out.new }
    {
        out[..self.n * 4].copy_from_slice(self.rows().numbers);
        Heading {
            prod0: numbers::signed(prod0),
            k,
            rows: self.n,
            states: self.n + 1,
        }
    }
}
