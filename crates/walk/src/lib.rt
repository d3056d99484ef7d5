// Document 01, module 5: the walk of predict, in rows that passed 2 and 3.
#![tactic(auto)]

ghost use Rattle.std.specs.Prelude.{◌≡◌, ◌/◌, ◌<◌, length};
ghost use Rattle.paper.specs.Rows.{rows_in};
ghost use Rattle.paper.specs.Predict.{start, step, walk};
ghost use Rattle.rows.specs.Places.{row_at};
ghost use Rattle.walk.specs.Seen.{seen, entering};

use paper::{Production, State, Terminal};
use rows::Rows;

// The walk: its state, the count of rows entered, and the production of the last accepting row entered.
#[derive(Clone, Copy)]
pub struct Walk {
    pub state: State,
    pub entered: usize,
    pub last: Option<Production>,
}

impl Walk {
    // At state 0, before any token.
    pub fn start() -> Walk
        ensures { seen result ≡ start }
    {
        Walk {
            state: State(0),
            entered: 0,
            last: None,
        }
    }

    // One token, and the walk after it.
    pub fn step(self, token: Terminal, rows: Rows) -> Walk
        requires { self.entered < 4294967296 }
        ensures { seen result ≡ step (rows_in rows.entry.numbers.now) token.0 (seen self) }
    {
        match search::find(rows, self.state, token) {
            Ok(i) => self.enter(rows, i),
            Err(_) => self,
        }
    }

    // Along row i.
    fn enter(self, rows: Rows, i: usize) -> Walk
        requires { (i < length rows.numbers.now / 4) × (self.entered < 4294967296) }
        ensures { seen result ≡ entering (row_at rows.entry.numbers.now i) (seen self) }
    {
        Walk {
            state: State(rows.to(i) as u16),
            entered: self.entered + 1,
            last: rows.production(i).or(self.last),
        }
    }
}

// The walk over all tokens.
pub fn walked(rows: Rows, tokens: &[u16]) -> Walk
    requires { length tokens.now < 4294967296 }
    ensures { seen result ≡ walk (rows_in rows.entry.numbers.now) tokens.now start }
{
    let mut w = Walk::start();
    for token in tokens {
        w = w.step(Terminal(*token), rows);
    }
    w
}
