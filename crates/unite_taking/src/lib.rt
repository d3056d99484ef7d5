// The rows of the second table taken into rows that grow, in order.
#![tactic(auto)]

ghost use Rattle.std.specs.Prelude.{◌≡◌, ◌<◌, ◌≤◌};
ghost use Rattle.paper.specs.Rows.{find, rows_in};
ghost use Rattle.rows.specs.Places.{given};
ghost use Rattle.grow_laws.specs.Held.{row_held};
ghost use Rattle.grow.specs.Seen.{seen, rows_of};
ghost use Rattle.trees.proofs.Tree.{Tree};
ghost use Rattle.unite_taking.specs.Taking.{taking, Takes, Matches, UnitedRows, Treed};

use grow::Growing;
use paper::{Mode, Production, Refusal, State, Terminal};
use rows::Rows;

// The rows of a tree with at most 1,023 rows.
#[derive(Clone, Copy)]
pub struct TreeRows<'a> {
    pub rows: Rows<'a>,
    ghost treed: { Treed rows.numbers.now },
}

impl<'a> From<ruled::Tree<'a>> for TreeRows<'a> {
    ghost from_gives = { λ lent result. result.rows.numbers.now ≡ lent.table.rows.now };

    // The rows of a table that passed the checks 1 to 7.
    #[tactic(auto, using(crate::proofs::Passing::rows_passed, crate::proofs::Passing::treed))]
    fn from(lent: ruled::Tree<'a>) -> TreeRows<'a> {
        TreeRows {
            rows: Rows {
                numbers: lent.table.rows,
            },
        }
    }
}

// A row that the first has as its row i: the state that it leads to takes a production.
#[tactic(auto, unfolding(crate::specs::Taking::taking))]
fn matched(
    mode: Mode,
    growing: &mut Growing,
    i: usize,
    production: Option<Production>,
) -> Result<State, Refusal>
    requires { Tree (rows_of growing.old) × (i < growing.old.n) }
    ensures { Matches mode growing.new (rows_of growing.old) (given production)
        (row_held (seen growing.old) growing.old.n i) result }
{
    let state = growing.to(i);
    let met = unite_meet::taken(mode, growing.production(i), production)?;
    growing.give(i, met);
    Ok(state)
}

// A row from a state by a token: found, or added. A row that is found takes a production here, and not in build_string's enter,
// so that one function for both would be longer.
fn take_row(
    mode: Mode,
    growing: &mut Growing,
    from: State,
    token: Terminal,
    production: Option<Production>,
) -> Result<State, Refusal>
    requires { Tree (rows_of growing.old) × (from.0 ≤ 1023) }
    ensures { Takes growing.new
        (taking mode (rows_of growing.old) from.0 token.0 (given production)
        (find (rows_of growing.old) from.0 token.0)) result }
{
    match growing.find(from, token) {
        Ok(i) => matched(mode, growing, i, production),
        Err(i) => growing.grow(i, from, token, production),
    }
}

// All rows of the second, in order; the map holds the match of each of its states.
pub fn take_rows(mode: Mode, growing: &mut Growing, second: TreeRows) -> Result<(), Refusal>
    requires { Tree (rows_of growing.old) }
    ensures { UnitedRows mode (rows_of growing.old) (rows_in second.entry.rows.numbers.now)
        growing.new result }
{
    let rows = second.rows;
    let mut map = [0u16; 1024];
    for i in 0..rows.count() {
        let from = State(map[rows.from(i)]);
        let token = Terminal(rows.terminal(i) as u16);
        let state = take_row(mode, growing, from, token, rows.production(i))?;
        map[rows.to(i)] = state.0;
    }
    Ok(())
}
