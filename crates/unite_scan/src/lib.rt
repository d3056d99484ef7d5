// The rows of the second looked up in the first alone: whether two productions clash.
#![tactic(auto)]

ghost use Rattle.std.specs.Prelude.{◌≡◌, ◌/◌, ◌<◌, length};
ghost use Rattle.std.proofs.Math.Option.{some};
ghost use Rattle.paper.specs.Rows.{rows_in};
ghost use Rattle.rows.specs.Places.{row_at, given};
ghost use Rattle.unite_scan.specs.Looking.{state_of, mark, unmark, looked, seek, Looks, Scanned};

use paper::{Mode, Production, Refusal, State, Terminal};
use rows::Rows;
use unite_taking::TreeRows;

// What the map holds for a state with no match: an Option would take twice the room, and the arrays of a call are fixed.
const NO_MATCH: u16 = 65535;

// The match that the map holds.
fn unmark(m: u16) -> Option<State>
    ensures { state_of result ≡ unmark m }
{
    if m == NO_MATCH { None } else { Some(State(m)) }
}

// What the map holds for a match.
fn mark(found: Option<State>) -> u16
    ensures { result ≡ mark (state_of found) }
{
    match found {
        None => NO_MATCH,
        Some(state) => state.0,
    }
}

// A row that the first has as its row i: the state that it leads to, unless the productions clash.
#[tactic(auto, unfolding(crate::specs::Looking::looked))]
fn hit(
    mode: Mode,
    first: Rows,
    i: usize,
    production: Option<Production>,
) -> Result<Option<State>, Refusal>
    requires { i < length first.numbers.now / 4 }
    ensures { Looks (looked mode (given production) (some (row_at first.entry.numbers.now i))) result }
{
    unite_meet::taken(mode, first.production(i), production)?;
    Ok(Some(State(first.to(i) as u16)))
}

// A row from the match of a state by a token: a state without a match leads to states without.
#[tactic(auto, unfolding(crate::specs::Looking::looked, crate::specs::Looking::seek))]
fn look_up(
    mode: Mode,
    first: Rows,
    from: Option<State>,
    token: Terminal,
    production: Option<Production>,
) -> Result<Option<State>, Refusal>
    ensures { Looks (looked mode (given production) (seek (rows_in first.entry.numbers.now) (state_of from) token.0))
        result }
{
    let Some(state) = from else {
        return Ok(None);
    };
    match search::find(first, state, token) {
        Ok(i) => hit(mode, first, i, production),
        Err(_) => Ok(None),
    }
}

// All rows of the second, in order; the map holds the match of each of its states. One walk for this and for `take_rows`
// would be handed each step as a closure with a contract, longer than the loop.
pub fn clash(mode: Mode, first: TreeRows, second: TreeRows) -> Result<(), Refusal>
    ensures { Scanned mode (rows_in first.entry.rows.numbers.now) (rows_in second.entry.rows.numbers.now) result }
{
    let rows = second.rows;
    let mut map = [0u16; 1024];
    for i in 0..rows.count() {
        let from = unmark(map[rows.from(i)]);
        let token = Terminal(rows.terminal(i) as u16);
        let to = look_up(mode, first.rows, from, token, rows.production(i))?;
        map[rows.to(i)] = mark(to);
    }
    Ok(())
}
