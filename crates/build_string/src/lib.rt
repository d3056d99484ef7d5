// A string walked into rows that grow, states added in order of need.
#![tactic(auto)]

ghost use Rattle.std.specs.Prelude.{◌≤◌};
ghost use Rattle.grow.specs.Seen.{seen, rows_of};
ghost use Rattle.trees.proofs.Tree.{Tree};
ghost use Rattle.build_string.specs.Steps.{Leads, Enters, Walks, Marked, Adds};

use grow::Growing;
use paper::{Production, Refusal, State, Terminal};

// Where a walk stands: its state, and the row into it; none leads into state 0.
#[derive(Clone, Copy)]
pub struct Step {
    state: State,
    at: Option<usize>,
}

// From a state by a token: along its row, or into a new state.
fn enter(rows: &mut Growing, state: State, token: Terminal) -> Result<Step, Refusal>
    requires { state.0 ≤ 1023 }
    ensures { Enters rows.old rows.new state.0 token.0 result }
{
    match rows.find(state, token) {
        Ok(i) => Ok(Step {
            state: rows.to(i),
            at: Some(i),
        }),
        Err(i) => {
            let state = rows.grow(i, state, token, None)?;
            Ok(Step { state, at: Some(i) })
        }
    }
}

// A string walked from state 0.
fn walk(rows: &mut Growing, string: &[u16]) -> Result<Step, Refusal>
    ensures { Walks rows.old rows.new string.now result }
{
    let mut step = Step {
        state: State(0),
        at: None,
    };
    for token in string {
        step = enter(rows, step.state, Terminal(*token))?;
    }
    Ok(step)
}

// The state that a walk stands in gets the production; state 0 has no row.
fn mark(rows: &mut Growing, step: Step, production: Production)
    requires { Tree (rows_of rows.old) × Leads (seen rows.old) rows.old.n step.state.0 step.at }
    ensures { Marked rows.old rows.new step.state.0 production.0 }
{
    if let Some(i) = step.at {
        rows.give(i, Some(production));
    }
}

// A string walked from state 0, whose last state gets the production: that state.
pub fn add_string(
    rows: &mut Growing,
    string: &[u16],
    production: Production,
) -> Result<State, Refusal>
    requires { Tree (rows_of rows.old) }
    ensures { Adds rows.old rows.new production.0 string.now result }
{
    let step = walk(rows, string)?;
    mark(rows, step, production);
    Ok(step.state)
}
