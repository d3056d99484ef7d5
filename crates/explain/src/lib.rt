// Document 01, module 6: explain.
#![tactic(auto)]

ghost use Rattle.std.specs.Prelude.{◌≡◌, ◌-◌, ◌≤◌, length};
ghost use Rattle.paper.specs.Rows.{rows_in};
ghost use Rattle.paper.specs.Answers.{stated};
ghost use Rattle.paper.specs.Explain.{stop, matched_count, stretch, left_rows, PartOf};
ghost use Rattle.explain.specs.Stopped.{stopped, Lies};

use paper::{Refusal, State, Table, Terminal};
use rows::Rows;

// Where the walk stopped: the state, the count of matched tokens, and whether a token was left over. The state stands
// beside the flag also where none was, as in the document.
#[derive(Clone, Copy)]
pub struct Stop {
    pub state: State,
    pub matched: usize,
    pub more: bool,
}

// The walk over all tokens to the first without a row.
fn walked(rows: Rows, tokens: &[u16]) -> Stop
    ensures { stopped result ≡ stop (rows_in rows.entry.numbers.now) 0 0 tokens.now }
{
    let mut state = State(0);
    for (i, token) in tokens.iter().enumerate() {
        let Ok(row) = search::find(rows, state, Terminal(*token)) else {
            return Stop {
                state,
                matched: i,
                more: true,
            };
        };
        state = State(rows.to(row) as u16);
    }
    Stop {
        state,
        matched: tokens.len(),
        more: false,
    }
}

// Explain, the first call: the count of matched tokens, or the refusal.
pub fn matched(lent: Table, tokens: &[u16]) -> Result<usize, Refusal>
    ensures { stated result ≡ matched_count lent.entry.prod0 lent.entry.k lent.entry.rows.now tokens.now }
{
    let checked = row_checks::whole(lent)?;
    Ok(walked(checked.rows(), tokens).matched)
}

// A stretch of a row slice: where it begins and how long it is, in numbers.
#[derive(Clone, Copy)]
pub struct Part {
    pub start: usize,
    pub count: usize,
}

// The rows that leave the state where a walk stopped.
fn left_rows(rows: Rows, s: Stop) -> Part
    ensures { Lies rows.entry.numbers.now
        (left_rows rows.entry.numbers.now (rows_in rows.entry.numbers.now) (stopped s)) result }
{
    let n = rows.numbers.len();
    if !s.more {
        return Part { start: n, count: 0 };
    }
    let span = search::leaving(rows, s.state);
    if span.count == 0 {
        return Part { start: n, count: 0 };
    }
    Part {
        start: span.begin * 4,
        count: span.count * 4,
    }
}

// Where the rows that leave the stopped state lie; at the slice's end, and none, after a refusal, since
// the call for C can't fail.
pub fn place(lent: Table, tokens: &[u16]) -> Part
    ensures { Lies lent.entry.rows.now (stretch lent.entry.prod0 lent.entry.k lent.entry.rows.now tokens.now) result }
{
    match row_checks::whole(lent) {
        Ok(checked) => left_rows(checked.rows(), walked(checked.rows(), tokens)),
        Err(_) => Part {
            start: lent.rows.len(),
            count: 0,
        },
    }
}

// The numbers of a slice from a to e.
fn between(rows: &[i32], a: usize, e: usize) -> &[i32]
    requires { (a ≤ e) × (e ≤ length rows.now) }
    ensures { PartOf rows.entry result (record { start = a; count = e - a }) }
{
    &rows[a..e]
}

// Explain, the second call: the rows that leave the stopped state, as a part of the caller's own slice.
pub fn stretch<'a>(lent: Table<'a>, tokens: &[u16]) -> &'a [i32]
    ensures { PartOf lent.entry.rows result (stretch lent.entry.prod0 lent.entry.k lent.entry.rows.now tokens.now) }
{
    let p = place(lent, tokens);
    between(lent.rows, p.start, p.start + p.count)
}
