// What a call that makes a table answered, compared with the list: the answer, the rows at the front of the output, and
// the pattern behind them.
use crate::tally::Outcome;
use paper::{Heading, Refusal, Table};
use parts::{number, slice};

// As many rows as a table may have.
const MOST: usize = 4096;

// Whether an answer and the output are what the rest of a case says.
pub fn compared(expected: &[usize], answer: Result<Heading, Refusal>, out: &[i32]) -> Outcome {
    compared_and(expected, answer, out, |_| true)
}

// The same, and what is asked besides of a table holds of it.
pub fn compared_and<F: FnOnce(Table) -> bool>(
    expected: &[usize],
    answer: Result<Heading, Refusal>,
    out: &[i32],
    holds: F,
) -> Outcome
    requires { F.IsAlwaysCallable holds }
{
    let right = match answer {
        Ok(heading) => made(expected, heading, out).is_some_and(holds),
        Err(refusal) => is_refused(expected, refusal) && slice::is_filled(out, 0),
    };
    Outcome {
        refusal: answer.err(),
        right,
    }
}

// The table that was made, if it is what the rest of a case says.
fn made<'a>(expected: &[usize], heading: Heading, out: &'a [i32]) -> Option<Table<'a>> {
    let [0, prod0, k, states, rows, numbers @ ..] = expected else {
        return None;
    };
    let said = Heading {
        prod0: number::signed(*prod0),
        k: *k,
        rows: *rows,
        states: *states,
    };
    if heading != said {
        return None;
    }
    let rows = front_rows(numbers, heading.rows, out)?;
    Some(Table {
        prod0: heading.prod0,
        k: heading.k,
        rows,
    })
}

// The rows at the front of the output, four numbers each, if they are these and the others are as they were.
fn front_rows<'a>(expected: &[usize], count: usize, out: &'a [i32]) -> Option<&'a [i32]> {
    let n = numbers_of(count);
    let rows = slice::front(out, n);
    let are_said = expected.len() == n
        && rows
            .iter()
            .copied()
            .eq(expected.iter().copied().map(number::signed));
    (are_said && slice::is_filled(out, n)).then_some(rows)
}

// Four a row; none of more rows than a table may have, which the list then shows to be wrong.
fn numbers_of(rows: usize) -> usize {
    if rows <= MOST { rows * 4 } else { 0 }
}

// Whether a refusal is what the rest of a case says: the number alone, but for a clash, which has its pair, and a bad
// text, which has the line's place.
fn is_refused(expected: &[usize], refusal: Refusal) -> bool {
    match refusal {
        Refusal::Clash(first, second) => {
            expected == [8, usize::from(first.0), usize::from(second.0)].as_slice()
        }
        Refusal::Text(at) => expected == [13, at].as_slice(),
        _ => expected == [refusal.number()].as_slice(),
    }
}
