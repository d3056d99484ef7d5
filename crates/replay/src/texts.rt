// The cases of text in and text out: what is read from a text, and the text that is written of that.
use cases::answer;
use cases::tally::Outcome;
use paper::{Heading, Table};
use parts::case::Case;
use parts::slice;

// Text in, with as much of the output as the case says. The text stands at the end of the case's bytes. Text in counts
// no states. An array and no Vec: fixed memory.
pub fn asked(mut case: Case, bytes: &[u8]) -> Outcome {
    let mut out = [0; 20000];
    let text = slice::back(bytes, case.number());
    let lent = slice::lent(&mut out, case.number());
    let answer = text_in::text_in(text, lent).map(|title| Heading {
        prod0: title.prod0,
        k: title.k,
        rows: title.rows,
        states: 0,
    });
    answer::compared_and(case.list(), answer, &out, |table| is_written(table, text))
}

// Whether text out writes a table as this text, and nothing behind it. Where it refuses, it writes no byte.
fn is_written(table: Table, text: &[u8]) -> bool {
    let mut bytes = [0; 262144];
    let answer = text_out::text_out(table, &mut bytes);
    let n = answer.unwrap_or(0);
    slice::front(&bytes, n) == text && slice::after(&bytes, n).iter().all(|byte| *byte == 0)
}
