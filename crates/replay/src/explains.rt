// The cases of explain.
use cases::tally::Outcome;
use explain::Part;
use paper::Refusal;
use parts::case::Case;
use parts::slice;

// The three calls of one table, and their answers compared; a stretch that is not at its place is wrong, and counted as
// accepted. Arrays and no Vec: fixed memory.
pub fn asked(mut case: Case) -> Outcome {
    let mut rows = [0; 20000];
    let mut tokens = [0; 20000];
    let table = case.table(&mut rows);
    let tokens = case.tokens(&mut tokens);
    let matched = explain::matched(table, tokens);
    let place = explain::place(table, tokens);
    let stretch = explain::stretch(table, tokens);
    if !is_at(stretch, table.rows, place) {
        return Outcome {
            refusal: None,
            right: false,
        };
    }
    Outcome {
        refusal: matched.err(),
        right: is_said(case.rest(), matched, place),
    }
}

// Whether the count of matched tokens, or the refusal, and the place of the stretch are what is said.
fn is_said(expected: &[usize], matched: Result<usize, Refusal>, place: Part) -> bool {
    match matched {
        Ok(count) => expected == [0, count, place.start, place.count].as_slice(),
        Err(refusal) => expected == [refusal.number(), place.start, place.count].as_slice(),
    }
}

// Whether a stretch is what stands at its place in the rows.
fn is_at(stretch: &[i32], rows: &[i32], place: Part) -> bool {
    slice::after(rows, place.start).get(..place.count) == Some(stretch)
}
