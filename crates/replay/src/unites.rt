// The cases of unite.
use cases::answer;
use cases::tally::Outcome;
use parts::case::Case;
use parts::slice;

// The call, with as much of the output as the case says. Arrays and no Vec: fixed memory.
pub fn asked(mut case: Case) -> Outcome {
    let mut rows = [0; 20000];
    let mut others = [0; 20000];
    let mut out = [0; 20000];
    let mode = case.mode();
    let first = case.table(&mut rows);
    let second = case.table(&mut others);
    let lent = slice::lent(&mut out, case.number());
    let answer = unite::unite(mode, first, second, lent);
    answer::compared(case.rest(), answer, &out)
}
