// The cases of build.
use cases::answer;
use cases::tally::Outcome;
use paper::StringList;
use parts::case::Case;
use parts::slice;

// The call, with as much of the output as the case says. Arrays and no Vec: fixed memory.
pub fn asked(mut case: Case) -> Outcome {
    let mut tokens = [0; 20000];
    let mut out = [0; 20000];
    let production = case.signed();
    let lengths = case.list();
    let list = StringList {
        production,
        tokens: case.tokens(&mut tokens),
        lengths,
    };
    let lent = slice::lent(&mut out, case.number());
    let answer = build::build(list, lent);
    answer::compared(case.rest(), answer, &out)
}
