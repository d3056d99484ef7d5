// The cases of the intake desk's call: the table that it makes, and what that predicts.
use crate::predicts;
use cases::answer;
use cases::tally::Outcome;
use intake_lists::StringLists;
use paper::{Mode, Table};
use parts::case::Case;
use parts::{number, slice};

// The call, with as much of the output as the case says; the answer stands behind the windows. Arrays and no Vec: fixed
// memory.
pub fn asked(mut case: Case) -> Outcome {
    let mut productions = [0; 2000];
    let mut tokens = [0; 20000];
    let mut out = [0; 20000];
    let productions = case.signed_list(&mut productions);
    let counts = case.list();
    let lengths = case.list();
    let tokens = case.tokens(&mut tokens);
    let lent = slice::lent(&mut out, case.number());
    let lists = StringLists {
        productions,
        counts,
        lengths,
        tokens,
    };
    let answer = intake::shrunk_table(lists, lent);
    let windows = case.list();
    answer::compared_and(case.rest(), answer, &out, |table| are_told(windows, table))
}

// Six numbers a window: three tokens, and what is predicted.
fn are_told(windows: &[usize], table: Table) -> bool {
    windows.chunks_exact(6).all(|window| is_told(window, table))
}

// Whether the table predicts of a window what the window says.
fn is_told(window: &[usize], table: Table) -> bool {
    let mut tokens = [0; 3];
    slice::mapped(slice::front(window, 3), &mut tokens, number::token);
    let answer = predict::predict(Mode::Intake, table, 3, &tokens);
    predicts::compared(slice::after(window, 3), answer).right
}
