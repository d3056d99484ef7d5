// Replays the fixed list: each case is asked of the proved call, and its answer and the output are compared with the
// list's. A name behind some cases says what they show.
#![tactic(auto)]

mod builds;
mod call;
mod explains;
mod intakes;
mod predicts;
mod shrinks;
mod tallies;
mod texts;
mod unites;

use call::Call;
use cases::tally;
use cases::tally::Outcome;
use parts::case::Case;
use parts::{number, slice};
use std::io;
use std::io::Read;
use tallies::Tallies;

// The list of standard input, and the counts at its end.
fn main(rt: HostRuntime) -> io::Result<()> {
    let mut tallies = Tallies::default();
    replay(&rt, &mut rt.stdin(), &mut tallies)?;
    tallies.report(&rt)
}

// More turns than the list has cases and names. Arrays and no Vec: fixed memory.
fn replay(rt: &impl Print, input: &mut impl Read, tallies: &mut Tallies) -> io::Result<()> {
    let mut bytes = [0; 131072];
    let mut numbers = [0; 131072];
    for _ in 0..1_000_000 {
        let Some(bytes) = tally::next(input, &mut bytes)? else {
            break;
        };
        let record = Case::new(number::read(bytes, &mut numbers));
        told(rt, bytes, record, tallies)?;
    }
    Ok(())
}

// A name, or a case, which stands behind its call and its source.
fn told(rt: &impl Print, bytes: &[u8], mut record: Case, tallies: &mut Tallies) -> io::Result<()> {
    let Ok(call) = Call::try_from(record.number()) else {
        return named(rt, bytes, record.number(), tallies.right);
    };
    let _source = record.number();
    tallies.add(rt, call, asked(call, record.part(), bytes))
}

// What a call answered for a case.
fn asked(call: Call, case: Case, bytes: &[u8]) -> Outcome {
    match call {
        Call::Build => builds::asked(case),
        Call::Unite => unites::asked(case),
        Call::Shrink => shrinks::asked(case),
        Call::Predict => predicts::asked(case),
        Call::Explain => explains::asked(case),
        Call::Intake => intakes::asked(case),
        Call::Text => texts::asked(case, bytes),
    }
}

// A name that stands behind n cases, and whether they were right.
fn named(rt: &impl Print, bytes: &[u8], n: usize, right: usize) -> io::Result<()> {
    rt.print(if n <= right { "ok " } else { "WRONG " })?;
    rt.write_all(slice::after(bytes, 2))?;
    println!(rt)
}
