// The counts of a run.
use crate::call::Call;
use cases::tally::{Outcome, Tally};
use std::io;

// In the order in which their counts are printed.
const CALLS: [Call; 7] = [
    Call::Build,
    Call::Unite,
    Call::Shrink,
    Call::Predict,
    Call::Explain,
    Call::Intake,
    Call::Text,
];

// How many cases the list had so far, how many of the last were right, and the tally of each call.
#[derive(Clone, Copy, Default)]
pub struct Tallies {
    cases: usize,
    pub right: usize,
    // by the call's place in CALLS
    calls: [Tally; 7],
}

impl Tallies {
    // Names a case of a call if it is wrong, unless some of its call were named, and counts it.
    pub fn add(&mut self, rt: &impl Print, call: Call, outcome: Outcome) -> io::Result<()> {
        let tally = &mut self.calls[call as usize];
        if !outcome.right && tally.is_naming() {
            println!(rt; "case {} wrong", self.cases)?;
        }
        tally.add(outcome);
        self.cases = self.cases.saturating_add(1);
        self.right = if outcome.right {
            self.right.saturating_add(1)
        } else {
            0
        };
        Ok(())
    }

    // The counts of each call.
    pub fn report(&self, rt: &impl Print) -> io::Result<()> {
        for (call, tally) in CALLS.iter().zip(&self.calls) {
            println!(rt; "{call}")?;
            tally.report(rt)?;
        }
        Ok(())
    }
}
