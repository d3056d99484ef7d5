// The intake desk's one call: from string lists to a shrunk table.
#![tactic(auto)]

mod checks;

ghost use Rattle.std.specs.Prelude.{◌≤◌, length};
ghost use Rattle.paper.specs.Answers.{then, Makes};
ghost use Rattle.promises.specs.Demand.{shrink_made};
ghost use Rattle.intake_lists.specs.Call.{unite_all, table_of};
ghost use Rattle.intake_lists.specs.Split.{lists_of};

use intake_lists::{Lists, StringLists};
use intake_steps::kept::Kept;
use paper::{Heading, Refusal};

// The lists united in arrays of their own, and the shrunk table's rows at the front of the output.
// Held on the stack: two arrays of 16 KiB for the tables that are united, and one of 64 KiB, the length that build and
// unite ask of their output; 96 KiB in all, beside what the called function holds.
fn shrunk(lists: Lists, out: &mut [i32]) -> Result<Heading, Refusal>
    requires { 16384 ≤ length out.old }
    ensures { Makes (then (unite_all (lists_of lists.entry.lent)) shrink_made) result out.old out.new }
{
    let mut so_far = Kept::empty();
    let mut next = Kept::empty();
    let mut work = [0i32; 16384];
    let united = intake_joining::unite_all(lists, &mut so_far, &mut next, &mut work);
    intake_steps::finish(united, &so_far, out)
}

// The lists built, united one after the other and shrunk, all in intake mode. Demand 3 of this call is
// `intake_answers` of crates/intake_lists/proofs/Demand.antt, by way of `intake_demand3`; that the order of the lists
// changes no answer is `intake_any_order`.
pub fn shrunk_table(lists: StringLists, out: &mut [i32]) -> Result<Heading, Refusal>
    ensures { Makes (table_of lists.entry.productions.now lists.entry.counts.now lists.entry.lengths.now
        lists.entry.tokens.now (length out.old)) result out.old out.new }
{
    if checks::lengths(lists, out.len()) {
        return Err(Refusal::Length);
    }
    shrunk(Lists { lent: lists }, out)
}
