// The lists, one after the other: each is built and united to what there is, in arrays that the caller holds.
#![tactic(auto)]

ghost use Rattle.std.specs.Prelude.{Ok};
ghost use Rattle.paper.specs.Answers.{then};
ghost use Rattle.intake_lists.specs.Call.{join_all, unite_all};
ghost use Rattle.intake_lists.specs.Held.{held, answered, Holds};
ghost use Rattle.intake_lists.specs.Split.{lists_of};

use intake_lists::Lists;
use intake_steps::kept::{Kept, Room};
use paper::Refusal;

// The lists, one after the other, joined to what there is. An iterator's law would say again what split_first says of
// the lists that are left.
#[tactic(auto, using(intake_lists::proofs::Joining::first_joined, intake_lists::proofs::Joining::none_left))]
fn join_all(
    lists: Lists,
    so_far: &mut Kept,
    next: &mut Kept,
    work: &mut Room,
) -> Result<(), Refusal>
    ensures { Holds (then (held (Ok so_far.old.small.heading) so_far.old.buf) (λ m. join_all m (lists_of lists.entry.lent)))
        (answered result so_far.new.small.heading) so_far.new.buf }
{
    let mut rest = lists;
    while let Some((list, others)) = rest.split_first() {
        intake_join::join_list(Ok(()), list, so_far, next, work)?;
        rest = others;
    }
    Ok(())
}

// All lists: the first built, the others joined to it; no list is refused as a wrong length.
pub fn unite_all(
    lists: Lists,
    so_far: &mut Kept,
    next: &mut Kept,
    work: &mut Room,
) -> Result<(), Refusal>
    ensures { Holds (unite_all (lists_of lists.entry.lent))
        (answered result so_far.new.small.heading) so_far.new.buf }
{
    let Some((first, others)) = lists.split_first() else {
        return Err(Refusal::Length);
    };
    intake_steps::build_list(first, so_far, work)?;
    join_all(others, so_far, next, work)
}
