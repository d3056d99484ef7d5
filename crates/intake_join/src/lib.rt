// One more list: it is built, and united to what there is, in arrays that the caller holds.
#![tactic(auto)]

ghost use Rattle.paper.specs.Answers.{then};
ghost use Rattle.intake_lists.specs.Call.{join_lent};
ghost use Rattle.intake_lists.specs.Held.{held, answered, Holds};
ghost use Rattle.intake_lists.specs.Split.{list_of};

use intake_steps::kept::{Kept, Room};
use paper::{Refusal, StringList};

// One more list, built and united to what there is; where a list before it was refused, that refusal. The three arrays
// are lent apart, not as one struct: unite reads two while it writes the third.
#[tactic(auto, using(intake_lists::proofs::Joined::join_is, intake_lists::proofs::Joined::unite_as))]
pub fn join_list(
    united: Result<(), Refusal>,
    list: StringList,
    so_far: &mut Kept,
    next: &mut Kept,
    work: &mut Room,
) -> Result<(), Refusal>
    ensures { Holds (then (held (answered united so_far.old.small.heading) so_far.old.buf)
        (λ m. join_lent m (list_of list.entry))) (answered result so_far.new.small.heading) so_far.new.buf }
{
    united?;
    intake_steps::build_list(list, next, work)?;
    intake_steps::unite_two(so_far, next.lent(), work)
}
