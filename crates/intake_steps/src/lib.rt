// A list built, a table united to it, the last one shrunk: each by its public call, in arrays that the caller holds.
#![tactic(auto)]

ghost use Rattle.std.specs.Prelude.{◌≡◌, ◌*◌, ◌≤◌, length, take};
ghost use Rattle.paper.specs.declared.Mode.TheVariants.{Intake};
ghost use Rattle.paper.specs.Answers.{then, Makes};
ghost use Rattle.paper.specs.Build.{build};
ghost use Rattle.paper.specs.Unite.{unite};
ghost use Rattle.promises.specs.Demand.{shrink_made};
ghost use Rattle.intake_lists.specs.Held.{held, answered, Holds};

use crate::kept::{Kept, Room, Small};
use paper::{Heading, Mode, Refusal, StringList, Table};

pub mod kept;

// A list built, and kept.
pub fn build_list(list: StringList, kept: &mut Kept, work: &mut Room) -> Result<(), Refusal>
    ensures { Holds (build list.entry.production list.entry.tokens.now list.entry.lengths.now 16384)
        (answered result kept.new.small.heading) kept.new.buf }
{
    let heading = build::build(list, work)?;
    kept.keep(Small { heading }, work);
    Ok(())
}

// A table united to the one so far, in whose place the result is kept.
pub fn unite_two(so_far: &mut Kept, second: Table, work: &mut Room) -> Result<(), Refusal>
    ensures unites { Holds (unite Intake so_far.old.small.heading.prod0 so_far.old.small.heading.k
        (take (so_far.old.small.heading.rows * 4) so_far.old.buf)
        second.entry.prod0 second.entry.k second.entry.rows.now 16384)
        (answered result so_far.new.small.heading) so_far.new.buf }
    ensures long { length so_far.old.buf ≡ 4096 }
{
    let united = unite::unite(Mode::Intake, so_far.lent(), second, work);
    let heading = united?;
    so_far.keep(Small { heading }, work);
    Ok(())
}

// The united table shrunk into the output; where the lists were refused, that refusal.
pub fn finish(united: Result<(), Refusal>, last: &Kept, out: &mut [i32]) -> Result<Heading, Refusal>
    requires { 16384 ≤ length out.old }
    ensures { Makes (then (held (answered united last.now.small.heading) last.now.buf) shrink_made)
        result out.old out.new }
{
    united?;
    shrink::shrink(Mode::Intake, last.lent(), out)
}
