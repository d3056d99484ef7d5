// Check 1 of the lists as they are lent.
ghost use Rattle.std.specs.Prelude.{◌≡◌};
ghost use Rattle.intake_lists.specs.Call.{lists_lengths};

use intake_lists::StringLists;

// 1 LENGTH: true when it refuses.
#[tactic(auto, unfolding(intake_lists::specs::Call::lists_lengths, paper::specs::Checks::little_room))]
pub fn lengths(lists: StringLists, room: usize) -> bool
    ensures { result ≡ lists_lengths lists.entry.productions.now lists.entry.counts.now lists.entry.lengths.now
        lists.entry.tokens.now room }
{
    if room < 16384 {
        return true;
    }
    if lists.productions.is_empty() {
        return true;
    }
    if lists.productions.len() != lists.counts.len() {
        return true;
    }
    if !build_checks::sums(lists.counts, lists.lengths.len()) {
        return true;
    }
    !build_checks::sums(lists.lengths, lists.tokens.len())
}
