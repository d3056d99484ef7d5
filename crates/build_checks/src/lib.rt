// The checks 1 and 2 of build: each true when it refuses.
#![tactic(auto)]

ghost use Rattle.std.specs.Prelude.{◌≡◌, eqb, ltb, length};
ghost use Rattle.paper.specs.Checks.{any};
ghost use Rattle.paper.specs.Build.{sum, build_lengths, build_range};

use paper::StringList;
use rows::numbers;

// The numbers sum to a count; no sum is made that could pass it.
pub fn sums(lengths: &[usize], count: usize) -> bool
    ensures { result ≡ eqb (sum lengths.now) count }
{
    let mut left = count;
    for n in lengths {
        if left < *n {
            return false;
        }
        left -= *n;
    }
    left == 0
}

// A length is over 16.
fn long(lengths: &[usize]) -> bool
    ensures { result ≡ any (λ n. ltb 16 n) lengths.now }
{
    lengths.iter().any(|n| 16 < *n)
}

// 1 LENGTH.
#[tactic(auto, unfolding(paper::specs::Build::build_lengths, paper::specs::Checks::little_room))]
pub fn lengths(list: StringList, room: usize) -> bool
    ensures { result ≡ build_lengths list.entry.tokens.now list.entry.lengths.now room }
{
    room < 16384 || 1024 < list.lengths.len() || !sums(list.lengths, list.tokens.len())
}

// 2 RANGE.
#[tactic(auto, unfolding(paper::specs::Build::build_range))]
pub fn range(list: StringList) -> bool
    ensures { result ≡ build_range list.entry.production list.entry.lengths.now }
{
    65535 < numbers::natural(list.production) || long(list.lengths)
}
