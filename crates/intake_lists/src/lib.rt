// Demand 3 as one call: its definition and theorems, and the lists as they are lent.
#![tactic(auto)]

ghost use Rattle.std.specs.Prelude.{◌≡◌, ◌≤◌, length, sum};
ghost use Rattle.intake_lists.specs.Held.{Summed};

use paper::StringList;

// List i has the production productions[i] and counts[i] strings; their lengths follow one another in lengths, their
// tokens in tokens: slices beside one another, as C lends them.
#[derive(Clone, Copy)]
pub struct StringLists<'a> {
    pub productions: &'a [i32],
    pub counts: &'a [usize],
    pub lengths: &'a [usize],
    pub tokens: &'a [u16],
}

// Lists whose counts and lengths sum up, as check 1 leaves them.
#[derive(Clone, Copy)]
pub struct Lists<'a> {
    pub lent: StringLists<'a>,
    ghost summed: { Summed lent.productions.now lent.counts.now lent.lengths.now lent.tokens.now },
}

impl<'a> Lists<'a> {
    ghost use Rattle.intake_lists.specs.Split.{Splits};

    // The first list, and the others.
    pub fn split_first(self) -> Option<(StringList<'a>, Lists<'a>)>
        ensures { Splits self.entry.lent result }
    {
        let (production, productions) = self.lent.productions.split_first()?;
        let (count, counts) = self.lent.counts.split_first()?;
        let (lengths, other_lengths) = self.lent.lengths.split_at(*count);
        let (tokens, other_tokens) = self.lent.tokens.split_at(total(lengths, self.lent.tokens));
        let list = StringList {
            production: *production,
            tokens,
            lengths,
        };
        let lent = StringLists {
            productions,
            counts,
            lengths: other_lengths,
            tokens: other_tokens,
        };
        Some((list, Lists { lent }))
    }
}

// What the lengths of a list sum to, which has that many tokens.
fn total(lengths: &[usize], tokens: &[u16]) -> usize
    requires { sum lengths.now ≤ length tokens.now }
    ensures { result ≡ sum lengths.now }
{
    lengths.iter().sum()
}
