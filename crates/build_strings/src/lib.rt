// All strings of a list, one after the other, and the table that they make.
#![tactic(auto)]

ghost use Rattle.std.specs.Prelude.{◌≡◌, cond, eqb, length};
ghost use Rattle.std.proofs.Math.Option.{none, some};
ghost use Rattle.paper.specs.Build.{built, strings, sum};
ghost use Rattle.rows.specs.Places.{given};
ghost use Rattle.build_strings.specs.Listing.{Grows};

use grow::Growing;
use paper::{Production, Refusal, State, StringList};

// What a table has beside its rows: prod0, and k.
#[derive(Clone, Copy, Debug, PartialEq, Eq)]
pub struct Head {
    pub prod0: Option<Production>,
    pub k: usize,
}

// prod0 before any string: an empty list makes state 0 accept.
fn first_prod0(lengths: &[usize], production: Production) -> Option<Production>
    ensures { given result ≡ cond (eqb (length lengths.now) 0) (some production.0) none }
{
    if lengths.is_empty() {
        return Some(production);
    }
    None
}

// prod0 after a string that ends in a state.
fn next_prod0(prod0: Option<Production>, state: State, production: Production) -> Option<Production>
    ensures { given result ≡ cond (eqb state.0 0) (some production.0) (given prod0) }
{
    if state.0 == 0 {
        return Some(production);
    }
    prod0
}

// All strings into no rows yet: each is read from the rest of the token slice.
pub fn add_all(
    rows: &mut Growing,
    production: Production,
    list: StringList,
) -> Result<Head, Refusal>
    requires { (rows.old.n ≡ 0) × (sum list.lengths.now ≡ length list.tokens.now) }
    ensures { Grows rows.new
        (built production.0 (strings list.entry.lengths.now list.entry.tokens.now)) result }
{
    let mut rest = list.tokens;
    let mut head = Head {
        prod0: first_prod0(list.lengths, production),
        k: 0,
    };
    for len in list.lengths {
        let (string, after) = rest.split_at(*len);
        let state = build_string::add_string(rows, string, production)?;
        head = Head {
            prod0: next_prod0(head.prod0, state, production),
            k: head.k.max(*len),
        };
        rest = after;
    }
    Ok(head)
}
