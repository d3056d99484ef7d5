// The productions that one state has in the two tables.
#![tactic(auto)]

ghost use Rattle.std.specs.Prelude.{◌≡◌};
ghost use Rattle.paper.specs.Unite.{agree, taken, root, united_k};
ghost use Rattle.rows.specs.Places.{given};
ghost use Rattle.unite_meet.specs.Met.{Meets};

use paper::{Mode, Production, Refusal};

// Two productions clash where both are there, and different ones; else the second, unless it is none.
#[tactic(auto, unfolding(paper::specs::Unite::agree))]
fn agree(p: Option<Production>, q: Option<Production>) -> Result<Option<Production>, Refusal>
    ensures { Meets (agree (given p) (given q)) result }
{
    match (p, q) {
        (None, _) => Ok(q),
        (_, None) => Ok(p),
        (Some(a), Some(b)) => {
            if a == b {
                Ok(q)
            } else {
                Err(Refusal::Clash(a, b))
            }
        }
    }
}

// A matched state other than 0.
#[tactic(auto, unfolding(paper::specs::Unite::taken))]
pub fn taken(
    mode: Mode,
    p: Option<Production>,
    q: Option<Production>,
) -> Result<Option<Production>, Refusal>
    ensures { Meets (taken mode (given p) (given q)) result }
{
    let agreed = agree(p, q)?;
    match mode {
        Mode::Intake => Ok(agreed),
        Mode::Archive => Ok(q),
    }
}

// State 0.
#[tactic(auto, unfolding(paper::specs::Unite::root))]
pub fn root(
    mode: Mode,
    p: Option<Production>,
    q: Option<Production>,
) -> Result<Option<Production>, Refusal>
    ensures { Meets (root mode (given p) (given q)) result }
{
    match mode {
        Mode::Intake => agree(p, q),
        Mode::Archive => Ok(p),
    }
}

// The united table's k.
#[tactic(auto, unfolding(paper::specs::Unite::united_k))]
pub fn united_k(mode: Mode, a: usize, b: usize) -> usize
    ensures { result ≡ united_k mode a b }
{
    match mode {
        Mode::Intake => a.max(b),
        Mode::Archive => a,
    }
}
