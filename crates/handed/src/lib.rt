// An answer handed over: the refusal's number, 0 for none, and four values; those that are not used are 0.
#![tactic(auto)]

ghost use Rattle.std.specs.Prelude.{◌≡◌, List, ℕ, [], ◌∷◌};
ghost use Rattle.paper.specs.Answers.{stated, detail};
ghost use Rattle.handed.specs.Handed.{mode_of, four, of_heading, of_title, of_prediction, of_count, Hands};

use paper::{Heading, Mode, Prediction, Refusal, Title};
use rows::numbers;

// Mode 0 is archive; any other number is intake. (The number is C's; Mode stands in paper, which
// knows nothing of C.)
pub fn mode_of(mode: u32) -> Mode
    ensures { result ≡ mode_of mode }
{
    if mode == 0 {
        Mode::Archive
    } else {
        Mode::Intake
    }
}

// What is handed over as four values.
pub trait Values {
    ghost listed: { Self → List ℕ };

    fn values(self) -> [u64; 4]
        ensures { result ≡ four (listed self) };
}

// A made table: prod0 plus one, k, the row count, the state count.
impl Values for Heading {
    ghost listed = { of_heading };

    fn values(self) -> [u64; 4] {
        let code = numbers::coded(self.prod0) as u64;
        [code, self.k as u64, self.rows as u64, self.states as u64]
    }
}

// A table that was read: prod0 plus one, k, the row count.
impl Values for Title {
    ghost listed = { of_title };

    fn values(self) -> [u64; 4] {
        let code = numbers::coded(self.prod0) as u64;
        [code, self.k as u64, self.rows as u64, 0]
    }
}

// A prediction: the production, the count of rows entered.
impl Values for Prediction {
    ghost listed = { of_prediction };

    fn values(self) -> [u64; 4] {
        [self.production.0 as u64, self.entered as u64, 0, 0]
    }
}

// A count: of matched tokens, of bytes or of answers that were written.
impl Values for usize {
    ghost listed = { of_count };

    fn values(self) -> [u64; 4] {
        [self as u64, 0, 0, 0]
    }
}

// A refusal's detail: 8 has two numbers, 13 has one; 0 where there is none.
impl Values for Refusal {
    ghost listed = { detail };

    fn values(self) -> [u64; 4] {
        match self {
            Refusal::Clash(p, q) => [p.0 as u64, q.0 as u64, 0, 0],
            Refusal::Text(at) => [at as u64, 0, 0, 0],
            _ => [0, 0, 0, 0],
        }
    }
}

// An answer: the number that is returned, and its values.
pub fn hand<A: Values>(said: Result<A, Refusal>, answer: &mut [u64; 4]) -> usize
    ensures { Hands (stated said) A.listed result answer.new }
{
    match said {
        Ok(value) => {
            *answer = value.values();
            0
        }
        Err(refusal) => {
            *answer = refusal.values();
            refusal.number()
        }
    }
}
