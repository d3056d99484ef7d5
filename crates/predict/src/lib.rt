// Document 01, module 5: predict.
#![tactic(auto)]

ghost use Rattle.std.specs.Prelude.{◌≡◌, ◌≤◌, length};
ghost use Rattle.paper.specs.Rows.{table};
ghost use Rattle.paper.specs.Answers.{predicted};
ghost use Rattle.paper.specs.Predict.{fallback, answer, chosen, predict};
ghost use Rattle.rows.specs.Places.{given};
ghost use Rattle.predict.specs.Checked.{checked};

use paper::{Mode, Prediction, Production, Refusal, Table};
use row_checks::Checked;
use walk::Walk;

// What a walk answers where no row that it entered accepts.
#[tactic(auto, unfolding(paper::specs::Predict::fallback))]
fn fallback(mode: Mode, root: Option<Production>, entered: usize) -> Result<Prediction, Refusal>
    ensures { predicted result ≡ fallback mode (given root) entered }
{
    let Some(production) = root else {
        return Err(Refusal::None);
    };
    let answer = Prediction {
        production,
        entered,
    };
    match mode {
        Mode::Intake => Ok(answer),
        Mode::Archive => {
            if entered == 0 {
                Ok(answer)
            } else {
                Err(Refusal::Root)
            }
        }
    }
}

// What a walk answers.
#[tactic(auto, unfolding(paper::specs::Predict::answer))]
fn answer(mode: Mode, root: Option<Production>, w: Walk) -> Result<Prediction, Refusal>
    ensures { predicted result ≡ answer mode (given root) w.entered (given w.last) }
{
    match w.last {
        Some(production) => Ok(Prediction {
            production,
            entered: w.entered,
        }),
        None => fallback(mode, root, w.entered),
    }
}

// The walk over the first k tokens, and its answer.
#[tactic(auto, unfolding(paper::specs::Predict::chosen))]
fn chosen(mode: Mode, lent: Checked, tokens: &[u16]) -> Result<Prediction, Refusal>
    requires { lent.table.k ≤ length tokens.now }
    ensures { predicted result
        ≡ chosen mode (table lent.entry.table.prod0 lent.entry.table.k lent.entry.table.rows.now) tokens.now }
{
    let w = walk::walked(lent.rows(), &tokens[..lent.table.k]);
    answer(mode, lent.root(), w)
}

// Predict for a table that passed 2 and 3, for predict and batch: 9, 10, then the walk.
#[tactic(auto, unfolding(crate::specs::Checked::checked))]
pub fn predict_checked(
    mode: Mode,
    lent: Checked,
    stream: usize,
    tokens: &[u16],
) -> Result<Prediction, Refusal>
    ensures { predicted result
        ≡ checked mode (table lent.entry.table.prod0 lent.entry.table.k lent.entry.table.rows.now) stream tokens.now }
{
    let k = lent.table.k;
    if stream < k {
        return Err(Refusal::Mismatch);
    }
    if tokens.len() < k {
        return Err(Refusal::Short);
    }
    chosen(mode, lent, tokens)
}

// Predict: the checks 1, 2, 3, 9, 10, then the walk.
pub fn predict(
    mode: Mode,
    lent: Table,
    stream: usize,
    tokens: &[u16],
) -> Result<Prediction, Refusal>
    ensures { predicted result
        ≡ predict mode lent.entry.prod0 lent.entry.k lent.entry.rows.now stream tokens.now }
{
    let checked = row_checks::whole(lent)?;
    predict_checked(mode, checked, stream, tokens)
}
