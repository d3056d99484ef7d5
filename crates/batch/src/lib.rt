// Request 2: prediction for a batch of windows of exactly k tokens, one after the other.
#![tactic(auto)]

ghost use Rattle.std.specs.Prelude.{◌≡◌, ◌*◌, ◌+◌, ◌≤◌, ◌++◌, eqb, not, length, take, drop};
ghost use Rattle.paper.specs.Rows.{table};
ghost use Rattle.paper.specs.Answers.{number, predicted, Writes};
ghost use Rattle.paper.specs.Batch.{minus, answered, each_window, window_lengths, batch};
ghost use Rattle.predict.specs.Checked.{checked};

use paper::{Mode, Prediction, Refusal, Table};
use row_checks::Checked;

// A refusal's number, below 0: the answers are a slice of numbers, since C lends it.
fn below(f: Refusal) -> i32
    ensures { result ≡ minus (number f) }
{
    -(f.number() as i32)
}

// The answer for one window: the production, or minus the refusal number.
#[tactic(auto, unfolding(paper::specs::Batch::answered))]
fn answered(said: Result<Prediction, Refusal>) -> i32
    ensures { result ≡ answered (predicted said) }
{
    match said {
        Ok(prediction) => prediction.production.0 as i32,
        Err(f) => below(f),
    }
}

// Whether so many tokens are not that many windows of k.
fn wrong_count(tokens: usize, count: usize, k: usize) -> bool
    ensures { result ≡ not (eqb tokens (count * k)) }
{
    if count == 0 {
        return tokens != 0;
    }
    if tokens / count != k {
        return true;
    }
    tokens % count != 0
}

// 1, but for the row slice: true when it refuses.
#[tactic(auto, unfolding(paper::specs::Batch::window_lengths))]
fn lengths(k: usize, count: usize, tokens: usize, room: usize) -> bool
    ensures { result ≡ window_lengths k count tokens room }
{
    if wrong_count(tokens, count, k) {
        return true;
    }
    if 4096 < count {
        return true;
    }
    room < count
}

// The answer for the window at a place.
fn window(mode: Mode, lent: Checked, stream: usize, tokens: &[u16], at: usize) -> i32
    requires { at + lent.table.k ≤ length tokens.now }
    ensures { result ≡ answered (checked mode
        (table lent.entry.table.prod0 lent.entry.table.k lent.entry.table.rows.now) stream
        (take lent.entry.table.k (drop at tokens.now))) }
{
    let part = &tokens[at..at + lent.table.k];
    answered(predict::predict_checked(mode, lent, stream, part))
}

// The answers for all windows. No chunks_exact: it asks for a k above 0, and a window may have no token.
fn fill(mode: Mode, lent: Checked, stream: usize, count: usize, tokens: &[u16], answers: &mut [i32])
    requires { (length tokens.now ≡ count * lent.table.k) × (count ≤ 4096) × (count ≤ length answers.old) }
    ensures { answers.new
        ≡ each_window (checked mode (table lent.entry.table.prod0 lent.entry.table.k lent.entry.table.rows.now) stream)
        lent.entry.table.k count tokens.now
        ++ drop count answers.old }
{
    let mut at = 0;
    for i in 0..count {
        answers[i] = window(mode, lent, stream, tokens, at);
        at += lent.table.k;
    }
}

// Batch: the checks 1, 2, 3, 9, then the answer of predict for each window.
pub fn batch(
    mode: Mode,
    lent: Table,
    stream: usize,
    count: usize,
    tokens: &[u16],
    answers: &mut [i32],
) -> Result<usize, Refusal>
    ensures { Writes (batch mode lent.entry.prod0 lent.entry.k lent.entry.rows.now stream count tokens.now
        (length answers.old)) result answers.old answers.new }
{
    if row_checks::row_slice(lent.rows) {
        return Err(Refusal::Length);
    }
    if lengths(lent.k, count, tokens.len(), answers.len()) {
        return Err(Refusal::Length);
    }
    let checked = row_checks::plain(lent)?;
    if stream < lent.k {
        return Err(Refusal::Mismatch);
    }
    fill(mode, checked, stream, count, tokens, answers);
    Ok(count)
}
