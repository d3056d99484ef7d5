// The cases of predict.
use cases::tally::Outcome;
use paper::{Prediction, Refusal};
use parts::case::Case;

// The call, and its answer compared. Arrays and no Vec: fixed memory.
pub fn asked(mut case: Case) -> Outcome {
    let mut rows = [0; 20000];
    let mut tokens = [0; 20000];
    let mode = case.mode();
    let table = case.table(&mut rows);
    let mut stream = case.part();
    let k = stream.number();
    let tokens = stream.tokens(&mut tokens);
    let answer = predict::predict(mode, table, k, tokens);
    compared(stream.rest(), answer)
}

// Whether a prediction is what is said: 0, the production and the rows entered, or the refusal's number and two 0.
pub fn compared(expected: &[usize], answer: Result<Prediction, Refusal>) -> Outcome {
    let said = match answer {
        Ok(prediction) => [0, usize::from(prediction.production.0), prediction.entered],
        Err(refusal) => [refusal.number(), 0, 0],
    };
    Outcome {
        refusal: answer.err(),
        right: expected == said.as_slice(),
    }
}
