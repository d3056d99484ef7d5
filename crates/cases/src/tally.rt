// The cases of standard input one after the other, and the counts that a run prints.
use paper::Refusal;
use std::io;
use std::io::{ErrorKind, Read};

// What a call answered: the refusal, if there was one, and whether that and all else is as the list says. Both are
// counted, and neither follows from the other.
#[derive(Clone, Copy)]
pub struct Outcome {
    pub refusal: Option<Refusal>,
    pub right: bool,
}

// Reads the next case to the front of bytes: none at the end of the list, or where a case is cut short or too long.
pub fn next<'a>(input: &mut impl Read, bytes: &'a mut [u8]) -> io::Result<Option<&'a [u8]>> {
    let Some(count) = count(input)? else {
        return Ok(None);
    };
    let Some(case) = bytes.get_mut(..count) else {
        return Ok(None);
    };
    if is_filled(input, case)? {
        Ok(Some(case))
    } else {
        Ok(None)
    }
}

// The count of bytes of a case, three bytes with the low one first; none at the end of the list: a count of 0, or the
// end of the input.
fn count(input: &mut impl Read) -> io::Result<Option<usize>> {
    let mut three = [0u8; 3];
    if !is_filled(input, &mut three)? {
        return Ok(None);
    }
    let [low, middle, high] = three;
    let count = u32::from_le_bytes([low, middle, high, 0]) as usize;
    Ok((count != 0).then_some(count))
}

// Whether the input had enough bytes to fill a slice.
fn is_filled(input: &mut impl Read, bytes: &mut [u8]) -> io::Result<bool> {
    match input.read_exact(bytes) {
        Ok(()) => Ok(true),
        Err(e) if e.kind() == ErrorKind::UnexpectedEof => Ok(false),
        Err(e) => Err(e),
    }
}

// The counts of one call.
#[derive(Clone, Copy, Default)]
pub struct Tally {
    cases: usize,
    wrong: usize,
    // at a refusal's number how often it was answered, at 0 the acceptances
    answers: [usize; 15],
}

impl Tally {
    // Counts a case.
    pub fn add(&mut self, outcome: Outcome) {
        self.cases = self.cases.saturating_add(1);
        if !outcome.right {
            self.wrong = self.wrong.saturating_add(1);
        }
        let number = outcome.refusal.map_or(0, |refusal| refusal.number());
        if let Some(count) = self.answers.get_mut(number) {
            *count = count.saturating_add(1);
        }
    }

    // Whether a case that is wrong is named: the first five are.
    pub fn is_naming(&self) -> bool {
        self.wrong < 5
    }

    // The lines at the end of a run.
    pub fn report(&self, rt: &impl Print) -> io::Result<()> {
        println!(rt; "cases {}", self.cases)?;
        println!(rt; "wrong {}", self.wrong)?;
        for (number, count) in self.answers.iter().enumerate().skip(1) {
            if *count != 0 {
                println!(rt; "refused {number} {count}")?;
            }
        }
        println!(rt; "accepted {}", self.answers[0])
    }
}
