// Text in: the pass that looks at every row, and the pass that writes them.
ghost use Rattle.std.specs.Prelude.{◌≡◌, ◌+◌, ◌<◌, ◌≤◌, length};
ghost use Rattle.paper.specs.Answers.{stated};
ghost use Rattle.text_laws.specs.Put.{put};
ghost use Rattle.text_in.specs.Tally.{tallied, read_row, tally_from, start, numbers_from, Ready};

use paper::Refusal;
use rows::numbers;
use text_lines::reading;
use text_lines::reading::RowLine;

// What is known of the rows so far: how many, whether all are within bounds, whether their keys rise, and the least
// key that rises. Two flags and no refusal: 2 RANGE, of any row or of the head, comes before 3 ORDER of an earlier row.
#[derive(Clone, Copy, Debug, PartialEq, Eq)]
pub struct Tally {
    pub rows: usize,
    pub fits: bool,
    pub rising: bool,
    pub least: usize,
}

// One row more.
#[tactic(auto, unfolding(crate::specs::Tally::tallied))]
fn tallied(tally: Tally, row: RowLine) -> Tally
    requires { (tally.rows < 9223372036854775808) × (row.from < 100000) × (row.terminal < 100000) }
    ensures { result ≡ tallied tally (read_row row) }
{
    let key = row.from * 65536 + row.terminal;
    let code = numbers::coded(row.production);
    Tally {
        rows: tally.rows + 1,
        fits: tally.fits && row_checks::row_fits(row.from, row.terminal, row.to, code),
        rising: tally.rising && tally.least <= key,
        least: key + 1,
    }
}

// The pass over the lines from a place on: every row in form, or 13 TEXT with the offset of the first bad line. No
// iterator of rows, here or in fill: its law would say again what row_from says of the next place.
pub fn scan(text: &[u8], at: usize) -> Result<Tally, Refusal>
    requires { at ≤ length text.now }
    ensures { stated result ≡ tally_from text.now at start }
{
    let mut tally = Tally {
        rows: 0,
        fits: true,
        rising: true,
        least: 0,
    };
    let mut place = at;
    while let Some(row) = reading::row_from(text, place) {
        tally = tallied(tally, row);
        place = row.next;
    }
    if place < text.len() {
        return Err(Refusal::Text(place));
    }
    Ok(tally)
}

// The pass that writes the rows of the lines from a place on.
pub fn fill(text: &[u8], at: usize, out: &mut [i32])
    requires { (at ≤ length text.now) × Ready text.now at (length out.old) }
    ensures { out.new ≡ put out.old 0 (numbers_from text.now at) }
{
    let mut place = at;
    let mut i = 0;
    while let Some(row) = reading::row_from(text, place) {
        let production = numbers::accepting(row.production);
        numbers::put_row(out, i, row.from, row.terminal, row.to, production);
        i += 4;
        place = row.next;
    }
}
