// Document 01, module 7: text in.
#![tactic(auto)]

use paper::{Refusal, Title};
use rows::numbers;
use text_lines::reading;

mod passes;

ghost use Rattle.std.specs.Prelude.{length};
ghost use Rattle.paper.specs.Answers.{Reads};
ghost use Rattle.paper.specs.Text.{text_in};

// Text in: the rows of a text at the front of the output.
pub fn text_in(text: &[u8], out: &mut [i32]) -> Result<Title, Refusal>
    ensures { Reads (text_in text.now (length out.old))
        result out.old out.new }
{
    if out.len() < 16384 {
        return Err(Refusal::Length);
    }
    let head = reading::head_from(text, 0).ok_or(Refusal::Text(0))?;
    let tally = passes::scan(text, head.next)?;
    if 4096 < tally.rows {
        return Err(Refusal::Length);
    }
    if !row_checks::head_fits(numbers::coded(head.prod0), head.k) || !tally.fits {
        return Err(Refusal::Range);
    }
    if !tally.rising {
        return Err(Refusal::Order);
    }
    passes::fill(text, head.next, out);
    Ok(Title {
        prod0: head.prod0,
        k: head.k,
        rows: tally.rows,
    })
}
