// Document 01, module 7: text out.
#![tactic(auto)]

use paper::{Refusal, Table};
use writing::Writer;

pub mod writing;

ghost use Rattle.std.specs.Prelude.{length};
ghost use Rattle.paper.specs.Answers.{Writes};
ghost use Rattle.paper.specs.Text.{text_out};

// Text out: a table's text at the front of the output.
pub fn text_out(table: Table, out: &mut [u8]) -> Result<usize, Refusal>
    ensures { Writes (text_out table.entry.prod0 table.entry.k table.entry.rows.now (length out.old))
        result out.old out.new }
{
    row_checks::sized(table)?;
    if out.len() < 262144 {
        return Err(Refusal::Length);
    }
    row_checks::plain(table)?;
    let mut writer = Writer { out, at: 0 };
    writer.put_head(table.prod0, table.k);
    writer.put_rows(table.rows);
    Ok(writer.at)
}
