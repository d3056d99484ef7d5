// Document 01's program `tabrep`: what it prints for a text. Arrays and no Vec: fixed memory.
#![tactic(auto)]

ghost use Rattle.std.specs.Prelude.{◌≡◌, ◌≤◌, length, MatchResult};
ghost use Rattle.paper.specs.Answers.{refuse, number, detail};
ghost use Rattle.paper.specs.Rows.{table};
ghost use Rattle.paper.specs.Shrink.{shrink_table};
ghost use Rattle.paper.specs.Tabrep.{tabrep, report};
ghost use Rattle.report.specs.Rulings.{Rising, Sized, Prints, of_table, told};

use counts::FewRows;
use paper::{Mode, Refusal, Table};
use report_lines::sizes::{AllSizes, Sizes};
use rows::Rows;

// The sizes of what a mode shrinks a table to.
fn shrunk(mode: Mode, lent: Table, spare: &mut [i32; 16384]) -> Result<Sizes, Refusal>
    requires { Rising lent.prod0 lent.k lent.rows.now }
    ensures { MatchResult result (Sized mode (table lent.entry.prod0 lent.entry.k lent.entry.rows.now))
        (λ f. shrink_table mode (table lent.entry.prod0 lent.entry.k lent.entry.rows.now)
        ≡ refuse (number f) (detail f)) }
{
    let made = shrink::shrink(mode, lent, spare)?;
    Ok(Sizes {
        states: made.states,
        rows: made.rows,
    })
}

// The sizes of a table that was read, shrunk in both modes, archive first.
fn sizes_of(lent: Table, spare: &mut [i32; 16384]) -> Result<AllSizes, Refusal>
    requires { Rising lent.prod0 lent.k lent.rows.now }
    ensures { told result ≡ of_table (table lent.entry.prod0 lent.entry.k lent.entry.rows.now) }
{
    let archive = shrunk(Mode::Archive, lent, spare)?;
    let intake = shrunk(Mode::Intake, lent, spare)?;
    let few = FewRows {
        rows: Rows { numbers: lent.rows },
    };
    let table = Sizes {
        states: counts::state_count(few),
        rows: lent.rows.len() / 4,
    };
    Ok(AllSizes {
        table,
        archive,
        intake,
    })
}

// The sizes of a text's table.
fn measure(input: &[u8]) -> Result<AllSizes, Refusal>
    ensures { told result ≡ report input.now }
{
    if 65536 < input.len() {
        return Err(Refusal::Length);
    }
    let mut read = [0i32; 16384];
    let title = text_in::text_in(input, &mut read)?;
    let lent = Table {
        prod0: title.prod0,
        k: title.k,
        rows: &read[..title.rows * 4],
    };
    let mut spare = [0i32; 16384];
    sizes_of(lent, &mut spare)
}

// What is printed for a text, at the front of the output, and how many bytes it is.
pub fn report(input: &[u8], out: &mut [u8; 64]) -> usize
    ensures { Prints (tabrep input.now) out.old out.new result }
{
    match measure(input) {
        Ok(sizes) => report_lines::put_lines(out, sizes),
        Err(refusal) => report_lines::put_refused(out, refusal),
    }
}
