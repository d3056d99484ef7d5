// The lines that `tabrep` prints.
#![tactic(auto)]

ghost use Rattle.std.specs.Prelude.{◌+◌, ◌≤◌, length};
ghost use Rattle.paper.specs.Answers.{number, detail, refuse};
ghost use Rattle.paper.specs.Tabrep.{printed};
ghost use Rattle.text_laws.specs.Put.{Puts};
ghost use Rattle.text_out.specs.Added.{Adds};
ghost use Rattle.report_lines.specs.Printed.{labelled, three};

pub mod sizes;

use crate::sizes::{AllSizes, Sizes};
use paper::Refusal;
use text_out::writing::Writer;

// A line of a label, which ends in a space, and two numbers.
fn put_line(writer: &mut Writer, label: &[u8], sizes: Sizes)
    requires { writer.old.at + (length label.now + 12) ≤ length writer.old.out.now }
    ensures { Adds writer.old writer.new (length label.now + 12) (labelled label.now sizes.states sizes.rows) }
{
    writer.put_field(label, sizes.states);
    writer.put_field(b" ", sizes.rows);
    writer.put_word(b"\n");
}

// The three lines.
pub fn put_lines(out: &mut [u8], sizes: AllSizes) -> usize
    requires { 54 ≤ length out.old }
    ensures { Puts out.old 0 54 (three sizes.table sizes.archive sizes.intake) out.new result }
{
    let mut writer = Writer { out, at: 0 };
    put_line(&mut writer, b"in ", sizes.table);
    put_line(&mut writer, b"archive ", sizes.archive);
    put_line(&mut writer, b"intake ", sizes.intake);
    writer.at
}

// The line of a refusal.
pub fn put_refused(out: &mut [u8], refusal: Refusal) -> usize
    requires { 14 ≤ length out.old }
    ensures { Puts out.old 0 14 (printed (refuse (number refusal) (detail refusal)))
        out.new result }
{
    let mut line = Writer { out, at: 0 };
    line.put_field(b"refused ", refusal.number());
    line.put_word(b"\n");
    line.at
}
