// Document 01, module 4: shrink.
#![tactic(auto)]

ghost use Rattle.std.specs.Prelude.{◌≤◌, length, Ok};
ghost use Rattle.paper.specs.Rows.{table};
ghost use Rattle.paper.specs.Answers.{accept, Makes};
ghost use Rattle.paper.specs.Shrink.{shrink, shrunk};
ghost use Rattle.rows.specs.Places.{given};
ghost use Rattle.shrink_alike.specs.Tables.{table_of};
ghost use Rattle.shrink_classes.specs.Classes.{Classes};
ghost use Rattle.shrink_rows.specs.Output.{Shrunk};

use paper::{Heading, Mode, Refusal, Table};
use ruled::Ruled;
use shrink_alike::faces::{Faces, NO_STATE};
use shrink_alike::index;
use shrink_classes::classes;
use shrink_rows::emit::Numbered;

// How many rows and states a shrunk table has.
#[derive(Clone, Copy)]
struct Sizes {
    rows: usize,
    states: usize,
}

// Writes the shrunk table of the classes, with their new numbers. The room is asked for here and below, as `shrink`
// looked for it: a type for it would hold the lent slice, and every clause would speak of its field.
fn write(faces: &Faces, class: &[u16; 1024], out: &mut [i32]) -> Sizes
    requires { Classes faces.now.mode (table_of faces.now) class.now × (16384 ≤ length out.old) }
    ensures { Shrunk faces.now.mode (given faces.now.prod0) faces.now.rows.numbers.now out.old out.new result.rows
        result.states }
{
    let mut number = [NO_STATE; 1024];
    let states = shrink_places::places(faces, class, &mut number);
    let numbered = Numbered {
        faces,
        class,
        number: &number,
    };
    Sizes {
        rows: numbered.emit(out),
        states,
    }
}

// Writes the shrunk table. The new numbers are held after the classes are known, so that at most four arrays are at
// once.
fn write_shrunk(faces: &Faces, out: &mut [i32]) -> Sizes
    requires { 16384 ≤ length out.old }
    ensures { Shrunk faces.now.mode (given faces.now.prod0) faces.now.rows.numbers.now out.old out.new result.rows
        result.states }
{
    let mut class = [0u16; 1024];
    classes::classes(faces, &mut class);
    write(faces, &class, out)
}

// Shrinks a table that passed 1 to 6.
fn shrink_ruled(mode: Mode, lent: Ruled, out: &mut [i32]) -> Heading
    requires { 16384 ≤ length out.old }
    ensures { Makes (accept (shrunk mode (table lent.entry.table.prod0 lent.entry.table.k lent.entry.table.rows.now)))
        (Ok result) out.old out.new }
{
    let few = lent.few_rows();
    let mut into = [0u16; 1024];
    ruled::into::mark(few, &mut into);
    let mut first = [few.rows.count() as u16; 1024];
    index::firsts(few, &mut first);
    let sizes = write_shrunk(&Faces::new(mode, lent, &into, &first), out);
    Heading {
        prod0: lent.table.prod0,
        k: lent.table.k,
        rows: sizes.rows,
        states: sizes.states,
    }
}

// Shrink: the checks 1 to 6, then the classes.
pub fn shrink(mode: Mode, lent: Table, out: &mut [i32]) -> Result<Heading, Refusal>
    ensures { Makes (shrink mode lent.entry.prod0 lent.entry.k lent.entry.rows.now (length out.old)) result
        out.old out.new }
{
    let measured = row_checks::sized(lent)?;
    if out.len() < 16384 {
        return Err(Refusal::Length);
    }
    let table = ruled::verdict::ruled(measured)?;
    Ok(shrink_ruled(mode, table, out))
}
