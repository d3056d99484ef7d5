// The checks 2 to 6 and 2 to 7, one after the other.
ghost use Rattle.std.specs.Prelude.{◌≡◌, IfOk};
ghost use Rattle.paper.specs.Rows.{table};
ghost use Rattle.paper.specs.Checks.{ruled, tree};
ghost use Rattle.rows.specs.Places.{bare};
ghost use Rattle.row_checks.specs.Verdicts.{Judges};
ghost use Rattle.ruled.specs.Beyond.{beyond};

use crate::into::Marks;
use crate::{checks, into};
use counts::FewRows;
use paper::Refusal;
use row_checks::Measured;

// The checks 4 to 6.
fn beyond(few: FewRows) -> Result<(), Refusal>
    ensures { Judges (beyond (bare few.entry.rows.numbers.now)) result }
{
    if row_checks::shape(few.rows.numbers) {
        return Err(Refusal::Shape);
    }
    let mut first = [0u16; 1024];
    into::mark(few, &mut first);
    let marks = Marks {
        rows: few.rows.numbers,
        into: &first,
    };
    if checks::loose(marks) {
        return Err(Refusal::Loose);
    }
    if checks::split(marks) {
        return Err(Refusal::Split);
    }
    Ok(())
}

// The checks 2 to 6: a table that passes them is ruled.
pub fn ruled<'a>(lent: Measured<'a>) -> Result<crate::Ruled<'a>, Refusal>
    ensures judges { Judges (ruled (table lent.entry.table.prod0 lent.entry.table.k lent.entry.table.rows.now)) result }
    ensures same { IfOk result (λ t. t.table ≡ lent.entry.table) }
{
    let checked = row_checks::plain(lent.table)?;
    beyond(FewRows {
        rows: checked.rows(),
    })?;
    Ok(crate::Ruled { table: lent.table })
}

// The checks 2 to 7: a table that passes them is a tree.
pub fn tree<'a>(lent: Measured<'a>) -> Result<crate::Tree<'a>, Refusal>
    ensures judges { Judges (tree (table lent.entry.table.prod0 lent.entry.table.k lent.entry.table.rows.now)) result }
    ensures same { IfOk result (λ t. t.table ≡ lent.entry.table) }
{
    let table = ruled(lent)?;
    if counts::no_tree(table.few_rows()) {
        return Err(Refusal::Tree);
    }
    Ok(crate::Tree { table: lent.table })
}
