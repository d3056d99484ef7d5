// Document 01, module 3: unite.
#![tactic(auto)]

ghost use Rattle.std.specs.Prelude.{◌≡◌, ◌≤◌, length};
ghost use Rattle.paper.specs.Rows.{accepting, rows_in, table};
ghost use Rattle.paper.specs.Answers.{Makes};
ghost use Rattle.paper.specs.Unite.{united, unite};
ghost use Rattle.rows.specs.Places.{given};
ghost use Rattle.unite_taking.specs.Taking.{Overflows, Refuses, joining};

use grow::{Growing, WholeRows};
use paper::{Heading, Mode, Production, Refusal, Table};
use rows::numbers;
use ruled::Tree;
use unite_taking::TreeRows;

// The production of state 0 of a table that passed the checks 1 to 7.
#[tactic(auto, using(rows::proofs::Signed::kept, unite_taking::proofs::Passing::prod0_in))]
fn root_production(lent: Tree) -> Option<Production>
    ensures { given result ≡ accepting lent.entry.table.prod0 }
{
    numbers::accepting(lent.table.prod0)
}

// The rows do not fit: CLASH, wherever it stands, comes before 14.
#[tactic(auto, using(crate::proofs::Outcomes::full_refuses))]
fn full(mode: Mode, first: TreeRows, second: TreeRows) -> Result<Heading, Refusal>
    requires { Overflows mode (rows_in first.rows.numbers.now) (rows_in second.rows.numbers.now) }
    ensures { Refuses mode (rows_in first.entry.rows.numbers.now) (rows_in second.entry.rows.numbers.now) result }
{
    unite_scan::clash(mode, first, second)?;
    Err(Refusal::Full)
}

// The second's rows taken into the first's, and the rows that come of it at the front of the output. The room is asked
// for once, in `unite`: a struct would hold the lent slice, and each clause speak of its field.
fn joined(
    mode: Mode,
    prod0: Option<Production>,
    k: usize,
    first: TreeRows,
    second: TreeRows,
    out: &mut [i32],
) -> Result<Heading, Refusal>
    requires { 16384 ≤ length out.old }
    ensures { Makes (joining mode (given prod0) k (rows_in first.entry.rows.numbers.now)
        (rows_in second.entry.rows.numbers.now)) result out.old out.new }
{
    let mut growing = Growing::empty();
    growing.copy(WholeRows { rows: first.rows });
    match unite_taking::take_rows(mode, &mut growing, second) {
        Ok(()) => Ok(growing.finish(prod0, k, out)),
        Err(Refusal::Full) => full(mode, first, second),
        Err(clash) => Err(clash),
    }
}

// Two trees: state 0 first, then the rows, then 14.
#[tactic(auto, unfolding(paper::specs::Unite::united))]
fn united(mode: Mode, first: Tree, second: Tree, out: &mut [i32]) -> Result<Heading, Refusal>
    requires { 16384 ≤ length out.old }
    ensures { Makes (united mode
        (table first.entry.table.prod0 first.entry.table.k first.entry.table.rows.now)
        (table second.entry.table.prod0 second.entry.table.k second.entry.table.rows.now))
        result out.old out.new }
{
    let prod0 = unite_meet::root(mode, root_production(first), root_production(second))?;
    let k = unite_meet::united_k(mode, first.table.k, second.table.k);
    joined(mode, prod0, k, first.into(), second.into(), out)
}

// Unite: 1 for everything, 2 to 7 for the first table, 2 to 7 for the second, then 8, 14.
pub fn unite(mode: Mode, first: Table, second: Table, out: &mut [i32]) -> Result<Heading, Refusal>
    ensures { Makes (unite mode first.entry.prod0 first.entry.k first.entry.rows.now
        second.entry.prod0 second.entry.k second.entry.rows.now (length out.old))
        result out.old out.new }
{
    let first_measured = row_checks::sized(first)?;
    let second_measured = row_checks::sized(second)?;
    if out.len() < 16384 {
        return Err(Refusal::Length);
    }
    let first_tree = ruled::verdict::tree(first_measured)?;
    let second_tree = ruled::verdict::tree(second_measured)?;
    united(mode, first_tree, second_tree, out)
}
