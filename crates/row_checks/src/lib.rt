// Document 01, module 1: the checks 1 to 4, and tables that passed the first of them.
#![tactic(auto)]

ghost use Rattle.std.specs.Prelude.{◌≡◌, ◌&&◌, ◌+◌, ◌*◌, ◌<◌, length, leb, IfOk};
ghost use Rattle.paper.specs.Rows.{accepting, table};
ghost use Rattle.paper.specs.Checks.{row_slice, row_fits, shape, plain};
ghost use Rattle.rows.specs.Places.{uncoded, row_at, bare, given};
ghost use Rattle.row_checks.specs.Verdicts.{of_rows, sized, whole, Judges, Sound, Whole};

use paper::{Production, Refusal, Table};
use rows::{Rows, numbers};

// A table whose row slice passed the check 1.
#[derive(Clone, Copy)]
pub struct Measured<'a> {
    pub table: Table<'a>,
    ghost whole: { Whole table.rows.now },
}

// A table that passed the checks 2 and 3.
#[derive(Clone, Copy)]
pub struct Checked<'a> {
    pub table: Table<'a>,
    ghost sound: { Sound table.prod0 table.k table.rows.now },
}

impl<'a> Checked<'a> {
    // Its rows.
    pub fn rows(self) -> Rows<'a>
        ensures { result.numbers.now ≡ self.entry.table.rows.now }
    {
        Rows {
            numbers: self.table.rows,
        }
    }

    // The production of state 0.
    pub fn root(self) -> Option<Production>
        ensures { given result ≡ accepting self.entry.table.prod0 }
    {
        numbers::accepting(self.table.prod0)
    }
}

// 1 LENGTH, of a row slice: true when it refuses. A check is a test here, as in the paper, which lists tests with their
// numbers; who calls it says the refusal.
pub fn row_slice(rows: &[i32]) -> bool
    ensures { result ≡ row_slice rows.now }
{
    let n = rows.len();
    if n % 4 != 0 {
        return true;
    }
    16384 < n
}

// 2 RANGE: prod0, by its code, and k are within their bounds.
pub fn head_fits(code: usize, k: usize) -> bool
    ensures { result ≡ (leb code 65536 && leb k 16) }
{
    if 65536 < code {
        return false;
    }
    k <= 16
}

// 2 RANGE: a row's numbers, its production by its code, are within their bounds.
pub fn row_fits(from: usize, terminal: usize, to: usize, code: usize) -> bool
    ensures { result ≡ row_fits (record { from = from; terminal = terminal; to = to; production = uncoded code }) }
{
    if 1023 < from {
        return false;
    }
    if 65535 < terminal {
        return false;
    }
    if 1023 < to {
        return false;
    }
    code <= 65536
}

// The same of row i: each number is tested as it is read; reading all four first was measured as slower.
fn fits_at(rows: &[i32], i: usize) -> bool
    requires { i * 4 + 3 < length rows.now }
    ensures { result ≡ row_fits (row_at rows.now i) }
{
    if 1023 < numbers::from_at(rows, i) {
        return false;
    }
    if 65535 < numbers::terminal_at(rows, i) {
        return false;
    }
    if 1023 < numbers::to_at(rows, i) {
        return false;
    }
    numbers::production_fits(numbers::production_at(rows, i))
}

// 2 and 3 of the rows, in one pass: 2 comes first wherever it stands.
fn in_one_pass(rows: &[i32]) -> Result<(), Refusal>
    ensures { Judges (of_rows rows.now) result }
{
    let mut falls = false;
    let mut above = 0;
    for i in 0..rows.len() / 4 {
        if !fits_at(rows, i) {
            return Err(Refusal::Range);
        }
        let key = numbers::from_at(rows, i) * 65536 + numbers::terminal_at(rows, i);
        if key < above {
            falls = true;
        }
        above = key + 1;
    }
    if falls {
        return Err(Refusal::Order);
    }
    Ok(())
}

// 4 SHAPE: true when it refuses.
pub fn shape(rows: &[i32]) -> bool
    ensures { result ≡ shape (bare rows.now) }
{
    for i in 0..rows.len() / 4 {
        if numbers::to_at(rows, i) <= numbers::from_at(rows, i) {
            return true;
        }
    }
    false
}

// The checks 2 and 3.
pub fn plain<'a>(lent: Table<'a>) -> Result<Checked<'a>, Refusal>
    ensures judges { Judges (plain (table lent.entry.prod0 lent.entry.k lent.entry.rows.now)) result }
    ensures same { IfOk result (λ t. t.table ≡ lent.entry) }
{
    if !head_fits(numbers::coded(lent.prod0), lent.k) {
        return Err(Refusal::Range);
    }
    in_one_pass(lent.rows)?;
    Ok(Checked { table: lent })
}

// The check 1 of a table's rows.
pub fn sized<'a>(lent: Table<'a>) -> Result<Measured<'a>, Refusal>
    ensures judges { Judges (sized lent.entry.rows.now) result }
    ensures same { IfOk result (λ t. t.table ≡ lent.entry) }
{
    if row_slice(lent.rows) {
        return Err(Refusal::Length);
    }
    Ok(Measured { table: lent })
}

// The checks 1 to 3, the first of every call that only reads a table.
pub fn whole<'a>(lent: Table<'a>) -> Result<Checked<'a>, Refusal>
    ensures judges { Judges (whole lent.entry.prod0 lent.entry.k lent.entry.rows.now) result }
    ensures same { IfOk result (λ t. t.table ≡ lent.entry) }
{
    if row_slice(lent.rows) {
        return Err(Refusal::Length);
    }
    plain(lent)
}
