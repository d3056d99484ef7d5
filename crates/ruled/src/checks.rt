// The checks 5 and 6, by the first row into each state: each true when it refuses.
ghost use Rattle.std.specs.Prelude.{◌≡◌, ◌<◌, ◌/◌, length};
ghost use Rattle.paper.specs.Rows.{rows_in};
ghost use Rattle.paper.specs.Checks.{loose, split};
ghost use Rattle.rows.specs.Places.{row_at, bare, given};
ghost use Rattle.ruled.specs.Into.{hangs, differs};

use crate::into::{self, Marks};
use paper::Production;
use rows::numbers;

// State 0, which no row has to lead to.
const ROOT: usize = 0;

// Row i's from is not 0 and is no row's to.
fn hangs(marks: Marks, i: usize) -> bool
    requires { i < length marks.rows.now / 4 }
    ensures { result ≡ hangs (rows_in marks.entry.rows.now) (row_at marks.entry.rows.now i) }
{
    let from = numbers::from_at(marks.rows, i);
    if from == ROOT {
        return false;
    }
    into::first_row(marks.into, from).is_none()
}

// 5 LOOSE.
pub fn loose(marks: Marks) -> bool
    ensures { result ≡ loose (bare marks.entry.rows.now) }
{
    (0..marks.rows.len() / 4).any(|i| hangs(marks, i))
}

// Row i's production.
fn production(marks: Marks, i: usize) -> Option<Production>
    requires { i < length marks.rows.now / 4 }
    ensures { given result ≡ (row_at marks.entry.rows.now i).production }
{
    numbers::accepting(numbers::production_at(marks.rows, i))
}

// Row i's production is not that of the first row into its to.
fn differs(marks: Marks, i: usize) -> bool
    requires { i < length marks.rows.now / 4 }
    ensures { result ≡ differs (rows_in marks.entry.rows.now) (row_at marks.entry.rows.now i) }
{
    match into::first_row(marks.into, numbers::to_at(marks.rows, i)) {
        None => false,
        Some(first) => production(marks, i) != production(marks, first),
    }
}

// 6 SPLIT.
pub fn split(marks: Marks) -> bool
    ensures { result ≡ split (bare marks.entry.rows.now) }
{
    (0..marks.rows.len() / 4).any(|i| differs(marks, i))
}
