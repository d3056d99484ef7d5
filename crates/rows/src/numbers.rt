// Where a table's i32 numbers become states, terminals and productions, and back.
ghost use Rattle.std.specs.Prelude.{◌≡◌, ◌+◌, ◌*◌, ◌/◌, ◌<◌, ◌≤◌, true, length, get_or, pos};
ghost use Rattle.paper.specs.Rows.{natural, accepting, signed, rows_in};
ghost use Rattle.paper.specs.Checks.{every, row_fits, production_fits};
ghost use Rattle.rows.specs.Places.{Reads, code, given, row_at, key, four};

use paper::Production;

// What stands in a table for no production: a lent table is a slice of numbers, as C has it.
const NO_PRODUCTION: i32 = -1;

// A number that may not be below 0; one that is becomes 65,536, so that one test of its bound refuses both.
pub fn natural(x: i32) -> usize
    ensures { Reads (natural x) result }
{
    if x < 0 { 65536 } else { x as usize }
}

// A production as C is handed it: 0 for -1, else one more than it; 65,537, over its bound, for what is below.
pub fn coded(x: i32) -> usize
    ensures { Reads (code (accepting x)) result }
{
    if x == NO_PRODUCTION {
        0
    } else if x < 0 {
        65537
    } else {
        x as usize + 1
    }
}

// A production is within its bounds.
pub fn production_fits(x: i32) -> bool
    ensures { result ≡ production_fits (accepting x) }
{
    NO_PRODUCTION <= x && x <= 65535
}

// The production that a table's number within its bounds stands for.
pub fn accepting(x: i32) -> Option<Production>
    requires { code (accepting x) ≤ 65536 }
    ensures { given result ≡ accepting x }
{
    if x == NO_PRODUCTION {
        None
    } else {
        Some(Production(x as u16))
    }
}

// A production as a table holds it.
pub fn signed(production: Option<Production>) -> i32
    ensures { result ≡ signed (given production) }
{
    match production {
        None => NO_PRODUCTION,
        Some(q) => q.0 as i32,
    }
}

// The number of a state or a terminal, as a table holds it.
pub fn number_of(n: usize) -> i32
    requires { n ≤ 65535 }
    ensures { result ≡ pos n }
{
    n as i32
}

// The number in column c of row i, which may not be below 0.
fn column(rows: &[i32], i: usize, c: usize) -> usize
    requires { (i * 4 + 3 < length rows.now) × (c ≤ 3) }
    ensures { Reads (natural (get_or rows.now (i * 4 + c) (pos 0))) result }
{
    natural(rows[i * 4 + c])
}

// Row i's from, of rows that no check has seen.
pub fn from_at(rows: &[i32], i: usize) -> usize
    requires { i * 4 + 3 < length rows.now }
    ensures { Reads (row_at rows.now i).from result }
{
    column(rows, i, 0)
}

// Row i's terminal.
pub fn terminal_at(rows: &[i32], i: usize) -> usize
    requires { i * 4 + 3 < length rows.now }
    ensures { Reads (row_at rows.now i).terminal result }
{
    column(rows, i, 1)
}

// Row i's to.
pub fn to_at(rows: &[i32], i: usize) -> usize
    requires { i * 4 + 3 < length rows.now }
    ensures { Reads (row_at rows.now i).to result }
{
    column(rows, i, 2)
}

// Row i's production, as a table holds it.
pub fn production_at(rows: &[i32], i: usize) -> i32
    requires { i * 4 + 3 < length rows.now }
    ensures { result ≡ get_or rows.now (i * 4 + 3) (pos 0) }
{
    rows[i * 4 + 3]
}

// Row i's from and terminal in one number, by which rows rise. In rows within their bounds no number is below 0.
pub fn key_at(rows: &[i32], i: usize) -> usize
    requires { (every row_fits (rows_in rows.now) ≡ true) × (i < length rows.now / 4) }
    ensures { result ≡ key (row_at rows.now i) }
{
    (rows[i * 4] as usize) * 65536 + (rows[i * 4 + 1] as usize)
}

// Four numbers, from a place on.
pub fn put_four(out: &mut [i32], at: usize, a: i32, b: i32, c: i32, d: i32)
    requires { at + 4 ≤ length out.old }
    ensures { out.new ≡ four out.old at a b c d }
{
    out[at] = a;
    out[at + 1] = b;
    out[at + 2] = c;
    out[at + 3] = d;
}

// The numbers of a row, from a place on.
pub fn put_row(
    out: &mut [i32],
    at: usize,
    from: usize,
    terminal: usize,
    to: usize,
    production: Option<Production>,
)
    requires { (at + 4 ≤ length out.old) × (from ≤ 65535) × (terminal ≤ 65535) × (to ≤ 65535) }
    ensures { out.new
        ≡ four out.old at (pos from) (pos terminal) (pos to) (signed (given production)) }
{
    let a = number_of(from);
    let b = number_of(terminal);
    let c = number_of(to);
    put_four(out, at, a, b, c, signed(production));
}
