// The row of a state and a terminal, and the stretch of a state's rows, in rows that passed 2 and 3.
#![tactic(auto)]

ghost use Rattle.std.specs.Prelude.{◌+◌, ◌*◌, ◌<◌, ◌≤◌, ◌/◌, length};
ghost use Rattle.paper.specs.Rows.{begin, leaving};
ghost use Rattle.search.specs.Search.{Bracket, Lower, Scanned, Finds, Leaves};

use paper::{State, Terminal};
use rows::Rows;

// Where the rows of a state begin, or its first row would go, and how many they are.
#[derive(Clone, Copy)]
pub struct Span {
    pub begin: usize,
    pub count: usize,
}

// The first of the rows before end whose key is at least x, one after the other; end where there is none.
fn scan(rows: Rows, end: usize, x: usize) -> usize
    requires { end ≤ length rows.numbers.now / 4 }
    ensures { Scanned rows.entry.numbers.now end x result }
{
    for i in 0..end {
        if x <= rows.key(i) {
            return i;
        }
    }
    end
}

// The first row whose key is at least x, by halves, where it lies from start on. The library's
// partition_point over chunks of four would want a second way to read a row's key, with its bounds proved again.
fn halve(rows: Rows, start: usize, x: usize) -> usize
    requires { Bracket rows.numbers.now x start (length rows.numbers.now / 4) }
    ensures { Lower rows.entry.numbers.now x result }
{
    let mut low = start;
    let mut high = rows.count();
    while low < high {
        let middle = low + (high - low) / 2;
        if rows.key(middle) < x {
            low = middle + 1;
        } else {
            high = middle;
        }
    }
    low
}

// The first row whose key is at least x; the row count where there is none. Few rows, and the first rows
// of many, where those of state 0 lie, are sooner found one after the other.
fn lower(rows: Rows, x: usize) -> usize
    ensures { Lower rows.entry.numbers.now x result }
{
    let n = rows.count();
    if n <= 32 {
        return scan(rows, n, x);
    }
    if rows.key(31) < x {
        return halve(rows, 32, x);
    }
    scan(rows, 32, x)
}

// The row of a state and a terminal, or where it would go.
pub fn find(rows: Rows, state: State, terminal: Terminal) -> Result<usize, usize>
    ensures { Finds rows.entry.numbers.now state.0 terminal.0 result }
{
    let x = state.0 as usize * 65536 + terminal.0 as usize;
    let i = lower(rows, x);
    if rows.count() <= i {
        return Err(i);
    }
    if rows.key(i) == x {
        return Ok(i);
    }
    Err(i)
}

// The rows of a state.
pub fn leaving(rows: Rows, state: State) -> Span
    ensures { Leaves rows.entry.numbers.now state.0 result.begin result.count }
{
    let s = state.0 as usize;
    let begin = lower(rows, s * 65536);
    let end = lower(rows, (s + 1) * 65536);
    Span {
        begin,
        count: end - begin,
    }
}
