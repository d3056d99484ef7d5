// Check 7 and the state count, each by one array over the states.
#![tactic(auto)]

ghost use Rattle.std.specs.Prelude.{◌≡◌, ◌/◌, ◌<◌, ◌≤◌, length, get_or};
ghost use Rattle.paper.specs.Rows.{rows_in, states};
ghost use Rattle.paper.specs.Checks.{each_once, no_tree};
ghost use Rattle.rows.specs.Places.{bare};
ghost use Rattle.counts.specs.Arrays.{Clear};
ghost use Rattle.counts.specs.Counts.{Counted, Entered};

use rows::Rows;

// Rows that passed the checks 2 and 3, of at most 16,384 numbers: the arrays over the states are made of them.
#[derive(Clone, Copy)]
pub struct FewRows<'a> {
    pub rows: Rows<'a>,
    ghost few: { length rows.numbers.now ≤ 16384 },
}

// Counts the rows into each state.
fn count(few: FewRows, counts: &mut [u16; 1024])
    requires { Clear counts.old }
    ensures { Counted few.entry.rows.numbers.now counts.new }
{
    for i in (0..few.rows.count()).rev() {
        counts[few.rows.to(i)] += 1;
    }
}

// The states 1 to the row count have one row each.
fn each_once(rows: Rows, counts: &[u16; 1024]) -> bool
    requires { (length rows.numbers.now / 4 ≤ 1023) × Counted rows.numbers.now counts.now }
    ensures { result ≡ each_once (rows_in rows.entry.numbers.now) (length rows.entry.numbers.now / 4) }
{
    for i in (0..rows.count()).rev() {
        if counts[i + 1] != 1 {
            return false;
        }
    }
    true
}

// 7 TREE: true when it refuses.
pub fn no_tree(few: FewRows) -> bool
    ensures { result ≡ no_tree (bare few.entry.rows.numbers.now) }
{
    if 1023 < few.rows.count() {
        return true;
    }
    let mut counts = [0u16; 1024];
    count(few, &mut counts);
    !each_once(few.rows, &counts)
}

// Enters a state: 1 if it was not entered before, else 0.
fn enter(seen: &mut [u8; 1024], s: usize) -> usize
    requires { (s < 1024) × (get_or seen.old s 0 ≤ 1) }
    ensures { Entered seen.old seen.new s result }
{
    if seen[s] == 1 {
        return 0;
    }
    seen[s] = 1;
    1
}

// How many states the rows have: 0 and every to.
pub fn state_count(few: FewRows) -> usize
    ensures { result ≡ length (states (rows_in few.entry.rows.numbers.now)) }
{
    let mut seen = [0u8; 1024];
    seen[0] = 1;
    let mut n = 1;
    for i in (0..few.rows.count()).rev() {
        n += enter(&mut seen, few.rows.to(i));
    }
    n
}
