// The first row into each state.
ghost use Rattle.std.specs.Prelude.{◌≡◌, ◌<◌, get_or};
ghost use Rattle.counts.specs.Arrays.{Fitting, Clear};
ghost use Rattle.ruled.specs.Into.{Marked, row_mark};

use counts::FewRows;

// Rows within their bounds, and for each state the number, plus one, of the first row into it; 0 where there is none:
// an Option would take twice the room, and the arrays of a call are fixed.
#[derive(Clone, Copy)]
pub struct Marks<'a> {
    pub rows: &'a [i32],
    pub into: &'a [u16; 1024],
    ghost fitting: { Fitting rows.now },
    ghost marked: { Marked rows.now into.now },
}

// Marks each state with the number, plus one, of the first row into it.
pub fn mark(few: FewRows, into: &mut [u16; 1024])
    requires { Clear into.old }
    ensures { Marked few.entry.rows.numbers.now into.new }
{
    for i in (0..few.rows.count()).rev() {
        into[few.rows.to(i)] = (i + 1) as u16;
    }
}

// The first row into a state, where the array marks one.
#[tactic(auto, unfolding(crate::specs::Into::row_mark))]
pub fn first_row(into: &[u16; 1024], s: usize) -> Option<usize>
    requires { s < 1024 }
    ensures { row_mark result ≡ get_or into.now s 0 }
{
    let n = into[s] as usize;
    if n == 0 { None } else { Some(n - 1) }
}
