// Where the rows of each state begin.
ghost use Rattle.std.specs.Prelude.{◌≡◌, ◌/◌, length};
ghost use Rattle.paper.specs.Rows.{rows_in};
ghost use Rattle.counts.specs.Arrays.{Holds};
ghost use Rattle.shrink_alike.specs.Index.{from_first};

use counts::FewRows;

// Sets for each state the first row from it, where the end stood for each.
pub fn firsts(few: FewRows, first: &mut [u16; 1024])
    requires { Holds (λ s. length few.rows.numbers.now / 4) first.old }
    ensures { Holds (from_first 0 (rows_in few.entry.rows.numbers.now)) first.new }
{
    for i in (0..few.rows.count()).rev() {
        first[few.rows.from(i)] = i as u16;
    }
}
