// Rows moved down by one, the first first: room for a row among them, where row 0 holds none yet.
ghost use Rattle.std.specs.Prelude.{◌≡◌, ◌+◌, ◌*◌, ◌<◌, length, drop};
ghost use Rattle.grow_laws.specs.Moves.{down_four, lowered, put_in};

use crate::{copy_row, put_row};

// Rows i + 1 to i + 4 are each copied to the one before, the first first.
fn move_four(buf: &mut [i32], i: usize)
    requires { i * 4 + 19 < length buf.old }
    ensures { buf.new ≡ down_four buf.old i }
{
    copy_row(buf, i + 1, i);
    copy_row(buf, i + 2, i + 1);
    copy_row(buf, i + 3, i + 2);
    copy_row(buf, i + 4, i + 3);
}

// Rows 1 to p go down by one row, the first first.
fn lower_rows(buf: &mut [i32], p: usize)
    requires { p * 4 + 3 < length buf.old }
    ensures { buf.new ≡ lowered buf.old p }
{
    let mut i = 0;
    while i < p {
        if i + 4 <= p {
            move_four(buf, i);
            i += 4;
            continue;
        }
        copy_row(buf, i + 1, i);
        i += 1;
    }
}

// A row is put in after rows 1 to p, which go down.
pub fn insert_row(buf: &mut [i32], p: usize, row: [i32; 4])
    requires { p * 4 + 3 < length buf.old }
    ensures { buf.new ≡ put_in (drop 4 buf.old) p row }
{
    lower_rows(buf, p);
    put_row(buf, p, row);
}
