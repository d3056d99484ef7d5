// Rows moved up, the last first: room for a row among them, or below them all.
ghost use Rattle.std.specs.Prelude.{◌≡◌, ◌+◌, ◌*◌, ◌<◌, ◌≤◌, length};
ghost use Rattle.grow_laws.specs.Moves.{up_four, opened, inserted};

use crate::{copy_row, put_row};

// Rows i to i + 3 are each copied d rows up, the last first.
fn move_four(buf: &mut [i32], d: usize, i: usize)
    requires { i * 4 + d * 4 + 15 < length buf.old }
    ensures { buf.new ≡ up_four buf.old d i }
{
    copy_row(buf, i + 3, i + 3 + d);
    copy_row(buf, i + 2, i + 2 + d);
    copy_row(buf, i + 1, i + 1 + d);
    copy_row(buf, i, i + d);
}

// The rows from p on, of n, go up by d rows, the last first; four a turn cost less than one. Made part of its callers:
// where d is 1, a turn is half as long.
#[inline(always)]
pub fn open_rows(buf: &mut [i32], d: usize, n: usize, p: usize)
    requires { (p ≤ n) × (n * 4 + d * 4 ≤ length buf.old) }
    ensures { buf.new ≡ opened buf.old d n p }
{
    let mut i = n;
    while p < i {
        if p + 4 <= i {
            i -= 4;
            move_four(buf, d, i);
            continue;
        }
        i -= 1;
        copy_row(buf, i, i + d);
    }
}

// A row is put in before row p of n.
pub fn insert_row(buf: &mut [i32], n: usize, p: usize, row: [i32; 4])
    requires { (p ≤ n) × (n * 4 + 3 < length buf.old) }
    ensures { buf.new ≡ inserted buf.old n p row }
{
    open_rows(buf, 1, n, p);
    put_row(buf, p, row);
}
