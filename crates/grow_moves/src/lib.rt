// Rows of an array moved up or down, and a row put in the room that they leave. Rows are copied here number by number,
// four a turn: the library's copy_within was measured as a third slower where few rows move, and wants memmove of C.
#![tactic(auto)]

pub mod down;
pub mod up;

ghost use Rattle.std.specs.Prelude.{◌≡◌, ◌+◌, ◌*◌, ◌<◌, length};
ghost use Rattle.grow_laws.specs.Moves.{over_row, copied};

use rows::numbers;

// Row i becomes four numbers, each stored by itself: a copy of the array costs more.
fn put_row(buf: &mut [i32], i: usize, row: [i32; 4])
    requires { i * 4 + 3 < length buf.old }
    ensures { buf.new ≡ over_row buf.old i row }
{
    let [w, x, y, z] = row;
    numbers::put_four(buf, i * 4, w, x, y, z);
}

// Row i is copied to row j.
fn copy_row(buf: &mut [i32], i: usize, j: usize)
    requires { (i * 4 + 3 < length buf.old) × (j * 4 + 3 < length buf.old) }
    ensures { buf.new ≡ copied buf.old i j }
{
    let w = buf[i * 4];
    let x = buf[i * 4 + 1];
    let y = buf[i * 4 + 2];
    let z = buf[i * 4 + 3];
    put_row(buf, j, [w, x, y, z]);
}
