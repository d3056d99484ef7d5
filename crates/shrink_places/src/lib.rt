// New numbers: each class gets the next one at its lowest state.
#![tactic(auto)]

ghost use Rattle.std.specs.Prelude.{◌≡◌, ◌<◌, ◌≤◌, length};
ghost use mathlib.Core.Option.{none};
ghost use Rattle.counts.specs.Arrays.{Holds};
ghost use Rattle.merging.specs.Marks.{heads_of};
ghost use Rattle.shrink_alike.specs.Faces.{coded, mark_in};
ghost use Rattle.shrink_places.specs.Numbers.{Named, Placing, Placed};

use shrink_alike::faces::{Faces, NO_STATE};

// The mark of s gets the number m if it has none (NO_STATE: its reason stands beside it); the next number.
fn place(class: &[u16; 1024], number: &mut [u16; 1024], s: usize, m: usize) -> usize
    requires { (s < 1024) × (mark_in class.now s < 1024) × (m ≤ 1024) }
    ensures { Placing number.old number.new (mark_in class.now s) m result }
{
    let h = class[s] as usize;
    if number[h] != NO_STATE {
        return m;
    }
    number[h] = m as u16;
    m + 1
}

// Numbers the marks, upward; how many there are.
pub fn places(faces: &Faces, class: &[u16; 1024], number: &mut [u16; 1024]) -> usize
    requires { Named (coded none faces.now.rows.numbers.now) class.now × Holds (λ s. 65535) number.old }
    ensures { Placed (coded none faces.now.rows.numbers.now) class.now number.new
        × (result ≡ length (heads_of (mark_in class.now) (coded none faces.now.rows.numbers.now))) }
{
    let mut m = 0;
    for s in 0..faces.top {
        if faces.is_state(s) {
            m = place(class, number, s, m);
        }
    }
    m
}
