// The classes of states that become one, by one pass down the states.
ghost use Rattle.std.specs.Prelude.{◌<◌};
ghost use Rattle.shrink_alike.specs.Tables.{table_of};
ghost use Rattle.shrink_slots.specs.Slots.{Open};
ghost use Rattle.shrink_classes.specs.Classes.{Chosen, Classes};

use shrink_alike::faces::{Faces, NO_STATE};
use shrink_slots::Slots;

// State s gets its mark: the state in its slot, which is s itself if the slot was empty (NO_STATE: its reason stands
// beside it).
fn settle(faces: &Faces, slots: &mut [u16; 1024], class: &mut [u16; 1024], s: usize)
    requires { Open slots.old × (s < 1024) }
    ensures { Chosen faces.now.mode (table_of faces.now) slots.old class.old slots.new class.new s }
{
    let g = faces.sign(class, s);
    let kept = Slots {
        faces,
        class,
        held: slots,
    };
    let at = kept.find(s, g);
    if slots[at] == NO_STATE {
        slots[at] = s as u16;
    }
    class[s] = slots[at];
}

// The mark of each state, from the highest down: the highest state that it becomes one with.
pub fn classes(faces: &Faces, class: &mut [u16; 1024])
    ensures { Classes faces.now.mode (table_of faces.now) class.new }
{
    let mut slots = [NO_STATE; 1024];
    for s in (0..faces.top).rev() {
        if faces.is_state(s) {
            settle(faces, &mut slots, class, s);
        }
    }
}
