// The kept states, found by a number: states that become one have one number.
#![tactic(auto)]

ghost use Rattle.std.specs.Prelude.{◌≡◌, ◌<◌};
ghost use Rattle.shrink_slots.specs.Slots.{alike_in, slot, passes, Open, Stops};

use shrink_alike::faces::{Faces, NO_STATE};

// The slot after d steps of the walk of the number g.
#[tactic(auto, unfolding(crate::specs::Slots::slot))]
fn slot(g: usize, d: usize) -> usize
    requires { (g < 65521) × (d < 1024) }
    ensures { result ≡ slot g d }
{
    (g + d * (g / 1024 * 2 + 1)) % 1024
}

// The kept states in their slots, each found by its rows under the marks of class.
#[derive(Clone, Copy)]
pub struct Slots<'a> {
    pub faces: &'a Faces<'a>,
    pub class: &'a [u16; 1024],
    pub held: &'a [u16; 1024],
    ghost open: { Open held.now },
}

impl<'a> Slots<'a> {
    // A slot holds a state that is not like s. (NO_STATE is no Option for the reason that stands beside it.)
    fn passes(&self, s: usize, at: usize) -> bool
        requires { (s < 1024) × (at < 1024) }
        ensures { result ≡ passes (alike_in self.now.faces.now self.now.class.now) self.now.held.now s at }
    {
        let c = self.held[at];
        c != NO_STATE && !self.faces.like(self.class, s, c as usize)
    }

    // The first slot on the walk of the number g that is empty or holds a state like s.
    pub fn find(&self, s: usize, g: usize) -> usize
        requires { (s < 1024) × (g < 65521) }
        ensures within { result < 1024 }
        ensures stops { Stops (alike_in self.now.faces.now self.now.class.now) self.now.held.now s g result }
    {
        // no for: it would owe a value after its last turn, which no walk reaches
        let mut d = 0;
        let mut at = slot(g, 0);
        while self.passes(s, at) {
            d += 1;
            at = slot(g, d);
        }
        at
    }
}
