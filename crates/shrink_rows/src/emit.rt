// The rows of the shrunk table, written at the front of the output.
ghost use Rattle.std.specs.Prelude.{◌≡◌, ◌+◌, ◌*◌, ◌/◌, ◌<◌, ◌≤◌, length};
ghost use mathlib.Core.List.{[], ◌∷◌, Memᴰ};
ghost use mathlib.Core.Option.{none};
ghost use Rattle.paper.specs.Rows.{rows_in};
ghost use Rattle.paper.specs.Shrink.{rows_of};
ghost use Rattle.merging.specs.Marks.{heads_of, place_among};
ghost use Rattle.shrink_alike.specs.States.{Tells};
ghost use Rattle.shrink_alike.specs.Faces.{coded, mark_in};
ghost use Rattle.shrink_places.specs.Numbers.{Named, Placed};
ghost use Rattle.shrink_rows.specs.Output.{new_row, Written, Emitted, all_rows};

use rows::numbers;
use shrink_alike::faces::Faces;

// A table's marks, and the new number of each.
#[derive(Clone, Copy)]
pub struct Numbered<'a> {
    pub faces: &'a Faces<'a>,
    pub class: &'a [u16; 1024],
    pub number: &'a [u16; 1024],
    ghost named: { Named (coded none faces.now.rows.numbers.now) class.now },
    ghost placed: { Placed (coded none faces.now.rows.numbers.now) class.now number.now },
}

impl<'a> Numbered<'a> {
    // Row i, from the new number f, as row o of the output.
    fn emit_row(&self, f: usize, i: usize, o: usize, out: &mut [i32])
        requires { (f ≤ 65535) × (i < length self.now.faces.now.rows.numbers.now / 4) × (o < 4096)
            × (o * 4 + 4 ≤ length out.old) }
        ensures { Written out.old out.new o (o + 1)
            (new_row self.now.faces.now.rows.numbers.now self.now.class.now self.now.number.now f i ∷ []) }
    {
        let rows = self.faces.rows;
        let to = self.number[self.faces.to_mark(self.class, i)] as usize;
        numbers::put_row(out, o * 4, f, rows.terminal(i), to, rows.production(i));
    }

    // The rows of state h, from the new number f, from row at of the output on; the row after them. The room is asked
    // for here and in `emit`: a type for it would hold the lent slice, and every clause would speak of its field.
    fn emit_state(&self, h: usize, f: usize, at: usize, out: &mut [i32]) -> usize
        requires { (h < 1024) × (f ≤ 65535)
            × (at + length (rows_of (rows_in self.now.faces.now.rows.numbers.now) h) ≤ 4096)
            × (16384 ≤ length out.old) }
        ensures { Emitted self.now.faces.now.rows.numbers.now self.now.class.now self.now.number.now h f out.old out.new
            at result }
    {
        let rows = self.faces.rows;
        // no range, as in `hash` of shrink_alike: measured, a fifth to a half slower; and o is the answer too
        let mut o = at;
        for i in self.faces.first[h] as usize..rows.count() {
            if rows.from(i) != h {
                break;
            }
            self.emit_row(f, i, o, out);
            o += 1;
        }
        o
    }

    // s is the lowest state of its class, where m is the next new number.
    fn is_head(&self, s: usize, m: usize) -> bool
        requires { (s < 1024)
            × (m ≡ place_among
            (heads_of (mark_in self.now.class.now) (coded none self.now.faces.now.rows.numbers.now)) s) }
        ensures { Tells
            (Memᴰ s (heads_of (mark_in self.now.class.now) (coded none self.now.faces.now.rows.numbers.now))) result }
    {
        self.faces.is_state(s) && self.number[self.class[s] as usize] as usize == m
    }

    // The rows of each class, from its lowest state's new number, in rising order; how many they are.
    pub fn emit(&self, out: &mut [i32]) -> usize
        requires { 16384 ≤ length out.old }
        ensures { Written out.old out.new 0 result
            (all_rows (mark_in self.now.class.now) (coded none self.now.faces.now.rows.numbers.now)) }
    {
        let mut m = 0;
        let mut o = 0;
        for s in 0..self.faces.top {
            if self.is_head(s, m) {
                o = self.emit_state(self.class[s] as usize, m, o, out);
                m += 1;
            }
        }
        o
    }
}
