// A reader of a case.
use crate::{number, slice};
use paper::{Mode, Table};

// No case has a million numbers. Places and counts are taken modulo this, so that no sum of them wraps.
const MOST: usize = 1_000_000;

// The numbers of a case, and the place of the next to be read.
#[derive(Drop)]
pub struct Case<'a> {
    numbers: &'a [usize],
    place: usize,
}

impl<'a> Case<'a> {
    // A reader of some numbers, from the first on.
    pub fn new(numbers: &'a [usize]) -> Case<'a> {
        Case { numbers, place: 0 }
    }

    // What is still to be read.
    pub fn rest(&self) -> &'a [usize] {
        slice::after(self.numbers, self.place)
    }

    // A reader of that, with places of its own.
    pub fn part(&self) -> Case<'a> {
        Case::new(self.rest())
    }

    // The number to be read next; 0 at the end.
    fn next(&self) -> usize {
        self.rest().first().copied().unwrap_or(0)
    }

    // The place behind a head and as many numbers.
    fn behind(&self, head: usize, count: usize) -> usize {
        self.place % MOST + head % MOST + count % MOST
    }

    // The next number.
    pub fn number(&mut self) -> usize {
        let number = self.next();
        self.place = self.place.saturating_add(1);
        number
    }

    // A count, and as many numbers, or all that are left.
    pub fn list(&mut self) -> &'a [usize] {
        let count = self.next();
        let numbers = slice::front(slice::after(self.rest(), 1), count);
        *self = Case::new(slice::after(self.numbers, self.behind(1, count)));
        numbers
    }

    // The next number, which is a signed one.
    pub fn signed(&mut self) -> i32 {
        number::signed(self.number())
    }

    // A mode: 0 is archive, any other number intake.
    pub fn mode(&mut self) -> Mode {
        match self.number() {
            0 => Mode::Archive,
            _ => Mode::Intake,
        }
    }

    // A list in a slice of zeros that is lent for it: the programs keep to fixed memory. What a list lacks of its count
    // is 0, as far as the slice reaches.
    fn mapped<'b, B: Copy, F: Fn(usize) -> B>(&mut self, room: &'b mut [B], becomes: F) -> &'b [B]
        requires { F.IsAlwaysCallable becomes }
    {
        let count = self.next();
        slice::mapped(self.list(), room, becomes);
        slice::front(room, count)
    }

    // A list of signed numbers.
    pub fn signed_list<'b>(&mut self, room: &'b mut [i32]) -> &'b [i32] {
        self.mapped(room, number::signed)
    }

    // A list of tokens.
    pub fn tokens<'b>(&mut self, room: &'b mut [u16]) -> &'b [u16] {
        self.mapped(room, number::token)
    }

    // A table, its rows in a slice that is lent for them.
    pub fn table<'b>(&mut self, room: &'b mut [i32]) -> Table<'b> {
        let mut table = self.part();
        let prod0 = table.signed();
        let k = table.number();
        self.place = self.behind(3, table.next());
        Table {
            prod0,
            k,
            rows: table.signed_list(room),
        }
    }
}
