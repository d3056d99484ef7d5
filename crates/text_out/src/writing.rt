// Text out: words, numbers and lines, one after another.
ghost use Rattle.std.specs.Prelude.{◌≡◌, true, ◌+◌, ◌*◌, ◌<◌, ◌≤◌, ◌++◌, length};
ghost use Rattle.paper.specs.Rows.{accepting, signed, rows_in};
ghost use Rattle.paper.specs.Checks.{every, row_fits};
ghost use Rattle.paper.specs.Text.{digits, decimal};
ghost use Rattle.rows.specs.Places.{code, row};
ghost use Rattle.text_laws.specs.Written.{head_text, row_text, rows_text};
ghost use Rattle.text_out.specs.Added.{Adds};

use rows::numbers;

// How many digits a number takes. ilog10 was measured, in plain Rust, as a tenth slower for a whole text.
fn width(n: usize) -> usize
    requires { n < 100000 }
    ensures { result ≡ length (digits 5 n) }
{
    match n {
        0..=9 => 1,
        10..=99 => 2,
        100..=999 => 3,
        1000..=9999 => 4,
        _ => 5,
    }
}

// An output, and the place in it that is written next.
#[derive(Drop)]
pub struct Writer<'a> {
    pub out: &'a mut [u8],
    pub at: usize,
}

impl<'a> Writer<'a> {
    // A word, byte by byte: copy_from_slice was measured as three times slower on words so short, and zip in place of
    // the index, in plain Rust, as a third slower for a whole text.
    pub fn put_word(&mut self, word: &[u8])
        requires { self.old.at + length word.now ≤ length self.old.out.now }
        ensures { Adds self.old self.new (length word.now) word.now }
    {
        for (i, b) in word.iter().enumerate() {
            self.out[self.at + i] = *b;
        }
        self.at += word.len();
    }

    // A number of five digits at most, for which the room was counted, its last digit first. By hand: itoa prints into
    // a buffer of its own, from which the digits would be copied, and write! can fail, which this can't.
    fn put_number(&mut self, n: usize)
        requires { (self.old.at + 5 ≤ length self.old.out.now) × (n < 100000) }
        ensures { Adds self.old self.new 5 (digits 5 n) }
    {
        let count = width(n);
        let mut left = n;
        for i in (0..count).rev() {
            self.out[self.at + i] = b'0' + (left % 10) as u8;
            left /= 10;
        }
        self.at += count;
    }

    // A production as a table holds it: -1 for none.
    fn put_production(&mut self, production: i32)
        requires { (self.old.at + 5 ≤ length self.old.out.now) × (code (accepting production) ≤ 100000) }
        ensures { Adds self.old self.new 5 (decimal (signed (accepting production))) }
    {
        let code = numbers::coded(production);
        if code == 0 {
            self.put_word(b"-1");
        } else {
            self.put_number(code - 1);
        }
    }

    // A word and the number after it.
    pub fn put_field(&mut self, word: &[u8], n: usize)
        requires { (self.old.at + (length word.now + 5) ≤ length self.old.out.now) × (n < 100000) }
        ensures { Adds self.old self.new (length word.now + 5) (word.now ++ digits 5 n) }
    {
        self.put_word(word);
        self.put_number(n);
    }

    // The head line.
    pub fn put_head(&mut self, prod0: i32, k: usize)
        requires { (self.old.at + 18 ≤ length self.old.out.now) × (code (accepting prod0) ≤ 100000) × (k < 100000) }
        ensures { Adds self.old self.new 18 (head_text (signed (accepting prod0)) k) }
    {
        self.put_word(b"Dfa(");
        self.put_production(prod0);
        self.put_field(b", ", k);
        self.put_word(b")\n");
    }

    // A row's line.
    fn put_row(&mut self, from: usize, terminal: usize, to: usize, production: i32)
        requires { (self.old.at + 35 ≤ length self.old.out.now) × (from < 100000) × (terminal < 100000)
            × (to < 100000) × (code (accepting production) ≤ 100000) }
        ensures { Adds self.old self.new 35 (row_text (row from terminal to production)) }
    {
        self.put_field(b"Trans(", from);
        self.put_field(b", ", terminal);
        self.put_field(b", ", to);
        self.put_word(b", ");
        self.put_production(production);
        self.put_word(b"),\n");
    }

    // A line for each row of a slice whose rows are within their bounds, risen or not.
    pub fn put_rows(&mut self, rows: &[i32])
        requires { (self.old.at + length rows.now * 9 ≤ length self.old.out.now)
            × (every row_fits (rows_in rows.now) ≡ true) }
        ensures { Adds self.old self.new (length rows.now * 9) (rows_text (rows_in rows.now)) }
    {
        for i in 0..rows.len() / 4 {
            self.put_row(
                numbers::from_at(rows, i),
                numbers::terminal_at(rows, i),
                numbers::to_at(rows, i),
                numbers::production_at(rows, i),
            );
        }
    }
}
