// Text in: words and numbers, each at a place of a line.
#![tactic(auto)]

ghost use Rattle.std.specs.Prelude.{◌≡◌, ◌<◌, ◌≤◌, length, IfSome};
ghost use Rattle.text_pieces.specs.Pieces.{past_word, Counts, number_at, production_at, field_at, last_at, ends_at};

use rows::numbers::signed;

// The place after a word that stands at a place; strip_prefix hands out the rest, and callers need the place.
fn past_word(line: &[u8], at: usize, word: &[u8]) -> Option<usize>
    requires { at ≤ length line.now }
    ensures { result ≡ past_word line.now at word.now }
{
    line[at..].starts_with(word).then_some(at + word.len())
}

// The most digits of a number in form.
const MOST: usize = 5;

// How many digits there are and their number; six or more are not told apart.
#[derive(Clone, Copy, Debug, PartialEq, Eq)]
struct Counted {
    count: usize,
    value: usize,
}

// The digits at the front, by hand: str::parse wants a &str, which these bytes are not, and takes `+1` and `01`.
fn digits(bytes: &[u8]) -> Counted
    ensures { Counts bytes.now result.count result.value }
{
    let mut value = 0;
    for (count, b) in bytes.iter().enumerate() {
        if !b.is_ascii_digit() || MOST < count {
            return Counted { count, value };
        }
        value = value * 10 + usize::from(*b - b'0');
    }
    Counted {
        count: bytes.len(),
        value,
    }
}

// The number at a place, 1 to 5 digits without leading zero, and the place after it.
fn number_at(line: &[u8], at: usize) -> Option<(usize, usize)>
    requires { at ≤ length line.now }
    ensures { result ≡ number_at line.now at }
{
    let rest = &line[at..];
    let Counted { count, value } = digits(rest);
    if count < 1 || MOST < count {
        return None;
    }
    if count != 1 && rest[0] == b'0' {
        return None;
    }
    Some((value, at + count))
}

// The production at a place, -1 or a number, and the place after it. It stays an i32: a number above 65535 is read
// here, and refused later, with 2 RANGE.
fn production_at(line: &[u8], at: usize) -> Option<(i32, usize)>
    requires { at ≤ length line.now }
    ensures { result ≡ production_at line.now at }
{
    if let Some(next) = past_word(line, at, b"-1") {
        return Some((signed(None), next));
    }
    let (value, next) = number_at(line, at)?;
    Some((value as i32, next))
}

// The number after a word. One function for this and last_at would be handed number_at or production_at as a closure
// with a contract, longer than both.
pub fn field_at(line: &[u8], at: usize, word: &[u8]) -> Option<(usize, usize)>
    requires { at ≤ length line.now }
    ensures value { result ≡ field_at line.now at word.now }
    ensures within { IfSome result (λ p. (p.0 < 100000) × (p.1 ≤ length line.now)) }
{
    number_at(line, past_word(line, at, word)?)
}

// The production after a word.
pub fn last_at(line: &[u8], at: usize, word: &[u8]) -> Option<(i32, usize)>
    requires { at ≤ length line.now }
    ensures value { result ≡ last_at line.now at word.now }
    ensures within { IfSome result (λ p. p.1 ≤ length line.now) }
{
    production_at(line, past_word(line, at, word)?)
}

// Whether a word stands at a place and ends the line.
pub fn ends_at(line: &[u8], at: usize, word: &[u8]) -> bool
    requires { at ≤ length line.now }
    ensures { result ≡ ends_at line.now at word.now }
{
    &line[at..] == word
}
