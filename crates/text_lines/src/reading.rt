// Text in: lines, each at a place of the text.
ghost use Rattle.std.specs.Prelude.{◌≡◌, ◌≤◌, ◌<◌, ◌==◌, length, position, IfSome};
ghost use Rattle.text_lines.specs.Reading.{row_of, head_of, line_from, row_from, head_from};

// A row's numbers, and the place of the line after it. The production stays an i32, as production_at reads it.
#[derive(Clone, Copy, Debug, PartialEq, Eq)]
pub struct RowLine {
    pub from: usize,
    pub terminal: usize,
    pub to: usize,
    pub production: i32,
    pub next: usize,
}

// The head's prod0 and k, and the place of the line after it.
#[derive(Clone, Copy, Debug, PartialEq, Eq)]
pub struct HeadLine {
    pub prod0: i32,
    pub k: usize,
    pub next: usize,
}

// A row's line, whole and without its LF.
#[tactic(auto, unfolding(crate::specs::Reading::row_of, paper::specs::Words::bytes))]
fn row_of(line: &[u8], next: usize) -> Option<RowLine>
    ensures { result ≡ row_of line.now next }
{
    let (from, a) = text_pieces::field_at(line, 0, b"Trans(")?;
    let (terminal, b) = text_pieces::field_at(line, a, b", ")?;
    let (to, c) = text_pieces::field_at(line, b, b", ")?;
    let (production, d) = text_pieces::last_at(line, c, b", ")?;
    if !text_pieces::ends_at(line, d, b"),") {
        return None;
    }
    Some(RowLine {
        from,
        terminal,
        to,
        production,
        next,
    })
}

// The head line, whole and without its LF.
#[tactic(auto, unfolding(crate::specs::Reading::head_of, paper::specs::Words::bytes))]
fn head_of(line: &[u8], next: usize) -> Option<HeadLine>
    ensures { result ≡ head_of line.now next }
{
    let (prod0, a) = text_pieces::last_at(line, 0, b"Dfa(")?;
    let (k, b) = text_pieces::field_at(line, a, b", ")?;
    if !text_pieces::ends_at(line, b, b")") {
        return None;
    }
    Some(HeadLine { prod0, k, next })
}

// The place of the first LF.
fn lf(bytes: &[u8]) -> Option<usize>
    ensures { result ≡ position (λ b. b == 10) bytes.now }
{
    bytes.iter().position(|b| *b == b'\n')
}

// The place of the LF that ends the line from a place on.
fn line_from(text: &[u8], at: usize) -> Option<usize>
    ensures value { result ≡ line_from text.now at }
    ensures within { IfSome result (λ end. (at ≤ end) × (end < length text.now)) }
{
    Some(at + lf(text.get(at..)?)?)
}

// The row whose line begins at a place. One function for this and head_from would be handed row_of or head_of as a
// closure with a contract, longer than both.
pub fn row_from(text: &[u8], at: usize) -> Option<RowLine>
    ensures value { result ≡ row_from text.now at }
    ensures within { IfSome result (λ r. (r.from < 100000) × (r.terminal < 100000)
        × (at < r.next) × (r.next ≤ length text.now)) }
{
    let end = line_from(text, at)?;
    row_of(&text[at..end], end + 1)
}

// The head whose line begins at a place.
pub fn head_from(text: &[u8], at: usize) -> Option<HeadLine>
    ensures value { result ≡ head_from text.now at }
    ensures within { IfSome result (λ h. h.next ≤ length text.now) }
{
    let end = line_from(text, at)?;
    head_of(&text[at..end], end + 1)
}
