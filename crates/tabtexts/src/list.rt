// The list of texts: on each line a name, `|` and the text. In both, `~` stands for LF, `^` for CR and `!` for a tab.
use crate::say;
use parts::slice;
use std::io;

// Each line of the list is answered; what stands behind the last LF is none.
pub fn all(rt: &impl Print, list: &[u8]) -> io::Result<()> {
    let mut rest = list;
    for line in list.split_inclusive(|byte| *byte == b'\n') {
        if let Some(line) = line.strip_suffix(b"\n") {
            one(rt, line, rest)?;
        }
        rest = slice::after(rest, line.len());
    }
    Ok(())
}

// The name and the text of a line, which the list from there on begins with, answered. Where the line has no bar, the
// name goes on to the list's next, and the text is empty. Arrays and no Vec: fixed memory.
fn one(rt: &impl Print, line: &[u8], list: &[u8]) -> io::Result<()> {
    let mut name = [0; 64];
    let mut text = [0; 256];
    let bar = list
        .iter()
        .position(|byte| *byte == b'|')
        .unwrap_or(list.len());
    say::answer(
        rt,
        letters(slice::front(list, bar), &mut name),
        letters(slice::after(line, bar.saturating_add(1)), &mut text),
    )
}

// What some bytes stand for, in a slice that is lent for them, as far as it reaches.
fn letters<'a>(bytes: &[u8], room: &'a mut [u8]) -> &'a [u8] {
    slice::mapped(bytes, room, letter);
    slice::front(room, bytes.len())
}

// What a byte of a line stands for.
fn letter(byte: u8) -> u8 {
    match byte {
        b'~' => b'\n',
        b'^' => b'\r',
        b'!' => b'\t',
        _ => byte,
    }
}
