// `tabrep`'s answers for the texts of standard input: tables, texts out of form, tables that are refused.
#![tactic(auto)]

mod list;
mod say;

use std::io;
use std::io::Read;

// The texts of the list, and two that are as long as a text may be and longer. Arrays and no Vec here and below: fixed
// memory.
fn main(rt: HostRuntime) -> io::Result<()> {
    let mut bytes = [0; 8192];
    let n = io::copy(&mut rt.stdin().take(8192), &mut &mut bytes[..])?.min(8192);
    list::all(&rt, &bytes[..n as usize])?;
    longest(&rt)
}

// 65,536 bytes are read as a text, and are bad here; one byte more is not read as a text.
fn longest(rt: &impl Print) -> io::Result<()> {
    let bytes = [b'\n'; 65537];
    say::answer(rt, b"65,536 bytes", &bytes[..65536])?;
    say::report(rt, b"65,537 bytes", &bytes)
}
