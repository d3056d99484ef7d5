// Document 01's program `tabrep`: the sizes of the table on standard input, as it is and shrunk.
#![tactic(auto)]

use std::io;
use std::io::Read;

// One byte more is read than a text may have, so that a longer one is seen. Arrays and no Vec: fixed memory.
fn main(rt: HostRuntime) -> io::Result<()> {
    let mut input = [0; 65537];
    let n = io::copy(&mut rt.stdin().take(65537), &mut &mut input[..])?.min(65537);
    let mut out = [0; 64];
    let count = report::report(&input[..n as usize], &mut out);
    rt.write_all(&out[..count])
}
