// The lines that are printed for a text. Arrays and no Vec: fixed memory.
use paper::Refusal;
use std::io;

// The name of a text, what `tabrep` prints for it, and where text in finds a line out of form.
pub fn answer(rt: &impl Print, name: &[u8], text: &[u8]) -> io::Result<()> {
    report(rt, name, text)?;
    let mut rows = [0; 16384];
    if let Err(Refusal::Text(at)) = text_in::text_in(text, &mut rows) {
        rt.write_all(name)?;
        println!(rt; ", bad line at: {at}")?;
    }
    Ok(())
}

// The name of a text and what `tabrep` prints for it.
pub fn report(rt: &impl Print, name: &[u8], text: &[u8]) -> io::Result<()> {
    rt.write_all(name)?;
    rt.print(": ")?;
    let mut out = [0; 64];
    let count = report::report(text, &mut out);
    rt.write_all(&out[..count])
}
