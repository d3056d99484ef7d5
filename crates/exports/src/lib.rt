// The calls for Rust and C: numbers and slices in, the refusal's number out (0: accepted), values in `answer`.
#![tactic(auto)]

ghost use Rattle.std.specs.Prelude.{◌≡◌, length};
ghost use Rattle.paper.specs.Build.{build};
ghost use Rattle.paper.specs.Unite.{unite};
ghost use Rattle.paper.specs.Shrink.{shrink};
ghost use Rattle.paper.specs.Predict.{predict};
ghost use Rattle.paper.specs.Explain.{matched_count, stretch};
ghost use Rattle.paper.specs.Text.{text_in, text_out};
ghost use Rattle.paper.specs.Batch.{batch};
ghost use Rattle.intake_lists.specs.Call.{table_of};
ghost use Rattle.handed.specs.Handed.{mode_of, table_checked, of_chosen, of_count, of_stretch, returned};
ghost use Rattle.handed.specs.Handed.{Hands, HandedTable, HandedRead, HandedWritten};

use intake_lists::StringLists;
use paper::{StringList, Table};

// Build: rows at the front of `out`; prod0 plus one, k, the row count, the state count.
#[unsafe(no_mangle)]
pub extern "C" fn lookahead_build(
    production: i32,
    tokens: &[u16],
    lengths: &[usize],
    out: &mut [i32],
    answer: &mut [u64; 4],
) -> usize
    ensures { HandedTable (build production tokens.now lengths.now
        (length out.old)) out.old out.new result answer.new }
{
    let list = StringList {
        production,
        tokens,
        lengths,
    };
    handed::hand(build::build(list, out), answer)
}

// Unite: rows at the front of `out`; the values as build's.
#[unsafe(no_mangle)]
pub extern "C" fn lookahead_unite(
    mode: u32,
    prod0a: i32,
    ka: usize,
    a: &[i32],
    prod0b: i32,
    kb: usize,
    b: &[i32],
    out: &mut [i32],
    answer: &mut [u64; 4],
) -> usize
    ensures { HandedTable (unite (mode_of mode) prod0a ka a.now prod0b kb b.now
        (length out.old)) out.old out.new result answer.new }
{
    let mode = handed::mode_of(mode);
    let first = Table {
        prod0: prod0a,
        k: ka,
        rows: a,
    };
    let second = Table {
        prod0: prod0b,
        k: kb,
        rows: b,
    };
    handed::hand(unite::unite(mode, first, second, out), answer)
}

// Shrink: rows at the front of `out`; the values as build's.
#[unsafe(no_mangle)]
pub extern "C" fn lookahead_shrink(
    mode: u32,
    prod0: i32,
    k: usize,
    rows: &[i32],
    out: &mut [i32],
    answer: &mut [u64; 4],
) -> usize
    ensures { HandedTable (shrink (mode_of mode) prod0 k rows.now (length out.old))
        out.old out.new result answer.new }
{
    let mode = handed::mode_of(mode);
    handed::hand(shrink::shrink(mode, Table { prod0, k, rows }, out), answer)
}

// Several lists built, united and shrunk in intake mode: rows at the front of `out`; the values as build's.
#[unsafe(no_mangle)]
pub extern "C" fn lookahead_intake(
    productions: &[i32],
    counts: &[usize],
    lengths: &[usize],
    tokens: &[u16],
    out: &mut [i32],
    answer: &mut [u64; 4],
) -> usize
    ensures { HandedTable (table_of productions.now counts.now lengths.now
        tokens.now (length out.old)) out.old out.new result answer.new }
{
    let lists = StringLists {
        productions,
        counts,
        lengths,
        tokens,
    };
    handed::hand(intake::shrunk_table(lists, out), answer)
}

// The checks of predict and explain on the table alone: 1, 2, 3.
#[unsafe(no_mangle)]
pub extern "C" fn lookahead_check(prod0: i32, k: usize, rows: &[i32]) -> usize
    ensures { result ≡ returned (table_checked prod0 k rows.now) }
{
    match row_checks::whole(Table { prod0, k, rows }) {
        Ok(_) => 0,
        Err(refusal) => refusal.number(),
    }
}

// Predict: the production and the count of rows entered.
#[unsafe(no_mangle)]
pub extern "C" fn lookahead_predict(
    mode: u32,
    prod0: i32,
    k: usize,
    rows: &[i32],
    stream: usize,
    tokens: &[u16],
    answer: &mut [u64; 4],
) -> usize
    ensures { Hands (predict (mode_of mode) prod0 k rows.now stream tokens.now)
        of_chosen result answer.new }
{
    let mode = handed::mode_of(mode);
    let lent = Table { prod0, k, rows };
    handed::hand(predict::predict(mode, lent, stream, tokens), answer)
}

// Batch: at the front of `out` the answer for each of `count` windows of k tokens, one after the other: the production, or
// minus the number of its refusal; their count.
#[unsafe(no_mangle)]
pub extern "C" fn lookahead_batch(
    mode: u32,
    prod0: i32,
    k: usize,
    rows: &[i32],
    stream: usize,
    count: usize,
    tokens: &[u16],
    out: &mut [i32],
    answer: &mut [u64; 4],
) -> usize
    ensures { HandedWritten (batch (mode_of mode) prod0 k rows.now stream count tokens.now
        (length out.old)) out.old out.new result answer.new }
{
    let mode = handed::mode_of(mode);
    let lent = Table { prod0, k, rows };
    handed::hand(batch::batch(mode, lent, stream, count, tokens, out), answer)
}

// Explain, the first call: the count of matched tokens.
#[unsafe(no_mangle)]
pub extern "C" fn lookahead_explain(
    prod0: i32,
    k: usize,
    rows: &[i32],
    tokens: &[u16],
    answer: &mut [u64; 4],
) -> usize
    ensures { Hands (matched_count prod0 k rows.now tokens.now) of_count result answer.new }
{
    handed::hand(explain::matched(Table { prod0, k, rows }, tokens), answer)
}

// Explain, the second call: where the rows that leave the stopped state begin in `rows`, and how many numbers they are.
#[unsafe(no_mangle)]
pub extern "C" fn lookahead_stretch(
    prod0: i32,
    k: usize,
    rows: &[i32],
    tokens: &[u16],
    answer: &mut [u64; 4],
)
    ensures { answer.new ≡ of_stretch (stretch prod0 k rows.now tokens.now) }
{
    let part = explain::place(Table { prod0, k, rows }, tokens);
    *answer = [part.start as u64, part.count as u64, 0, 0];
}

// Text in: rows at the front of `out`; prod0 plus one, k, the row count.
#[unsafe(no_mangle)]
pub extern "C" fn lookahead_text_in(text: &[u8], out: &mut [i32], answer: &mut [u64; 4]) -> usize
    ensures { HandedRead (text_in text.now (length out.old))
        out.old out.new result answer.new }
{
    handed::hand(text_in::text_in(text, out), answer)
}

// Text out: the text at the front of `out`; its length.
#[unsafe(no_mangle)]
pub extern "C" fn lookahead_text_out(
    prod0: i32,
    k: usize,
    rows: &[i32],
    out: &mut [u8],
    answer: &mut [u64; 4],
) -> usize
    ensures { HandedWritten (text_out prod0 k rows.now (length out.old))
        out.old out.new result answer.new }
{
    handed::hand(text_out::text_out(Table { prod0, k, rows }, out), answer)
}
