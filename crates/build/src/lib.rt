// Document 01, module 2: build.
#![tactic(auto)]

ghost use Rattle.std.specs.Prelude.{length};
ghost use Rattle.paper.specs.Answers.{Makes};
ghost use Rattle.paper.specs.Build.{within, built, strings, build};
ghost use Rattle.build_checks.specs.Sane.{Sane};
ghost use Rattle.build.specs.Checking.{Checks};

use grow::Growing;
use paper::{Heading, Production, Refusal, StringList};
use rows::numbers;

// The production of a list that passes the checks 1 and 2.
fn checked(list: StringList, room: usize) -> Result<Production, Refusal>
    ensures { Checks list.entry.production list.entry.tokens.now list.entry.lengths.now room result }
{
    if build_checks::lengths(list, room) {
        return Err(Refusal::Length);
    }
    if build_checks::range(list) {
        return Err(Refusal::Range);
    }
    let q = numbers::natural(list.production) as u16;
    Ok(Production(q))
}

// The strings in rows of their own, and those rows at the front of the output. No strings make state 0 accept, alone:
// no array is cleared for them, since intake's call may be lent many such lists.
fn written(production: Production, list: StringList, out: &mut [i32]) -> Result<Heading, Refusal>
    requires { Sane list.tokens.now list.lengths.now (length out.old) }
    ensures { Makes (within (built production.0 (strings list.entry.lengths.now list.entry.tokens.now)))
        result out.old out.new }
{
    if list.lengths.is_empty() {
        return Ok(Heading {
            prod0: numbers::signed(Some(production)),
            k: 0,
            rows: 0,
            states: 1,
        });
    }
    let mut rows = Growing::empty();
    let head = build_strings::add_all(&mut rows, production, list)?;
    Ok(rows.finish(head.prod0, head.k, out))
}

// Build: the checks 1 and 2, then the strings, then 14.
pub fn build(list: StringList, out: &mut [i32]) -> Result<Heading, Refusal>
    ensures { Makes (build list.entry.production list.entry.tokens.now list.entry.lengths.now (length out.old))
        result out.old out.new }
{
    let production = checked(list, out.len())?;
    written(production, list, out)
}
