//! The header row.

ghost use Rattle.std.specs.Prelude.{◌<◌, ◌≡◌, length, IfOk};
ghost use Rattle.text_tokens.specs.Tokens.{toks};
ghost use Rattle.litmus_syntax.specs.Grammar.{IsHeader};
ghost use Rattle.litmus_syntax.specs.Exact.{Reads};
ghost use Rattle.text_tokens.specs.Steps.{GivesUnless};
ghost use Rattle.litmus_syntax.specs.Reading.{column_at, fails_for_memory};

use crate::fault::{Part, SyntaxFault};
use crate::parts::{mark, refused, word};
use std::alloc::Global;
use text_tokens::{Mark, Token, begins};

/// The name of a thread's column: `P0`, `P1` and so on.
#[tactic(auto, unfolding(crate::specs::Reading::column_at))]
fn read_column<'t>(
    alloc: Global,
    thread: usize,
    tokens: &'t [Token],
) -> Result<&'t [Token], SyntaxFault>
    ensures gives { GivesUnless fails_for_memory (λ rest. toks rest.now) result (column_at thread (toks tokens.now)) }
    ensures shorter { IfOk result (λ rest. length rest.now < length tokens.now) }
{
    let (name, rest) = word(tokens, Part::Header)?;
    let wanted = format!(in alloc; "P{thread}")?;
    if name == wanted.as_bytes() {
        Ok(rest)
    } else {
        Err(SyntaxFault::Refused(refused(tokens, Part::Header)))
    }
}

/// The header row, and how many threads it has.
pub fn read_header<'t>(
    alloc: Global,
    tokens: &'t [Token],
) -> Result<(usize, &'t [Token]), SyntaxFault>
    ensures { Reads IsHeader (λ x. x.0) (λ x. toks x.1.now) result (toks tokens.now) }
{
    let mut rest = read_column(alloc, 0, tokens)?;
    let mut threads: usize = 1;
    while begins(rest, Mark::Bar) {
        let after = mark(rest, Mark::Bar, Part::Header)?;
        rest = read_column(alloc, threads, after)?;
        threads += 1;
    }
    let end = mark(rest, Mark::Semicolon, Part::Header)?;
    Ok((threads, end))
}
