//! The lines of tokens.
ghost use Rattle.litmus_reader.specs.Faults.{IsOfAToken};

use crate::fault::ReadFault;
use litmus_syntax::{Part, Refusal};
use text_tokens::{Mark, Token, Tokens};

/// The fault of a token that is refused, at its line.
pub(crate) fn fault_at(tokens: &Tokens, refusal: Refusal) -> ReadFault
    ensures { IsOfAToken result }
{
    let index = tokens.as_slice().len().saturating_sub(refusal.left);
    let line = tokens.line(index);
    match refusal.part {
        Part::Header => ReadFault::Header(line),
        Part::Initial => ReadFault::Initial(line),
        Part::Row => ReadFault::Row(line),
        Part::Instruction => ReadFault::Instruction(line),
        Part::Operand => ReadFault::Operand(line),
        Part::Label => ReadFault::Label(line),
        Part::Condition => ReadFault::Condition(line),
        Part::Number => ReadFault::Number(line),
        Part::Ended => ReadFault::Ended(line),
    }
}

/// The line of the header row: that of the token after the first `}`.
pub(crate) fn header_line(tokens: &Tokens) -> u32 {
    let brace = tokens
        .as_slice()
        .iter()
        .position(|token| matches!(token, Token::Mark(Mark::CloseBrace)));
    match brace {
        Some(index) => tokens.line(index.saturating_add(1)),
        None => tokens.line(0),
    }
}
