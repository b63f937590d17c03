//! Locked instructions that change nothing.

use text_tokens::{Mark, Token, mark, number, word};

/// The mnemonics of instructions that leave a value as it is where their second operand is 0.
const IDLE_WITH_ZERO: &[&str] = &["ADD", "OR", "SUB", "XOR"];

/// Whether these tokens begin with a locked instruction that leaves its location as it is, as `LOCK ADD [x],$0`.
pub(crate) fn is_idle_lock(tokens: &[Token]) -> bool {
    match locked(tokens) {
        Some((mnemonic, value)) => value == 0 && is_idle_with_zero(mnemonic),
        None => false,
    }
}

fn is_idle_with_zero(mnemonic: &[u8]) -> bool {
    IDLE_WITH_ZERO
        .iter()
        .any(|one| one.as_bytes().eq_ignore_ascii_case(mnemonic))
}

/// The mnemonic after LOCK, and the number that is its second operand after a location.
fn locked(tokens: &[Token]) -> Option<(&[u8], u32)> {
    let (lock, rest) = word(tokens)?;
    let (mnemonic, rest) = word(rest)?;
    let rest = after_location(rest)?;
    let (value, _) = number(mark(rest, Mark::Dollar).unwrap_or(rest))?;
    if lock.eq_ignore_ascii_case(b"LOCK") {
        Some((mnemonic, value))
    } else {
        None
    }
}

/// The tokens after a location that is an operand, and the comma that follows it.
fn after_location(tokens: &[Token]) -> Option<&[Token]> {
    let (_, rest) = word(mark(tokens, Mark::OpenBracket)?)?;
    mark(mark(rest, Mark::CloseBracket)?, Mark::Comma)
}
