//! Instructions and formulas that are not read, and which short forms stand for.

use text_tokens::{Mark, Token, begins, number, word};

/// The mnemonics of instructions that make a register 0 where it is both operands.
const ZERO_A_REGISTER: &[&str] = &["XOR", "SUB"];

/// What kind of token these begin with where it is an instruction with one register as both operands, as `TEST EAX,EAX`.
pub(crate) fn twin_kind(tokens: &[Token]) -> Option<&'static [u8]> {
    let mnemonic = twin(tokens)?;
    if mnemonic.eq_ignore_ascii_case(b"TEST") {
        Some(b"<zero_test>")
    } else if makes_zero(mnemonic) {
        Some(b"<zeroing>")
    } else {
        None
    }
}

fn makes_zero(mnemonic: &[u8]) -> bool {
    ZERO_A_REGISTER
        .iter()
        .any(|one| one.as_bytes().eq_ignore_ascii_case(mnemonic))
}

/// The mnemonic before two words that are one, with a comma between them.
fn twin(tokens: &[Token]) -> Option<&[u8]> {
    match tokens {
        [
            Token::Word(mnemonic),
            Token::Word(first),
            Token::Mark(Mark::Comma),
            Token::Word(second),
            ..
        ] if first.as_slice().eq_ignore_ascii_case(second.as_slice()) => Some(mnemonic.as_slice()),
        _ => None,
    }
}

/// Whether these tokens begin as a formula does that names a location or a register: `x=` or `0:`.
pub(crate) fn begins_formula(tokens: &[Token]) -> bool {
    match word(tokens) {
        Some((_, rest)) => begins(rest, Mark::Equals),
        None => match number(tokens) {
            Some((_, rest)) => begins(rest, Mark::Colon),
            None => false,
        },
    }
}
