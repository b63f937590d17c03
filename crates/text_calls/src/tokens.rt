//! Calls of `text_tokens`.

use crate::input::{number_of, word_at};
use crate::refusal::TextRefusal;
use std::alloc::{AllocError, Global};
use text_tokens::{Bad, Token, Tokens, lex, plain_number_up_to};

/// A capital for each kind of bad token.
fn bad_kind(bad: Bad) -> char {
    match bad {
        Bad::Number => 'N',
        Bad::Minus => 'M',
        Bad::Unfinished => 'U',
        Bad::Stray => 'S',
    }
}

/// A letter for each kind of token: `w`, `n` and `m` for words, numbers and marks, and capitals for bad ones.
fn kind(token: &Token) -> char {
    match token {
        Token::Word(_) => 'w',
        Token::Number(_) => 'n',
        Token::Mark(_) => 'm',
        Token::Bad(bad) => bad_kind(*bad),
    }
}

fn push_kinds(tokens: &[Token], printed: &mut String) -> Result<(), AllocError> {
    for token in tokens {
        printed.push(kind(token))?;
    }
    Ok(())
}

/// The kinds of tokens, and the lines of them and of their end.
fn push_all(tokens: &Tokens, printed: &mut String) -> Result<(), TextRefusal> {
    push_kinds(tokens.as_slice(), printed)?;
    for index in 0..=tokens.as_slice().len() {
        write!(printed, " {}", tokens.line(index))?;
    }
    Ok(printed.push('\n')?)
}

/// The kinds of a text's tokens, and the lines of them and of its end; the text begins in the line that is given.
pub fn push_tokens(
    alloc: Global,
    words: &[&[u8]],
    text: &[u8],
    printed: &mut String,
) -> Result<(), TextRefusal> {
    let line = number_of(word_at(words, 0)?)?;
    let tokens = lex(alloc, text, line)?;
    push_all(&tokens, printed)
}

/// The number up to a limit that a text spells without leading zeros.
pub fn push_plain_number(
    words: &[&[u8]],
    text: &[u8],
    printed: &mut String,
) -> Result<(), TextRefusal> {
    let limit = number_of(word_at(words, 0)?)?;
    Ok(write!(printed, "{:?}\n", plain_number_up_to(limit, text))?)
}
