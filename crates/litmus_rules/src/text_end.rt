//! In what a litmus text is where it ends.

use text_tokens::{Mark, Token};

/// What has begun and has no end yet, as a kind of token for the tables.
pub(crate) fn end_kind(tokens: &[Token]) -> &'static [u8] {
    if count(tokens, Mark::OpenBrace) > count(tokens, Mark::CloseBrace) {
        b"<in_values>"
    } else if count(tokens, Mark::OpenParen) > count(tokens, Mark::CloseParen) {
        b"<in_parentheses>"
    } else if tokens.iter().any(|token| is_quantifier(token)) {
        b"<in_condition>"
    } else if count(tokens, Mark::CloseBrace) > 0 {
        b"<in_rows>"
    } else {
        b"<end>"
    }
}

/// How often a mark stands among the tokens.
fn count(tokens: &[Token], mark: Mark) -> usize {
    tokens.iter().filter(|token| is_mark(token, mark)).count()
}

/// Whether the token is this mark.
pub(crate) fn is_mark(token: &Token, mark: Mark) -> bool {
    match token {
        Token::Mark(own) => *own == mark,
        _ => false,
    }
}

/// Whether a condition begins with this token, or with `~` before it.
fn is_quantifier(token: &Token) -> bool {
    match token {
        Token::Word(word) => {
            word.eq_ignore_ascii_case(b"exists") || word.eq_ignore_ascii_case(b"forall")
        }
        _ => false,
    }
}
