//! Single tokens at the front of a list.

ghost use Rattle.std.specs.Prelude.{◌≡◌, ◌<◌, length, IfSome, is_some, option_map};
ghost use Rattle.text_tokens.specs.Tokens.{toks};
ghost use Rattle.text_tokens.specs.Parts.{word_at, number_at, mark_at, begins_with};

use crate::token::{Mark, Token};

/// The word that comes first, and the tokens after it.
pub fn word<'t>(tokens: &'t [Token]) -> Option<(&'t [u8], &'t [Token])>
    ensures gives { option_map (λ x. (x.0.now, toks x.1.now)) result ≡ word_at (toks tokens.now) }
    ensures shorter { IfSome result (λ x. length x.1.now < length tokens.now) }
{
    match tokens.split_first() {
        Some((Token::Word(word), rest)) => Some((word.as_slice(), rest)),
        _ => None,
    }
}

/// The number that comes first, and the tokens after it.
pub fn number<'t>(tokens: &'t [Token]) -> Option<(u32, &'t [Token])>
    ensures gives { option_map (λ x. (x.0, toks x.1.now)) result ≡ number_at (toks tokens.now) }
    ensures shorter { IfSome result (λ x. length x.1.now < length tokens.now) }
{
    match tokens.split_first() {
        Some((Token::Number(number), rest)) => Some((*number, rest)),
        _ => None,
    }
}

/// Whether a number comes first.
pub fn begins_number(tokens: &[Token]) -> bool
    ensures { result ≡ is_some (number_at (toks tokens.now)) }
{
    matches!(tokens.first(), Some(Token::Number(_)))
}

/// Whether this mark comes first.
pub fn begins(tokens: &[Token], mark: Mark) -> bool
    ensures { result ≡ begins_with mark (toks tokens.now) }
{
    match tokens.first() {
        Some(Token::Mark(first)) => *first == mark,
        _ => false,
    }
}

/// The tokens after this mark, if it comes first.
pub fn mark<'t>(tokens: &'t [Token], mark: Mark) -> Option<&'t [Token]>
    ensures gives { option_map (λ rest. toks rest.now) result ≡ mark_at mark (toks tokens.now) }
    ensures shorter { IfSome result (λ rest. length rest.now < length tokens.now) }
{
    match tokens.split_first() {
        Some((Token::Mark(first), rest)) if *first == mark => Some(rest),
        _ => None,
    }
}
