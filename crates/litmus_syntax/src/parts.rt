//! Single tokens at the front of a list, and what is refused there.

ghost use Rattle.std.specs.Prelude.{◌<◌, ◌≤◌, ◌≡◌, ◌||◌, length, IfOk, is_some};
ghost use Rattle.std.specs.Str.{bytes_eq};
ghost use Rattle.text_tokens.specs.Tokens.{toks};
ghost use Rattle.text_tokens.specs.Parts.{word_at, number_at, mark_at};
ghost use Rattle.litmus_syntax.specs.Phrases.{begins_with_word};
ghost use Rattle.text_tokens.specs.Steps.{Gives};
ghost use Rattle.litmus_syntax.specs.Reading.{keyword_at, separator_at};

use crate::fault::{Part, Refusal};
use text_tokens::{Bad, Mark, Token, begins};

/// The refusal of the first of these tokens in this part of the text, where no number may stand.
pub fn refused(tokens: &[Token], part: Part) -> Refusal {
    let part = match tokens.first() {
        None | Some(Token::Bad(Bad::Unfinished)) => Part::Ended,
        _ => part,
    };
    Refusal {
        part,
        left: tokens.len(),
    }
}

/// The refusal of the first of these tokens in this part of the text, where a number may stand.
pub fn refused_number(tokens: &[Token], part: Part) -> Refusal {
    match tokens.first() {
        Some(Token::Bad(Bad::Number | Bad::Minus)) => refused(tokens, Part::Number),
        _ => refused(tokens, part),
    }
}

/// The word that comes first.
pub fn word<'t>(tokens: &'t [Token], part: Part) -> Result<(&'t [u8], &'t [Token]), Refusal>
    ensures gives { Gives (λ x. (x.0.now, toks x.1.now)) result (word_at (toks tokens.now)) }
    ensures shorter { IfOk result (λ x. length x.1.now < length tokens.now) }
{
    match text_tokens::word(tokens) {
        Some(found) => Ok(found),
        None => Err(refused(tokens, part)),
    }
}

/// The number that comes first.
pub fn number<'t>(tokens: &'t [Token], part: Part) -> Result<(u32, &'t [Token]), Refusal>
    ensures gives { Gives (λ x. (x.0, toks x.1.now)) result (number_at (toks tokens.now)) }
    ensures shorter { IfOk result (λ x. length x.1.now < length tokens.now) }
{
    match text_tokens::number(tokens) {
        Some(found) => Ok(found),
        None => Err(refused_number(tokens, part)),
    }
}

/// The tokens after this mark, which comes first.
pub fn mark<'t>(tokens: &'t [Token], mark: Mark, part: Part) -> Result<&'t [Token], Refusal>
    ensures gives { Gives (λ rest. toks rest.now) result (mark_at mark (toks tokens.now)) }
    ensures shorter { IfOk result (λ rest. length rest.now < length tokens.now) }
{
    match text_tokens::mark(tokens, mark) {
        Some(rest) => Ok(rest),
        None => Err(refused(tokens, part)),
    }
}

/// Whether a word comes first.
pub fn begins_any_word(tokens: &[Token]) -> bool
    ensures { result ≡ is_some (word_at (toks tokens.now)) }
{
    text_tokens::word(tokens).is_some()
}

/// Whether this word comes first.
pub fn begins_word(tokens: &[Token], word: &[u8]) -> bool
    ensures { result ≡ begins_with_word word.now (toks tokens.now) }
{
    match text_tokens::word(tokens) {
        Some((first, _)) => first == word,
        None => false,
    }
}

/// Whether the word is one of these two.
pub fn is_either(word: &[u8], one: &[u8], other: &[u8]) -> bool
    ensures { result ≡ (bytes_eq word.now one.now || bytes_eq word.now other.now) }
{
    word == one || word == other
}

/// The tokens after this word, which comes first.
pub fn keyword<'t>(tokens: &'t [Token], word: &[u8], part: Part) -> Result<&'t [Token], Refusal>
    ensures gives { Gives (λ rest. toks rest.now) result (keyword_at word.now (toks tokens.now)) }
    ensures shorter { IfOk result (λ rest. length rest.now < length tokens.now) }
{
    match text_tokens::word(tokens) {
        Some((first, rest)) if first == word => Ok(rest),
        _ => Err(refused(tokens, part)),
    }
}

/// The tokens after `;`, which may be missing before the closing mark.
pub fn separator<'t>(tokens: &'t [Token], close: Mark, part: Part) -> Result<&'t [Token], Refusal>
    ensures gives { Gives (λ rest. toks rest.now) result (separator_at close (toks tokens.now)) }
    ensures no_longer { IfOk result (λ rest. length rest.now ≤ length tokens.now) }
{
    if begins(tokens, close) {
        Ok(tokens)
    } else {
        mark(tokens, Mark::Semicolon, part)
    }
}
