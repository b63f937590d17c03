//! Words, the spaces before them, and the ends of lines.

ghost use Rattle.std.specs.Prelude.{◌≡◌, ◌≤◌, ◌∷◌, [], length, IfSome};
ghost use Rattle.std.specs.List.{prefix_len};
ghost use Rattle.text_tokens.specs.Steps.{Gives};
ghost use Rattle.cert_words.specs.Words.{is_inner, front, after_word, word_at, line_name_at, end_at, begins_word, ends_word, letter_of, letter_at};

use crate::refusal::{WordRefusal, Wrong, refused, refused_unless_cut};

/// Whether the byte stands inside a word.
fn is_inner(byte: u8) -> bool
    ensures { result ≡ is_inner byte }
{
    !(byte == b' ' || byte == b'\n')
}

/// How many bytes of a word come first.
fn word_len(bytes: &[u8]) -> usize
    ensures value { result ≡ prefix_len is_inner bytes.now }
    ensures within { result ≤ length bytes.now }
{
    bytes.iter().take_while(|byte| is_inner(**byte)).count()
}

/// The word that comes first, maybe of no byte, and the bytes after it: they begin with a separator, or the word is
/// cut by the end.
pub fn first_word(bytes: &[u8]) -> (&[u8], &[u8])
    ensures front { result.0.now ≡ front bytes.now }
    ensures after_word { result.1.now ≡ after_word bytes.now }
{
    bytes.split_at(word_len(bytes))
}

/// Whether no byte of a word comes first: a word before it is whole, or cut by the end.
pub fn ends_word(bytes: &[u8]) -> bool
    ensures { result ≡ ends_word bytes.now }
{
    match bytes.split_first() {
        None => true,
        Some((first, _)) => !is_inner(*first),
    }
}

/// A word of one byte after a space, and the bytes after it: these begin with a separator, or the word is cut by the end.
pub(crate) fn short_word(bytes: &[u8]) -> Option<(u8, &[u8])>
    ensures { IfSome result (λ x. word_at bytes.now ≡ Some (x.0 ∷ [], x.1.now)) }
{
    match bytes {
        [space, byte, rest @ ..] => {
            if *space == b' ' && is_inner(*byte) && ends_word(rest) {
                Some((*byte, rest))
            } else {
                None
            }
        }
        _ => None,
    }
}

/// A space, and the word after it.
#[tactic(auto, unfolding(crate::specs::Words::word_at))]
pub fn word(bytes: &[u8]) -> Result<(&[u8], &[u8]), WordRefusal>
    ensures { Gives (λ x. (x.0.now, x.1.now)) result (word_at bytes.now) }
{
    match bytes.split_first() {
        None => Err(refused(Wrong::Ended, 0)),
        Some((first, after)) => {
            if *first == b' ' {
                Ok(first_word(after))
            } else {
                Err(refused(Wrong::Token, bytes.len()))
            }
        }
    }
}

/// The first word of a line, which is known.
#[tactic(auto, unfolding(crate::specs::Words::line_name_at))]
pub fn name<'t>(name: &[u8], bytes: &'t [u8]) -> Result<&'t [u8], WordRefusal>
    ensures { Gives (λ x. x.now) result (line_name_at name.now bytes.now) }
{
    let (word, rest) = first_word(bytes);
    if word == name {
        Ok(rest)
    } else if rest.is_empty() && name.starts_with(word) {
        Err(refused(Wrong::Ended, 0))
    } else {
        Err(refused(Wrong::Token, bytes.len()))
    }
}

/// The end of a line.
#[tactic(auto, unfolding(crate::specs::Words::end_at))]
pub fn end(bytes: &[u8]) -> Result<&[u8], WordRefusal>
    ensures { Gives (λ x. x.now) result (end_at bytes.now) }
{
    match bytes.split_first() {
        None => Err(refused(Wrong::Ended, 0)),
        Some((first, after)) => {
            if *first == b'\n' {
                Ok(after)
            } else {
                Err(refused(Wrong::Token, bytes.len()))
            }
        }
    }
}

/// Whether a space comes first, and so a word of the same line.
pub fn begins_word(bytes: &[u8]) -> bool
    ensures { result ≡ begins_word bytes.now }
{
    match bytes.split_first() {
        None => false,
        Some((first, _)) => *first == b' ',
    }
}

/// The byte of a word of one byte.
fn letter_of(word: &[u8]) -> Option<u8>
    ensures { result ≡ letter_of word.now }
{
    match word {
        [letter] => Some(*letter),
        _ => None,
    }
}

/// A word of one byte.
#[tactic(auto, unfolding(crate::specs::Words::letter_at))]
pub fn letter(bytes: &[u8]) -> Result<(u8, &[u8]), WordRefusal>
    ensures { Gives (λ x. (x.0, x.1.now)) result (letter_at bytes.now) }
{
    if let Some((letter, rest)) = short_word(bytes) {
        return Ok((letter, rest));
    }
    let (word, rest) = word(bytes)?;
    match letter_of(word) {
        Some(letter) => Ok((letter, rest)),
        None => Err(refused_unless_cut(Wrong::Token, word.is_empty(), bytes, rest)),
    }
}
