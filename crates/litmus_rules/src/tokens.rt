//! Tokens of a litmus text, as they lie in it.

use crate::forms::{begins_formula, twin_kind};
use crate::locks::is_idle_lock;
use crate::source::continues_character;
use crate::text_end::{end_kind, is_mark};
use litmus_lines::{PlacedTokens, bytes_from};
use litmus_syntax::{Part, Refusal};
use text_tokens::{Bad, Mark, Token, are_digits, is_word_byte, line_spaces_len};

/// A token that can't stand where it does.
#[derive(Clone, Copy)]
pub struct Spot<'t> {
    pub part: Part,
    /// The offset of its first byte.
    pub offset: usize,
    /// Its bytes; none at the end of the text.
    pub word: &'t [u8],
    /// The bytes that a message shows: those of the token, and of a word after it that belongs to it.
    pub shown: &'t [u8],
    /// The bytes of the token before it; of a `~` with which a condition begins its kind, in angle brackets.
    pub before: &'t [u8],
    /// What kind of token it is, in angle brackets.
    pub kind: &'static [u8],
    /// Where the token before it ends, if the line ends between them.
    pub line_end: Option<usize>,
}

/// The refused one of the tokens of a text.
pub fn spot_of<'t>(tokens: &PlacedTokens<'t>, refusal: Refusal) -> Spot<'t> {
    let index = tokens.index(refusal.left);
    let rest = tokens.rest(index);
    let word = word_at(rest);
    let shown = two_words(rest, word);
    Spot {
        part: refusal.part,
        offset: tokens.offset(index),
        word,
        shown,
        before: kind_before(tokens, index),
        kind: kind_at(tokens.as_slice(), refusal, rest, shown),
        line_end: line_end_before(tokens, index),
    }
}

/// What kind of token the refused one is, from which on the text is this one.
fn kind_at(tokens: &[Token], refusal: Refusal, rest: &[u8], shown: &[u8]) -> &'static [u8] {
    if begins_foreign_comment(rest) {
        return b"<comment>";
    }
    let index = tokens.len().saturating_sub(refusal.left);
    let (before, after) = tokens.split_at(index);
    if let Some(kind) = phrase_kind(refusal.part, before, after) {
        return kind;
    }
    match after.first() {
        Some(token) => kind_of(token, word_at(rest), shown),
        None => end_kind(tokens),
    }
}

/// What kind of token comes first of those after others, where the next ones show that: an instruction, or a formula where
/// a row may begin.
fn phrase_kind(part: Part, before: &[Token], after: &[Token]) -> Option<&'static [u8]> {
    match part {
        Part::Instruction => {
            if is_idle_lock(after) {
                Some(b"<idle_lock>")
            } else if ends_row(before) && begins_formula(after) {
                Some(b"<formula>")
            } else {
                twin_kind(after)
            }
        }
        _ => None,
    }
}

/// Whether the last of these tokens ends a row.
fn ends_row(tokens: &[Token]) -> bool {
    match tokens.last() {
        Some(token) => is_mark(token, Mark::Semicolon),
        None => false,
    }
}

/// Whether a text begins with a sign with which other languages begin comments.
pub fn begins_foreign_comment(text: &[u8]) -> bool {
    text.starts_with(b"//") || text.starts_with(b"/*") || text.starts_with(b"#")
}

/// Where the token before the one with this index ends, if the line ends between them.
fn line_end_before(tokens: &PlacedTokens<'_>, index: usize) -> Option<usize> {
    let space = tokens.space_before(index);
    if space.contains(&b'\n') {
        Some(tokens.offset(index).saturating_sub(space.len()))
    } else {
        None
    }
}

/// The word with which a text begins, with the one after it where they belong together: LOCK and its instruction, the
/// quantifier `not exists`, and the two signs with which a comment begins.
fn two_words<'t>(text: &'t [u8], word: &'t [u8]) -> &'t [u8] {
    if text.starts_with(b"/*") || text.starts_with(b"(*") {
        return text.split_at(text.len().min(2)).0;
    }
    let rest = bytes_from(text, word.len());
    let blanks = line_spaces_len(rest);
    let after = bytes_from(rest, blanks);
    let second = after.split_at(letters_len(after).min(after.len())).0;
    let begins = word.eq_ignore_ascii_case(b"LOCK") && !second.is_empty();
    let is_quantifier = word.eq_ignore_ascii_case(b"NOT") && second.eq_ignore_ascii_case(b"EXISTS");
    if begins || is_quantifier {
        let len = word
            .len()
            .saturating_add(blanks)
            .saturating_add(second.len());
        text.split_at(len.min(text.len())).0
    } else {
        word
    }
}

/// The bytes of the token before the one with this index, or its kind if it is a `~` with which a condition begins.
fn kind_before<'t>(tokens: &PlacedTokens<'t>, index: usize) -> &'t [u8] {
    let before = index.saturating_sub(1);
    let word = tokens.bytes(before);
    if word.starts_with(b"~") && ends_rows(tokens.bytes(before.saturating_sub(1))) {
        b"<first_tilde>"
    } else {
        word
    }
}

/// Whether a condition begins after this token: one that ends a row, or the list of locations.
fn ends_rows(token: &[u8]) -> bool {
    token.starts_with(b";") || token.starts_with(b"]")
}

/// The word with which a text begins: letters and digits, signs of comparison or of a connective, or one character.
pub fn word_at(text: &[u8]) -> &[u8] {
    let signs = text.iter().take_while(|byte| is_sign(**byte)).count();
    let letters = letters_len(bytes_from(text, signs));
    let len = if signs == 0 || text.starts_with(b"-") {
        signs.saturating_add(letters)
    } else {
        signs
    };
    text.split_at(len.max(character_len(text)).min(text.len()))
        .0
}

fn is_sign(byte: u8) -> bool {
    b"!<>=&-/\\".contains(&byte)
}

fn letters_len(text: &[u8]) -> usize {
    text.iter().take_while(|byte| is_word_byte(**byte)).count()
}

/// How many bytes the first character takes.
fn character_len(text: &[u8]) -> usize {
    let later = bytes_from(text, 1)
        .iter()
        .take_while(|byte| continues_character(**byte))
        .count();
    later.saturating_add(1)
}

fn kind_of(token: &Token, word: &[u8], shown: &[u8]) -> &'static [u8] {
    match token {
        Token::Word(_) => word_kind(word, shown),
        Token::Number(_) => b"<number>",
        Token::Mark(_) => b"<mark>",
        Token::Bad(Bad::Number) => number_kind(word),
        Token::Bad(Bad::Minus) => b"<negative>",
        Token::Bad(Bad::Unfinished) => b"<unfinished>",
        Token::Bad(Bad::Stray) => b"<stray>",
    }
}

/// What a word is: the quantifier `not exists`, or any other.
fn word_kind(word: &[u8], shown: &[u8]) -> &'static [u8] {
    if shown.len() > word.len() && word.eq_ignore_ascii_case(b"NOT") {
        b"<not_exists>"
    } else {
        b"<word>"
    }
}

/// What is wrong with a number.
fn number_kind(word: &[u8]) -> &'static [u8] {
    if word.starts_with(b"0x") || word.starts_with(b"0X") {
        b"<hexadecimal>"
    } else if are_digits(word) {
        b"<large>"
    } else {
        b"<digits>"
    }
}
