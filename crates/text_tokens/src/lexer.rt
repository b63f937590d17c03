//! Bytes to tokens.

ghost use Rattle.std.specs.Prelude.{◌≡◌, ◌<◌, ◌≤◌, ℕ, List, length, map, slice_index, true, false, IfOk};
ghost use Rattle.std.specs.List.{prefix_len};
ghost use Rattle.std.specs.Char.{is_ascii_digit};
ghost use Rattle.text_tokens.specs.Bytes.{is_letter, is_word_byte};
ghost use Rattle.text_tokens.specs.Marks.{mark_from};
ghost use Rattle.text_tokens.specs.Comments.{opens};
ghost use Rattle.text_tokens.specs.Tokens.{Tok, tok, toks, AreAllTokens};
ghost use Rattle.text_tokens.specs.Lexing.{Lexes, LexesTo};
ghost use Rattle.text_tokens.specs.Internal.Front.{IsFront, lexeme_tok};

use crate::bytes::{digits_len, is_letter, is_white_space, is_word_byte};
use crate::comment::{after_comment, opens, skip};
use crate::numbers::value_up_to;
use crate::token::{Bad, Mark, Token};
use std::alloc::{AllocError, Global};
use std::marker::Model;

/// The tokens of a text, each with the line where it begins; what is unfinished has the line where the text stops.
#[derive(Drop)]
pub struct Tokens {
    tokens: Vec<Token>,
    lines: Vec<u32>,
    end_line: u32,
}

impl Model for Tokens {
    ghost Value = { List Tok };

    ghost view = { λ t. toks t.tokens.items };
}

impl Tokens {
    /// The tokens in order.
    pub fn as_slice(&self) -> &[Token]
        ensures { toks result.now ≡ self.now }
    {
        self.tokens.as_slice()
    }

    /// The line where the token with this index begins; the line where the text stops, if that token is unfinished or the index is
    /// past the last token.
    pub fn line(&self, index: usize) -> u32 {
        self.lines.get(index).copied().unwrap_or(self.end_line)
    }
}

/// A token as it lies in the text.
#[derive(Clone, Copy)]
enum Lexeme<'a> {
    Word(&'a [u8]),
    Number(u32),
    Mark(Mark),
}

/// What stands at the front of a text, and what follows it: white space or a comment, a token, or neither.
#[derive(Clone, Copy)]
enum Front<'a> {
    Space(&'a [u8]),
    Token(Lexeme<'a>, &'a [u8]),
    Bad(Bad),
}

fn token_of(alloc: Global, lexeme: Lexeme<'_>) -> Result<Token, AllocError>
    ensures { IfOk result (λ token. tok token ≡ lexeme_tok lexeme.entry) }
{
    match lexeme {
        Lexeme::Word(word) => Ok(Token::Word(Vec::from_slice(alloc, word)?)),
        Lexeme::Number(number) => Ok(Token::Number(number)),
        Lexeme::Mark(mark) => Ok(Token::Mark(mark)),
    }
}

/// How many bytes of a word the text begins with.
fn word_len(bytes: &[u8]) -> usize
    ensures value { result ≡ prefix_len is_word_byte bytes.now }
    ensures within { result ≤ length bytes.now }
{
    bytes.iter().take_while(|byte| is_word_byte(**byte)).count()
}

fn begins_with_letter(bytes: &[u8]) -> bool
    ensures { result ≡ is_letter (slice_index bytes.now 0) }
{
    bytes.len() > 0 && is_letter(bytes[0])
}

/// The mark that begins with the byte.
#[tactic(auto, unfolding(crate::specs::Marks::mark_from))]
fn mark_from(byte: u8) -> Option<Mark>
    ensures { result ≡ mark_from byte }
{
    match byte {
        b'{' => Some(Mark::OpenBrace),
        b'}' => Some(Mark::CloseBrace),
        b'[' => Some(Mark::OpenBracket),
        b']' => Some(Mark::CloseBracket),
        b'(' => Some(Mark::OpenParen),
        b')' => Some(Mark::CloseParen),
        b';' => Some(Mark::Semicolon),
        b'|' => Some(Mark::Bar),
        b':' => Some(Mark::Colon),
        b'=' => Some(Mark::Equals),
        b',' => Some(Mark::Comma),
        b'$' => Some(Mark::Dollar),
        b'~' => Some(Mark::Tilde),
        b'/' => Some(Mark::And),
        b'\\' => Some(Mark::Or),
        _ => None,
    }
}

fn word_front(bytes: &[u8]) -> Front<'_>
    requires { is_letter (slice_index bytes.now 0) ≡ true }
    ensures { IsFront bytes.now result }
{
    let (word, rest) = bytes.split_at(word_len(bytes));
    Front::Token(Lexeme::Word(word), rest)
}

fn number_front(bytes: &[u8]) -> Front<'_>
    requires { is_ascii_digit (slice_index bytes.now 0) ≡ true }
    ensures { IsFront bytes.now result }
{
    let (digits, rest) = bytes.split_at(digits_len(bytes));
    if begins_with_letter(rest) {
        return Front::Bad(Bad::Number);
    }
    match value_up_to(u32::MAX as u64, digits) {
        Some(number) => Front::Token(Lexeme::Number(number as u32), rest),
        None => Front::Bad(Bad::Number),
    }
}

/// A text that begins with `(*`.
fn comment_front(bytes: &[u8]) -> Front<'_>
    requires long { 2 ≤ length bytes.now }
    requires opens { opens bytes.now ≡ true }
    ensures { IsFront bytes.now result }
{
    match after_comment(skip(bytes, 2)) {
        Some(rest) => Front::Space(rest),
        None => Front::Bad(Bad::Unfinished),
    }
}

fn mark_front(bytes: &[u8], mark: Mark) -> Front<'_>
    requires some { 0 < length bytes.now }
    requires first { mark_from (slice_index bytes.now 0) ≡ Some mark }
    requires no_comment { opens bytes.now ≡ false }
    ensures { IsFront bytes.now result }
{
    let text = mark.text();
    if bytes.starts_with(text) {
        Front::Token(Lexeme::Mark(mark), bytes.split_at(text.len()).1)
    } else if bytes.len() < text.len() {
        Front::Bad(Bad::Unfinished)
    } else {
        Front::Bad(Bad::Stray)
    }
}

fn front_of(bytes: &[u8]) -> Front<'_>
    requires { 0 < length bytes.now }
    ensures { IsFront bytes.now result }
{
    let first = bytes[0];
    if is_white_space(first) {
        Front::Space(bytes.split_at(1).1)
    } else if is_letter(first) {
        word_front(bytes)
    } else if first.is_ascii_digit() {
        number_front(bytes)
    } else if first == b'-' {
        Front::Bad(Bad::Minus)
    } else if opens(bytes) {
        comment_front(bytes)
    } else {
        match mark_from(first) {
            Some(mark) => mark_front(bytes, mark),
            None => Front::Bad(Bad::Stray),
        }
    }
}

/// The line after so many bytes of a text that begins on the given line.
fn line_after(bytes: &[u8], line: u32) -> u32 {
    let mut line = line;
    for byte in bytes {
        if *byte == b'\n' {
            line = line.saturating_add(1);
        }
    }
    line
}

/// The line to tell: where the text stops for what is unfinished, and otherwise where it begins.
fn bad_line(bad: Bad, line: u32, end_line: u32) -> u32 {
    match bad {
        Bad::Unfinished => end_line,
        Bad::Number | Bad::Minus | Bad::Stray => line,
    }
}

/// The tokens of a text whose first byte stands on the given line. Where no token can stand, the last of them is `Bad`.
pub fn lex(alloc: Global, bytes: &[u8], first_line: u32) -> Result<Tokens, AllocError>
    ensures lexes { IfOk result (λ tokens. LexesTo bytes.now tokens) }
    ensures only { IfOk result (λ tokens. (ts : List Tok) → LexesTo bytes.now ts → tokens ≡ ts) }
    ensures found { IfOk result (λ tokens. AreAllTokens tokens → Lexes bytes.now tokens) }
{
    let end_line = line_after(bytes, first_line);
    let mut tokens = Vec::new(alloc);
    let mut lines = Vec::new(alloc);
    let mut line = first_line;
    let mut rest = bytes;
    while !rest.is_empty() {
        match front_of(rest) {
            Front::Space(after) => {
                let skipped = rest.len().saturating_sub(after.len());
                line = line_after(rest.split_at(skipped).0, line);
                rest = after;
            }
            Front::Token(lexeme, after) => {
                tokens.push(token_of(alloc, lexeme)?)?;
                lines.push(line)?;
                rest = after;
            }
            Front::Bad(bad) => {
                tokens.push(Token::Bad(bad))?;
                lines.push(bad_line(bad, line, end_line))?;
                return Ok(Tokens {
                    tokens,
                    lines,
                    end_line,
                });
            }
        }
    }
    Ok(Tokens {
        tokens,
        lines,
        end_line,
    })
}
