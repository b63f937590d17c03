//! The tokens of a litmus text, and where they stand in it.

use crate::first_line::read_first_line;
use crate::lines::line_number;
use crate::offsets::{between, bytes_from};
use crate::open_comments::without_space;
use crate::skipped_lines::skip_lines;
use std::alloc::{AllocError, Global};
use text_tokens::{Token, Tokens, digits_len, lex};

/// The offsets of a token in its text: that of its first byte, and that after its last one.
#[derive(Clone, Copy)]
struct Span {
    start: usize,
    end: usize,
}

/// The tokens of a litmus text from its `{` on, with their places in the text.
#[derive(Drop)]
pub struct PlacedTokens<'t> {
    text: &'t [u8],
    tokens: Tokens,
    spans: Vec<Span>,
}

impl<'t> PlacedTokens<'t> {
    /// Those of a litmus text; of another text maybe none.
    pub fn of(alloc: Global, text: &'t [u8]) -> Result<PlacedTokens<'t>, AllocError> {
        let rest = from_brace(text);
        let first_line = line_number(text, text.len().saturating_sub(rest.len()));
        let tokens = lex(alloc, rest, first_line)?;
        let spans = spans_of(alloc, text.len(), rest, tokens.as_slice())?;
        Ok(PlacedTokens {
            text,
            tokens,
            spans,
        })
    }

    /// The tokens in order.
    pub fn as_slice(&self) -> &[Token] {
        self.tokens.as_slice()
    }

    /// The index of the token where so many tokens are left, this one included.
    pub fn index(&self, left: usize) -> usize {
        self.as_slice().len().saturating_sub(left)
    }

    /// The line where the token with this index begins, as [`Tokens::line`] says it.
    pub fn line(&self, index: usize) -> u32 {
        self.tokens.line(index)
    }

    /// The offset of the token with this index; past the last one that of the text's end.
    pub fn offset(&self, index: usize) -> usize {
        self.span(index).start
    }

    /// The text from the token with this index on.
    pub fn rest(&self, index: usize) -> &'t [u8] {
        bytes_from(self.text, self.offset(index))
    }

    /// The bytes of the token with this index; none of what is no token.
    pub fn bytes(&self, index: usize) -> &'t [u8] {
        let Span { start, end } = self.span(index);
        between(self.text, start, end)
    }

    /// The white space and the comments between the token with this index and the one before it.
    pub fn space_before(&self, index: usize) -> &'t [u8] {
        match index.checked_sub(1) {
            Some(before) => between(self.text, self.span(before).end, self.offset(index)),
            None => b"",
        }
    }

    fn span(&self, index: usize) -> Span {
        let end = self.text.len();
        let past = Span { start: end, end };
        self.spans.get(index).copied().unwrap_or(past)
    }
}

/// The end of a text from its `{` on.
fn from_brace(text: &[u8]) -> &[u8] {
    match read_first_line(text) {
        Ok((_, lines)) => skip_lines(text, lines).unwrap_or(b""),
        Err(_) => b"",
    }
}

/// The places of the tokens of the end of a text of so many bytes.
fn spans_of(
    alloc: Global,
    len: usize,
    rest: &[u8],
    tokens: &[Token],
) -> Result<Vec<Span>, AllocError> {
    let mut spans = Vec::new(alloc);
    let mut rest = rest;
    for token in tokens {
        rest = without_space(rest);
        let start = len.saturating_sub(rest.len());
        rest = bytes_from(rest, token_len(token, rest));
        let end = len.saturating_sub(rest.len());
        spans.push(Span { start, end })?;
    }
    Ok(spans)
}

/// How many bytes the token takes with which a text begins.
fn token_len(token: &Token, text: &[u8]) -> usize {
    match token {
        Token::Word(word) => word.len(),
        Token::Number(_) => digits_len(text),
        Token::Mark(mark) => mark.text().len(),
        Token::Bad(_) => 0,
    }
}
