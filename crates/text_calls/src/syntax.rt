//! Calls of `litmus_syntax`.

use crate::input::{number_of, word_at};
use crate::refusal::TextRefusal;
use litmus_syntax::{Body, Ending, read_body, read_ending};
use std::alloc::{AllocError, Global};
use text_tokens::{Token, lex};

fn push_parts(body: &Body, left: usize, printed: &mut String) -> Result<(), AllocError> {
    write!(
        printed,
        "entries {:?}\nthreads {}\nrows {:?}\nleft {left}\n",
        body.entries, body.threads, body.rows
    )
}

fn push_of_tokens(
    alloc: Global,
    tokens: &[Token],
    printed: &mut String,
) -> Result<(), TextRefusal> {
    let (body, rest) = read_body(alloc, tokens)?;
    Ok(push_parts(&body, rest.len(), printed)?)
}

/// What a body has, and how many tokens follow it.
pub fn push_body(alloc: Global, text: &[u8], printed: &mut String) -> Result<(), TextRefusal> {
    let tokens = lex(alloc, text, 1)?;
    push_of_tokens(alloc, tokens.as_slice(), printed)
}

fn push_ending_parts(ending: &Ending, printed: &mut String) -> Result<(), AllocError> {
    write!(
        printed,
        "observed {:?}\nquantifier {:?}\nsigns {:?}\n",
        ending.observed, ending.quantifier, ending.signs
    )
}

fn push_ending_of(
    alloc: Global,
    tokens: &[Token],
    threads: u32,
    printed: &mut String,
) -> Result<(), TextRefusal> {
    let ending = read_ending(alloc, tokens, threads as usize)?;
    Ok(push_ending_parts(&ending, printed)?)
}

/// What the ending of a test of so many threads has.
pub fn push_ending(
    alloc: Global,
    words: &[&[u8]],
    text: &[u8],
    printed: &mut String,
) -> Result<(), TextRefusal> {
    let threads = number_of(word_at(words, 0)?)?;
    let tokens = lex(alloc, text, 1)?;
    push_ending_of(alloc, tokens.as_slice(), threads, printed)
}
