//! Litmus texts that can't be read.

use crate::message::Message;
use crate::programs::program_message;
use crate::rows::row_message;
use litmus_lines::{PlacedTokens, bytes_from, open_comment, read_first_line, skip_lines};
use litmus_reader::{ReadFault, refusal_of};
use litmus_rules::{
    COMMENT, OPEN_COMMENT, Source, begins_foreign_comment, line_of, line_start, row_fault, said_of,
    spot_of, word_at,
};
use litmus_syntax::{Part, Refusal};
use std::alloc::{AllocError, Global};
use std::str;
use text_tokens::{Mark, Token, begins, line_spaces_len};

/// What is said of a first line that begins so.
const FIRST_LINES: &[(&str, &str)] = &[
    (
        "\u{feff}",
        "is a byte order mark, with which no litmus text begins",
    ),
    (
        "(*",
        "begins a comment, which cannot stand before the first line, `X86` and a name",
    ),
    (
        "//",
        "begins no comment; comments stand in `(* *)`, and none before the first line, `X86` and a name",
    ),
    (
        "#",
        "begins no comment; comments stand in `(* *)`, and none before the first line, `X86` and a name",
    ),
    (
        "FENCECERT ",
        "begins a certificate; `fencecheck` takes the litmus file first, and then the certificate",
    ),
    (
        "X86_64",
        "is not read; write X86, with registers of 32 bits",
    ),
    (
        "X86 ",
        "is followed by one name without spaces, and nothing else",
    ),
    (
        "X86\t",
        "is followed by one name without spaces, and nothing else",
    ),
    ("X86\n", "is followed by a name, as `X86 SB`"),
    ("X86\r", "is followed by a name, as `X86 SB`"),
    ("x86", "is written X86"),
];

/// Why a text isn't a litmus text.
pub fn litmus_message(
    alloc: Global,
    source: Source<'_>,
    fault: ReadFault,
) -> Result<Message, AllocError> {
    match fault {
        ReadFault::NotUtf8(_) => utf8_message(alloc, source),
        ReadFault::OutOfMemory => Message::of_file(alloc, source.name, "out of memory"),
        _ => match read_first_line(source.text) {
            Ok((_, lines)) => lines_message(alloc, source, lines, fault),
            Err(_) => first_line_message(alloc, source, fault),
        },
    }
}

/// What is said of the first byte that is not UTF-8.
fn utf8_message(alloc: Global, source: Source<'_>) -> Result<Message, AllocError> {
    let offset = match str::from_utf8(source.text) {
        Ok(_) => 0,
        Err(error) => error.valid_up_to(),
    };
    let rest = bytes_from(source.text, offset);
    let byte = rest.split_at(rest.len().min(1)).0;
    Message::at_word(alloc, source, offset, byte, "is not UTF-8")
}

fn said_of_first_line(line: &[u8]) -> &'static str {
    for (front, said) in FIRST_LINES {
        if line.starts_with(front.as_bytes()) {
            return said;
        }
    }
    "cannot stand here; the first line is `X86` and a name"
}

fn first_line_message(
    alloc: Global,
    source: Source<'_>,
    fault: ReadFault,
) -> Result<Message, AllocError> {
    match fault {
        ReadFault::Ended(_) => {
            let said = "ends in its first line, which is `X86` and a name";
            Message::at_word(alloc, source, source.text.len(), b"", said)
        }
        _ => {
            let said = said_of_first_line(source.text);
            Message::at_word(alloc, source, 0, word_at(source.text), said)
        }
    }
}

/// What is said of a text after its first line.
fn lines_message(
    alloc: Global,
    source: Source<'_>,
    lines: &[u8],
    fault: ReadFault,
) -> Result<Message, AllocError> {
    match skip_lines(source.text, lines) {
        Ok(_) => tokens_message(alloc, source, fault),
        Err(_) => skipped_message(alloc, source, lines, fault),
    }
}

/// What is said of the word with which a line between the first one and `{` begins.
fn said_of_skipped(line: &[u8]) -> &'static str {
    if begins_foreign_comment(line) {
        COMMENT
    } else {
        "cannot stand here; initial values come next, `{ }` at least, and before them lines in quotes or `NAME=..`"
    }
}

/// What is said of a line between the first one and `{`, where these lines follow the first one.
fn skipped_message(
    alloc: Global,
    source: Source<'_>,
    lines: &[u8],
    fault: ReadFault,
) -> Result<Message, AllocError> {
    match fault {
        ReadFault::Header(line) => {
            let start = line_start(source.text, line as usize);
            let blanks = line_spaces_len(bytes_from(source.text, start));
            let offset = start.saturating_add(blanks);
            let line = line_of(bytes_from(source.text, offset));
            Message::at_word(alloc, source, offset, word_at(line), said_of_skipped(line))
        }
        _ => {
            if let Some(rest) = open_comment(lines) {
                let offset = source.text.len().saturating_sub(rest.len());
                return Message::at_word(alloc, source, offset, b"(*", OPEN_COMMENT);
            }
            let said = "ends before its initial values, which are `{ }` at least";
            Message::at_word(alloc, source, source.text.len(), b"", said)
        }
    }
}

/// What is said of a text from `{` on.
fn tokens_message(
    alloc: Global,
    source: Source<'_>,
    fault: ReadFault,
) -> Result<Message, AllocError> {
    let tokens = PlacedTokens::of(alloc, source.text)?;
    let message = token_message(alloc, source, &tokens, fault);
    drop(tokens);
    message
}

/// What is said of a text from `{` on, which has these tokens.
fn token_message(
    alloc: Global,
    source: Source<'_>,
    tokens: &PlacedTokens<'_>,
    fault: ReadFault,
) -> Result<Message, AllocError> {
    match fault {
        ReadFault::Program(line, inner) => program_message(alloc, source, tokens, line, inner),
        _ => match refusal_of(alloc, tokens.as_slice()) {
            Ok(Some(refusal)) => refused_message(alloc, source, tokens, refusal),
            Ok(None) | Err(_) => Message::of_file(alloc, source.name, "out of memory"),
        },
    }
}

/// The refusal of the token of which something is said: of a jump to a name that is no label that name, which comes after
/// the mnemonic. A label has `:` after it.
fn said_refusal(tokens: &[Token], refusal: Refusal) -> Refusal {
    let index = tokens.len().saturating_sub(refusal.left);
    let next = index.saturating_add(1).min(tokens.len());
    let (_, after) = tokens.split_at(next);
    match refusal.part {
        Part::Label if !begins(after, Mark::Colon) => Refusal {
            part: Part::Label,
            left: refusal.left.saturating_sub(1),
        },
        _ => refusal,
    }
}

/// What is said of a token that is refused.
fn refused_message(
    alloc: Global,
    source: Source<'_>,
    tokens: &PlacedTokens<'_>,
    refusal: Refusal,
) -> Result<Message, AllocError> {
    let refusal = said_refusal(tokens.as_slice(), refusal);
    let spot = spot_of(tokens, refusal);
    match row_fault(tokens, refusal.left, &spot) {
        Some(fault) => row_message(alloc, source, &spot, fault),
        None => Message::at_word(alloc, source, spot.offset, spot.shown, said_of(&spot)),
    }
}
