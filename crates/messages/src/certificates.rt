//! Certificates that can't be read, or don't show what they claim.

use crate::message::Message;
use cert_forest::{CertFault, CheckFault};
use litmus_lines::bytes_from;
use litmus_rules::{Source, line_of};
use std::alloc::{AllocError, Global};

/// What is said of a carriage return.
const CARRIAGE_RETURN: &str =
    "is a carriage return; each line of a certificate ends with a line feed alone";

/// What is said of the bytes at an offset of a certificate.
fn byte_message(
    alloc: Global,
    source: Source<'_>,
    offset: usize,
    said: &str,
) -> Result<Message, AllocError> {
    let piece = source.piece(offset);
    let rest = bytes_from(source.text, offset);
    let word = if piece.is_empty() {
        rest.split_at(rest.len().min(1)).0
    } else {
        piece
    };
    Message::at_word(alloc, source, offset, word, said)
}

/// Why bytes are no certificate's text.
pub fn certificate_message(
    alloc: Global,
    source: Source<'_>,
    fault: CertFault,
) -> Result<Message, AllocError> {
    let (offset, said) = match fault {
        CertFault::Header => (
            0,
            "cannot stand here; a certificate begins with `FENCECERT 1`, `FENCECERT 2` or `FENCECERT 4`",
        ),
        CertFault::Token(offset) => (offset, "cannot stand here (docs/formats.md)"),
        CertFault::Number(offset) => (offset, "has a leading zero, or is past its limit"),
        CertFault::TooDeep(offset) => (offset, "begins a node that is deeper than its tree may be"),
        CertFault::TooMany(offset) => (offset, "is, or counts, more than 1024"),
        CertFault::Ended => (source.text.len(), "ends here, and more is needed"),
        CertFault::Trailing(offset) => (offset, "follows the last line"),
        CertFault::OutOfMemory => return Message::of_file(alloc, source.name, "out of memory"),
    };
    match carriage_return(source.text, offset) {
        Some(offset) => Message::at_word(alloc, source, offset, b"\r", CARRIAGE_RETURN),
        None => byte_message(alloc, source, offset, said),
    }
}

/// The carriage return with which a line of a certificate ends, where the line goes on from an offset.
fn carriage_return(text: &[u8], offset: usize) -> Option<usize> {
    let line = line_of(bytes_from(text, offset));
    if text.starts_with(b"FENCECERT ") && line.ends_with(b"\r") {
        Some(offset.saturating_add(line.len()).saturating_sub(1))
    } else {
        None
    }
}

/// The number, from 1, of the line that is so many lines below the first with this name.
fn line_below(text: &[u8], name: &[u8], below: usize) -> usize {
    let first = text
        .split(|byte| *byte == b'\n')
        .position(|line| line.starts_with(name));
    first.unwrap_or(0).saturating_add(below).saturating_add(1)
}

/// The name of the line that is at fault, and how many lines below it that is.
fn line_at_fault(fault: &CheckFault) -> (&'static [u8], usize) {
    match fault {
        CheckFault::Shown => (b"shown", 0),
        CheckFault::Set => (b"set", 0),
        CheckFault::Cost => (b"cost ", 0),
        CheckFault::SequentialRun(run) => (b"seq ", run.saturating_add(1)),
        CheckFault::SequentialTree(_) => (b"tree ", 0),
        CheckFault::Run(run) | CheckFault::NotForeign(run) => (b"runs ", run.saturating_add(1)),
        CheckFault::FencedTree(_) => (b"fenced ", 0),
        CheckFault::GapTree(_) | CheckFault::OutOfMemory => (b"gaps ", 0),
    }
}

/// What an author may do, after a fault of a certificate that was not made for these texts.
fn said_of_origin(fault: &CheckFault) -> &'static str {
    match fault {
        CheckFault::Cost => {
            "; a certificate made with `--costs FILE` needs the same FILE as third argument"
        }
        CheckFault::Set | CheckFault::SequentialRun(_) | CheckFault::Run(_) => {
            "; the certificate may be of another or an older text: write it anew with `fencer place --certificate`"
        }
        _ => "",
    }
}

/// Why a certificate doesn't show what it claims, with its line; a node is named by its path.
pub fn check_message(
    alloc: Global,
    source: Source<'_>,
    fault: &CheckFault,
) -> Result<Message, AllocError> {
    let text = format!(in alloc; "{fault}{}", said_of_origin(fault))?;
    if matches!(fault, CheckFault::OutOfMemory) {
        return Message::of_file(alloc, source.name, text.as_str());
    }
    let (name, below) = line_at_fault(fault);
    let line = line_below(source.text, name, below);
    Message::at_line(alloc, source, line, text.as_str())
}
