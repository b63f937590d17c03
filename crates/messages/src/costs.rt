//! Cost files that can't be read.

use crate::message::Message;
use cost_text::CostTextFault;
use gap_sets::CostFault;
use litmus_lines::bytes_from;
use litmus_reader::read_litmus;
use litmus_rules::{Source, line_start};
use std::alloc::{AllocError, Global};
use text_tokens::{are_digits, line_spaces_len, value_up_to};
use tso_program::Program;

/// The offsets of what a line of a cost file says, in its text.
#[derive(Clone, Copy)]
struct Pieces {
    /// The first gap.
    gap: usize,
    /// What follows the gaps.
    cost: usize,
    /// What follows the cost.
    more: usize,
}

/// The offset of the next piece after the one at an offset.
fn next_piece(source: Source<'_>, offset: usize) -> usize {
    let after = offset.saturating_add(source.piece(offset).len());
    after.saturating_add(line_spaces_len(bytes_from(source.text, after)))
}

/// The offset of the first piece from an offset on that is no gap.
fn after_gaps(source: Source<'_>, offset: usize) -> usize {
    let mut at = offset;
    for _ in 0..source.text.len() {
        if !is_gap(source.piece(at)) {
            return at;
        }
        at = next_piece(source, at);
    }
    at
}

/// Whether the places in two pieces that are gaps are the same.
fn is_same_gap(piece: &[u8], other: &[u8]) -> bool {
    let mut numbers = piece.split(|byte| *byte == b':');
    let mut others = other.split(|byte| *byte == b':');
    let threads = (numbers.next().unwrap_or(b""), others.next().unwrap_or(b""));
    let instructions = (numbers.next().unwrap_or(b""), others.next().unwrap_or(b""));
    is_same_number(threads.0, threads.1) && is_same_number(instructions.0, instructions.1)
}

fn is_same_number(digits: &[u8], others: &[u8]) -> bool {
    significant(digits) == significant(others)
}

/// Digits without the zeros before them.
fn significant(digits: &[u8]) -> &[u8] {
    let zeros = digits.iter().take_while(|digit| **digit == b'0').count();
    bytes_from(digits, zeros)
}

/// The offset of the first gap of a line that the text names before it.
fn repeated_gap(source: Source<'_>, pieces: Pieces) -> usize {
    let mut at = pieces.gap;
    for _ in 0..source.text.len() {
        if at >= pieces.cost || is_named_before(source, at) {
            break;
        }
        at = next_piece(source, at);
    }
    if at < pieces.cost { at } else { pieces.gap }
}

/// Whether the gap at an offset stands in the text before it.
fn is_named_before(source: Source<'_>, offset: usize) -> bool {
    let gap = source.piece(offset);
    let before = source.text.split_at(offset.min(source.text.len())).0;
    for piece in before.split(|byte| matches!(*byte, b' ' | b'\t' | b'\r' | b'\n')) {
        if is_gap(piece) && is_same_gap(piece, gap) {
            return true;
        }
    }
    false
}

/// The offset of the first gap of a line that the program of a litmus text lacks.
fn lacking_gap(alloc: Global, source: Source<'_>, pieces: Pieces, litmus: &[u8]) -> usize {
    match read_litmus(alloc, litmus) {
        Ok(litmus) => {
            let lacking = first_lacking(source, pieces, &litmus.program);
            drop(litmus);
            lacking
        }
        Err(_) => pieces.gap,
    }
}

/// The offset of the first gap of a line that a program lacks.
fn first_lacking(source: Source<'_>, pieces: Pieces, program: &Program) -> usize {
    let mut at = pieces.gap;
    for _ in 0..source.text.len() {
        if at >= pieces.cost || !has_gap(program, source.piece(at)) {
            break;
        }
        at = next_piece(source, at);
    }
    if at < pieces.cost { at } else { pieces.gap }
}

/// Whether the program has the gap in a piece.
fn has_gap(program: &Program, piece: &[u8]) -> bool {
    let mut numbers = piece.split(|byte| *byte == b':');
    let thread = number_of(numbers.next().unwrap_or(b""));
    let instruction = number_of(numbers.next().unwrap_or(b""));
    match (thread, instruction) {
        (Some(thread), Some(k)) => program.gap_number(thread, k).is_some(),
        _ => false,
    }
}

/// The number of a thread or an instruction, where these are digits.
fn number_of(digits: &[u8]) -> Option<u8> {
    if !are_digits(digits) {
        return None;
    }
    match value_up_to(u64::from(u8::MAX), digits) {
        Some(number) => Some(number as u8),
        None => None,
    }
}

fn pieces_of(source: Source<'_>, line: usize) -> Pieces {
    let start = line_start(source.text, line);
    let gap = start.saturating_add(line_spaces_len(bytes_from(source.text, start)));
    let cost = after_gaps(source, next_piece(source, gap));
    let more = next_piece(source, cost);
    Pieces { gap, cost, more }
}

/// Whether these are digits, `:` and digits.
fn is_gap(piece: &[u8]) -> bool {
    let mut numbers = piece.split(|byte| *byte == b':');
    let thread = numbers.next().unwrap_or(b"");
    let instruction = numbers.next().unwrap_or(b"");
    is_number(thread) && is_number(instruction) && numbers.next().is_none()
}

fn is_number(bytes: &[u8]) -> bool {
    !bytes.is_empty() && are_digits(bytes)
}

/// What is said of a line that is not of the form of a cost line.
fn line_message(alloc: Global, source: Source<'_>, pieces: Pieces) -> Result<Message, AllocError> {
    let (offset, said) = if source.piece(pieces.gap).starts_with(b"#") {
        (
            pieces.gap,
            "begins a comment, which a cost file cannot have",
        )
    } else if !is_gap(source.piece(pieces.gap)) {
        (
            pieces.gap,
            "is no gap; a line is a gap and its cost, as `0:1 5`",
        )
    } else if !is_number(source.piece(pieces.cost)) {
        (
            pieces.cost,
            "is no cost; a line is a gap and its cost, as `0:1 5`",
        )
    } else {
        (
            pieces.more,
            "cannot stand after a cost; a cost file has no comments",
        )
    };
    let piece = source.piece(offset);
    let word = if piece.is_empty() { b"\n" } else { piece };
    Message::at_word(alloc, source, offset, word, said)
}

/// The gaps of the program of a litmus text, from the first to the last of each thread.
fn gaps_text(alloc: Global, program: &Program) -> Result<String, AllocError> {
    let mut text = String::new(alloc);
    for (thread, own) in program.threads().iter().enumerate() {
        push_gaps(&mut text, thread, own.code.len().saturating_sub(1))?;
    }
    if text.is_empty() {
        text.push_str("no gap")?;
    }
    Ok(text)
}

/// Puts the gaps of a thread at the end of those of others, where the last of its gaps has this number.
fn push_gaps(text: &mut String, thread: usize, last: usize) -> Result<(), AllocError> {
    let comma = if text.is_empty() { "" } else { ", " };
    match last {
        0 => {}
        1 => write!(text, "{comma}{thread}:1")?,
        _ => write!(text, "{comma}{thread}:1 to {thread}:{last}")?,
    }
    Ok(())
}

/// The gaps of the program of a litmus text.
fn gaps_of(alloc: Global, litmus: &[u8]) -> Result<String, AllocError> {
    match read_litmus(alloc, litmus) {
        Ok(litmus) => {
            let gaps = gaps_text(alloc, &litmus.program);
            drop(litmus);
            gaps
        }
        Err(_) => String::from_str(alloc, "others"),
    }
}

/// Says in a message that the program of a litmus text lacks the gap that is its word.
fn say_missing(alloc: Global, message: &mut Message, litmus: &[u8]) -> Result<(), AllocError> {
    let gaps = gaps_of(alloc, litmus)?;
    let gap = message.word.as_str();
    message.text = format!(in alloc; "gap {gap} is not a gap of this program; it has {gaps}")?;
    Ok(())
}

/// The message that the program of a litmus text lacks the gap that is its word.
pub(crate) fn missing_gap(
    alloc: Global,
    mut message: Message,
    litmus: &[u8],
) -> Result<Message, AllocError> {
    let written = say_missing(alloc, &mut message, litmus);
    message.if_written(written)
}

/// What is said of a line with a gap that the program of a litmus text lacks.
fn missing_gap_message(
    alloc: Global,
    source: Source<'_>,
    pieces: Pieces,
    litmus: &[u8],
) -> Result<Message, AllocError> {
    let at = lacking_gap(alloc, source, pieces, litmus);
    let message = Message::at_word(alloc, source, at, source.piece(at), "")?;
    missing_gap(alloc, message, litmus)
}

fn cost_message(
    alloc: Global,
    source: Source<'_>,
    pieces: Pieces,
    fault: CostFault,
) -> Result<Message, AllocError> {
    let said = match fault {
        CostFault::Zero(_) => "is too small; a cost is from 1 to 1000000",
        _ => "is too large; a cost is from 1 to 1000000",
    };
    Message::at_word(alloc, source, pieces.cost, source.piece(pieces.cost), said)
}

/// Why a text does not give costs for the program of a litmus text.
pub fn costs_message(
    alloc: Global,
    source: Source<'_>,
    fault: CostTextFault,
    litmus: &[u8],
) -> Result<Message, AllocError> {
    match fault {
        CostTextFault::Line(line) => line_message(alloc, source, pieces_of(source, line)),
        CostTextFault::NoSuchGap(line) => {
            missing_gap_message(alloc, source, pieces_of(source, line), litmus)
        }
        CostTextFault::Repeated(line) => {
            let gap = repeated_gap(source, pieces_of(source, line));
            let said = "has a cost by an earlier line";
            Message::at_word(alloc, source, gap, source.piece(gap), said)
        }
        CostTextFault::Cost(line, inner) => {
            cost_message(alloc, source, pieces_of(source, line), inner)
        }
        CostTextFault::OutOfMemory => Message::of_file(alloc, source.name, "out of memory"),
    }
}
