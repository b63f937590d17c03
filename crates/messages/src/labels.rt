//! Labels that are no run.

use crate::message::Message;
use std::alloc::{AllocError, Global};
use text_tokens::is_white_space;
use tso_machine::{ReplayFault, RunFault};

/// What messages call the labels of a command line.
const LABELS: &str = "labels";

/// The words of a label as it is given, of which there is mostly one.
fn words_len(label: &[u8]) -> usize {
    label
        .split(|byte| is_white_space(*byte))
        .filter(|word| !word.is_empty())
        .count()
}

fn word_in(label: &[u8], index: usize) -> &[u8] {
    let mut words = label
        .split(|byte| is_white_space(*byte))
        .filter(|word| !word.is_empty());
    words.nth(index).unwrap_or(b"")
}

/// The word of this index, from 0, in labels.
fn word_of(labels: &[String], index: usize) -> &[u8] {
    let mut left = index;
    for label in labels {
        let words = words_len(label.as_bytes());
        if left < words {
            return word_in(label.as_bytes(), left);
        }
        left -= words;
    }
    b""
}

/// What is said about one of the labels of a command line, after the label itself. Its line is its number, from 1.
fn label_message(
    alloc: Global,
    labels: &[String],
    index: usize,
    said: &str,
) -> Result<Message, AllocError> {
    let mut message = Message::of_word(alloc, LABELS, word_of(labels, index))?;
    message.line = Some(index.saturating_add(1));
    let written = write!(message.text, "{}{said}", message.word);
    message.if_written(written)
}

/// Why a text is no list of labels.
pub fn run_message(
    alloc: Global,
    name: &str,
    labels: &[String],
    fault: RunFault,
) -> Result<Message, AllocError> {
    match fault {
        RunFault::Token(index) => {
            let said = " is no label; these are `e` and `f` with a thread's number, as `e0`";
            label_message(alloc, labels, index, said)
        }
        RunFault::OutOfMemory => Message::of_file(alloc, name, "out of memory"),
    }
}

/// Why labels are no run of the program of a file.
pub fn replay_message(
    alloc: Global,
    name: &str,
    labels: &[String],
    fault: ReplayFault,
) -> Result<Message, AllocError> {
    match fault {
        ReplayFault::NoSuchThread(step)
        | ReplayFault::AtEnd(step)
        | ReplayFault::BufferEmpty(step)
        | ReplayFault::FenceWaits(step) => {
            let said = format!(in alloc; ": {fault}{}", said_of_machine(fault))?;
            label_message(alloc, labels, step, said.as_str())
        }
        ReplayFault::NotEnded(_) => {
            let said = format!(in alloc;
                "{fault}: labels must lead to the end of every thread and empty every buffer; `fencer witness` and `fencer outcomes --runs` print such labels"
            )?;
            Message::of_file(alloc, LABELS, said.as_str())
        }
        ReplayFault::OutOfMemory => Message::of_file(alloc, name, "out of memory"),
    }
}

/// What is said of a machine, after a step that is not possible.
fn said_of_machine(fault: ReplayFault) -> &'static str {
    match fault {
        ReplayFault::BufferEmpty(_) => "; the sequential machine has no f steps",
        _ => "",
    }
}
