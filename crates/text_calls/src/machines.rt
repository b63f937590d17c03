//! Calls of `tso_machine`, and the order of outcomes.

use crate::input::{gap_set_at, named, numbers_of, push_bytes, split_line, word_at, words_of};
use crate::refusal::TextRefusal;
use crate::sets::push_gaps;
use std::alloc::{AllocError, Global};
use std::cmp::Ordering;
use tso_machine::{Ended, Label, Model, read_run, replay, write_run};
use tso_program::{Items, Outcome, Program};

const MODELS: [(&[u8], Model); 2] = [
    (b"sequential", Model::Sequential),
    (b"buffered", Model::Buffered),
];

/// The labels that words spell, from the word with this index on.
pub fn labels_from(
    alloc: Global,
    words: &[&[u8]],
    index: usize,
) -> Result<Vec<Label>, TextRefusal> {
    let mut labels = Vec::new(alloc);
    for word in words.iter().skip(index) {
        labels.extend_from_slice(&read_run(alloc, word)?)?;
    }
    Ok(labels)
}

/// The registers of each thread and the values of memory.
pub fn push_outcome(outcome: &Outcome, printed: &mut String) -> Result<(), AllocError> {
    write!(
        printed,
        "registers {:?}\nmemory {:?}",
        outcome.registers.as_slice(),
        outcome.memory.as_slice()
    )
}

fn push_ended(alloc: Global, ended: &Ended, printed: &mut String) -> Result<(), TextRefusal> {
    push_outcome(&ended.outcome, printed)?;
    printed.push_str("\npassed ")?;
    Ok(push_gaps(alloc, &ended.passed, printed)?)
}

/// The end of a run in a machine: the first two words are the machine and the gaps that are fenced.
fn ended(
    alloc: Global,
    words: &[&[u8]],
    program: &Program,
    labels: &[Label],
) -> Result<Ended, TextRefusal> {
    let model = named(&MODELS, word_at(words, 0)?)?;
    let fenced = gap_set_at(alloc, words, 1)?;
    Ok(replay(alloc, program, &fenced, model, labels)?)
}

/// The outcome of a run, and the gaps that it passed.
pub fn push_replayed(
    alloc: Global,
    words: &[&[u8]],
    program: &Program,
    printed: &mut String,
) -> Result<(), TextRefusal> {
    let labels = labels_from(alloc, words, 2)?;
    let ended = ended(alloc, words, program, labels.as_slice())?;
    push_ended(alloc, &ended, printed)
}

fn push_labels(alloc: Global, labels: &[Label], printed: &mut String) -> Result<(), AllocError> {
    write!(printed, "{labels:?}\n")?;
    push_bytes(printed, &write_run(alloc, labels)?)?;
    printed.push('\n')
}

/// The labels of a run text, and the text that is written for them.
pub fn push_run(alloc: Global, text: &[u8], printed: &mut String) -> Result<(), TextRefusal> {
    let labels = read_run(alloc, text)?;
    Ok(push_labels(alloc, labels.as_slice(), printed)?)
}

/// The numbers of a word are the registers of a thread if there are six, and else values of memory.
fn push_word(
    numbers: &[u32],
    registers: &mut Vec<[u32; 6]>,
    memory: &mut Vec<u32>,
) -> Result<(), AllocError> {
    if numbers.len() != 6 {
        return memory.extend_from_slice(numbers);
    }
    let mut six = [0; 6];
    six.copy_from_slice(numbers);
    Ok(registers.push(six)?)
}

fn push_words(
    alloc: Global,
    words: &[&[u8]],
    registers: &mut Vec<[u32; 6]>,
    memory: &mut Vec<u32>,
) -> Result<(), TextRefusal> {
    for word in words {
        push_word(&numbers_of(alloc, word)?, registers, memory)?;
    }
    Ok(())
}

/// An outcome: a word of six numbers for each thread, and a word of the values of memory.
pub fn outcome_of(alloc: Global, words: &[&[u8]]) -> Result<Outcome, TextRefusal> {
    let mut registers = Vec::new(alloc);
    let mut memory = Vec::new(alloc);
    push_words(alloc, words, &mut registers, &mut memory)?;
    Ok(Outcome {
        registers: Items::of(registers),
        memory: Items::of(memory),
    })
}

/// The outcome of a line.
pub fn outcome_in(alloc: Global, line: &[u8]) -> Result<Outcome, TextRefusal> {
    let words = words_of(alloc, line)?;
    outcome_of(alloc, words.as_slice())
}

fn order_of(first: &Outcome, second: &Outcome) -> &'static str {
    match first.cmp(second) {
        Ordering::Less => "less",
        Ordering::Equal => "equal",
        Ordering::Greater => "greater",
    }
}

fn push_order(
    alloc: Global,
    first: &Outcome,
    second: &Outcome,
    printed: &mut String,
) -> Result<(), TextRefusal> {
    let same = first.copy(alloc)? == *first;
    let order = order_of(first, second);
    Ok(write!(printed, "{order}, copy the same {same}\n")?)
}

/// How the outcomes of two lines are ordered, and whether a copy of the first is the same.
pub fn push_compared(alloc: Global, text: &[u8], printed: &mut String) -> Result<(), TextRefusal> {
    let (line, rest) = split_line(text);
    let first = outcome_in(alloc, line)?;
    let second = outcome_in(alloc, split_line(rest).0)?;
    push_order(alloc, &first, &second, printed)
}
