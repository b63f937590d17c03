//! Calls of `report` that say what outcomes show of a condition.

use crate::input::{named, number_of, push_bytes, word_at};
use crate::refusal::TextRefusal;
use conditions::{Atom, Condition, Quantifier, Token, read_formula};
use report::{condition_line, observation_line};
use std::alloc::{AllocError, Global};
use tso_program::{Items, Outcome};

const QUANTIFIERS: [(&[u8], Quantifier); 3] = [
    (b"exists", Quantifier::Exists),
    (b"~exists", Quantifier::NotExists),
    (b"forall", Quantifier::Forall),
];

/// That location 0 ends as 1.
const ENDS_AS_ONE: [Token; 1] = [Token::Atom(Atom::Location {
    location: 0,
    value: 1,
})];

/// The outcome in which location 0 ends with the value of a word.
fn outcome_of(alloc: Global, word: &[u8]) -> Result<Outcome, TextRefusal> {
    let last = number_of(word)?;
    Ok(Outcome {
        registers: Items::of(Vec::new(alloc)),
        memory: Items::of(Vec::from_slice(alloc, &[last])?),
    })
}

/// An outcome for each word from the second argument on.
fn outcomes_of(alloc: Global, words: &[&[u8]]) -> Result<Vec<Outcome>, TextRefusal> {
    let mut outcomes = Vec::new(alloc);
    for word in words.iter().skip(1) {
        outcomes.push(outcome_of(alloc, word)?)?;
    }
    Ok(outcomes)
}

/// The condition that location 0 ends as 1.
fn condition_of(alloc: Global, word: &[u8]) -> Result<Condition, TextRefusal> {
    let quantifier = named(&QUANTIFIERS, word)?;
    Ok(Condition {
        quantifier,
        formula: read_formula(alloc, &ENDS_AS_ONE)?,
    })
}

fn push_lines(
    alloc: Global,
    condition: &Condition,
    outcomes: &[Outcome],
    printed: &mut String,
) -> Result<(), AllocError> {
    push_bytes(printed, &observation_line(alloc, condition, outcomes)?)?;
    push_bytes(printed, &condition_line(alloc, condition, outcomes)?)
}

fn push_of_condition(
    alloc: Global,
    condition: &Condition,
    words: &[&[u8]],
    printed: &mut String,
) -> Result<(), TextRefusal> {
    let outcomes = outcomes_of(alloc, words)?;
    Ok(push_lines(alloc, condition, outcomes.as_slice(), printed)?)
}

/// What outcomes show of the condition that location 0 ends as 1.
pub fn push_observed(
    alloc: Global,
    words: &[&[u8]],
    printed: &mut String,
) -> Result<(), TextRefusal> {
    let condition = condition_of(alloc, word_at(words, 0)?)?;
    push_of_condition(alloc, &condition, words, printed)
}
