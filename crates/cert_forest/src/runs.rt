//! Lines of runs.

ghost use Rattle.std.specs.Prelude.{◌≡◌, []};
ghost use Rattle.cert_words.specs.declared.numbers.TheConstants.{MAX_COUNT};
ghost use Rattle.text_tokens.specs.Steps.{Gives, GivesUnless};
ghost use Rattle.cert_words.specs.Words.{repeat_at, stops_for_memory};
ghost use Rattle.cert_forest.specs.Internal.Reading.{label_word_at, run_labels_at, run_at, runs_at};

use crate::run_list::Runs;
use cert_words::{
    MAX_COUNT, Stop, WordRefusal, Wrong, begins_word, end, first_word, name, number, refused,
    refused_unless_cut, refused_word, word,
};
use std::alloc::Global;
use text_tokens::are_digits;
use tso_machine::{Label, label_of};

/// What is wrong with a word that spells no label, and whether it could have gone on.
fn fault_of(word: &[u8]) -> (Wrong, bool) {
    match word.split_first() {
        None => (Wrong::Token, true),
        Some((first, digits)) => {
            let begins = *first == b'e' || *first == b'f';
            if begins && !digits.is_empty() && are_digits(digits) {
                (Wrong::Number, false)
            } else {
                (Wrong::Token, begins && digits.is_empty())
            }
        }
    }
}

/// A space, and a label.
#[tactic(auto, unfolding(crate::specs::Internal::Reading::label_word_at))]
fn label(bytes: &[u8]) -> Result<(Label, &[u8]), WordRefusal>
    ensures { Gives (λ x. (x.0, x.1.now)) result (label_word_at bytes.now) }
{
    let (word, rest) = word(bytes)?;
    match label_of(word) {
        Some(label) => Ok((label, rest)),
        None => {
            let (wrong, could_go_on) = fault_of(word);
            Err(refused_unless_cut(wrong, could_go_on, bytes, rest))
        }
    }
}

/// What is wrong where one label more than there may be begins.
fn one_too_many(bytes: &[u8]) -> WordRefusal {
    match bytes.split_first() {
        None => refused(Wrong::Ended, 0),
        Some((_, after)) => {
            let (word, rest) = first_word(after);
            if !word.is_empty() {
                refused_word(Wrong::TooMany, bytes)
            } else {
                refused_unless_cut(Wrong::Token, true, bytes, rest)
            }
        }
    }
}

/// Labels, as long as words follow.
fn labels(alloc: Global, bytes: &[u8]) -> Result<(Vec<Label>, &[u8]), Stop>
    ensures { GivesUnless stops_for_memory (λ x. (x.0.items, x.1.now)) result (run_labels_at MAX_COUNT [] bytes.now) }
{
    let mut found = Vec::new(alloc);
    let mut rest = bytes;
    for _ in 0..MAX_COUNT {
        if !begins_word(rest) {
            return Ok((found, rest));
        }
        let (label, after) = label(rest)?;
        found.push(label)?;
        rest = after;
    }
    if begins_word(rest) {
        return Err(Stop::Refused(one_too_many(rest)));
    }
    Ok((found, rest))
}

/// A run's line.
#[tactic(auto, unfolding(crate::specs::Internal::Reading::run_at))]
fn run(alloc: Global, bytes: &[u8]) -> Result<(Vec<Label>, &[u8]), Stop>
    ensures { GivesUnless stops_for_memory (λ x. (x.0.items, x.1.now)) result (run_at bytes.now) }
{
    let rest = name(b"run", bytes)?;
    let (labels, rest) = labels(alloc, rest)?;
    let rest = end(rest)?;
    Ok((labels, rest))
}

/// So many lines of runs.
fn run_lines(alloc: Global, count: u64, bytes: &[u8]) -> Result<(Runs, &[u8]), Stop>
    ensures { GivesUnless stops_for_memory (λ x. (x.0, x.1.now)) result (repeat_at run_at count [] bytes.now) }
{
    let mut found = Runs::new(alloc);
    let mut rest = bytes;
    for _ in 0..count {
        let (run, after) = run(alloc, rest)?;
        found.push(&run)?;
        rest = after;
    }
    Ok((found, rest))
}

/// A line with the number of runs, and their lines.
#[tactic(auto, unfolding(crate::specs::Internal::Reading::runs_at))]
pub(crate) fn runs<'t>(
    alloc: Global,
    first: &[u8],
    bytes: &'t [u8],
) -> Result<(Runs, &'t [u8]), Stop>
    ensures { GivesUnless stops_for_memory (λ x. (x.0, x.1.now)) result (runs_at first.now bytes.now) }
{
    let rest = name(first, bytes)?;
    let (count, rest) = number(u64::MAX, rest)?;
    let rest = end(rest)?;
    run_lines(alloc, count, rest)
}
