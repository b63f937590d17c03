//! What is said of a condition in the words of its quantifier.

ghost use Rattle.std.specs.Prelude.{◌≡◌, IfOk};
ghost use Rattle.json_values.specs.Sayings.{subject, verb_of, IsSaying, IsSentence};

use json_text::JsonText;
use litmus_text::{Litmus, Quantifier, push_condition};
use std::alloc::{AllocError, Global};
use tso_program::Program;

/// What a condition is about.
fn subject(quantifier: Quantifier) -> &'static [u8]
    ensures { result.now ≡ subject quantifier }
{
    match quantifier {
        Quantifier::Exists => b"what the condition asks about",
        Quantifier::NotExists => b"what must not happen",
        Quantifier::Forall => b"what must always hold",
    }
}

/// Of what something is said.
#[derive(Clone, Copy)]
pub enum Scope {
    /// Of one run, whose outcome meets the condition's formula, or does not.
    ThisRun,
    /// Of a machine in which the condition holds, or fails.
    AllRuns,
    /// Of a machine of which no run meets the formula, or each does.
    NoRun,
}

/// What is said of a condition where that is so, or is not.
pub fn verb_of(quantifier: Quantifier, scope: Scope, is_so: bool) -> &'static [u8]
    ensures { result.now ≡ verb_of quantifier scope is_so }
{
    match (quantifier, scope, is_so) {
        (Quantifier::Exists, Scope::ThisRun, true) => b" happens in this run",
        (Quantifier::Exists, Scope::ThisRun, false) => b" does not happen in this run",
        (Quantifier::Exists, Scope::AllRuns, true) => b" happens in some run",
        (Quantifier::Exists, Scope::AllRuns, false) => b" never happens",
        (Quantifier::Exists, Scope::NoRun, true) => b" never happens",
        (Quantifier::Exists, Scope::NoRun, false) => b" happens in every run",
        (Quantifier::NotExists, Scope::ThisRun, true) => b" happens in this run",
        (Quantifier::NotExists, Scope::ThisRun, false) => b" does not happen in this run",
        (Quantifier::NotExists, Scope::AllRuns, true) => b" never happens",
        (Quantifier::NotExists, Scope::AllRuns, false) => b" happens in some run",
        (Quantifier::NotExists, Scope::NoRun, true) => b" never happens",
        (Quantifier::NotExists, Scope::NoRun, false) => b" happens in every run",
        (Quantifier::Forall, Scope::ThisRun, true) => b" holds in this run",
        (Quantifier::Forall, Scope::ThisRun, false) => b" fails in this run",
        (Quantifier::Forall, Scope::AllRuns, true) => b" always holds",
        (Quantifier::Forall, Scope::AllRuns, false) => b" fails in some run",
        (Quantifier::Forall, Scope::NoRun, true) => b" never holds",
        (Quantifier::Forall, Scope::NoRun, false) => b" always holds",
    }
}

/// A condition's text from the space after its quantifier on, without the end of its line.
fn formula_of(condition: &[u8]) -> &[u8] {
    let mut rest = condition.trim_ascii_end();
    for byte in condition {
        if *byte == b' ' {
            return rest;
        }
        let (_, after) = rest.split_at(rest.len().min(1));
        rest = after;
    }
    rest
}

/// A sentence: what a condition is about, its formula, and a verb.
pub fn condition_sentence(
    alloc: Global,
    litmus: &Litmus<Program>,
    verb: &[u8],
) -> Result<Vec<u8>, AllocError>
    ensures { IfOk result (λ sentence. IsSentence litmus.now.condition.quantifier verb.now sentence.items) }
{
    let mut text = Vec::new(alloc);
    push_condition(alloc, &mut text, &litmus.names, &litmus.condition)?;
    let mut sentence = Vec::from_slice(alloc, subject(litmus.condition.quantifier))?;
    sentence.extend_from_slice(formula_of(&text))?;
    sentence.extend_from_slice(verb)?;
    Ok(sentence)
}

/// That sentence as a string.
pub fn saying(alloc: Global, litmus: &Litmus<Program>, verb: &[u8]) -> Result<JsonText, AllocError>
    ensures { IfOk result (IsSaying litmus.now.condition.quantifier verb.now) }
{
    let sentence = condition_sentence(alloc, litmus, verb)?;
    JsonText::string(alloc, &sentence)
}
