//! The text of a run.
ghost use Rattle.std.specs.Prelude.{◌≡◌, List, IfOk, IfErr, OnOk, map, ◌++◌, string_bytes};
ghost use Rattle.std.specs.List.{slice_split};
ghost use Rattle.text_tokens.specs.Bytes.{is_white_space};
ghost use Rattle.text_tokens.specs.Numbers.{plain_number_at};
ghost use Rattle.tso_machine.specs.declared.label.Label.{Label};
ghost use Rattle.tso_machine.specs.declared.run_text.RunFault.TheVariants.{OutOfMemory};
ghost use Rattle.tso_machine.specs.RunTexts.{spelling, IsLabel, IsRunText, GivesLabels, RunFaultIs, label_at, run_text};

use crate::Label;
use std::alloc::{AllocError, AllocFailed, Global};
use text_tokens::{is_white_space, plain_number_up_to};
use thiserror::Error;

/// Why a text is no run.
#[derive(Clone, Copy, Debug, Error)]
pub enum RunFault {
    /// The word with this index, from 0, is no label.
    #[error("word {0} is not a label")]
    Token(usize),
    #[error("out of memory")]
    OutOfMemory,
}

impl From<AllocError> for RunFault {
    ghost from_gives = { λ _ e. e ≡ OutOfMemory };

    fn from(_e: AllocError) -> RunFault {
        RunFault::OutOfMemory
    }
}

impl<T: Drop> From<AllocFailed<T>> for RunFault {
    ghost from_gives = { λ _ e. e ≡ OutOfMemory };

    fn from(_e: AllocFailed<T>) -> RunFault {
        RunFault::OutOfMemory
    }
}

/// The parts between white space, empty ones too.
fn parts_of(alloc: Global, bytes: &[u8]) -> Result<Vec<&[u8]>, AllocError>
    ensures { IfOk result (λ parts. map (λ part. part.now) parts.items ≡ slice_split is_white_space bytes.now) }
{
    bytes.split(|b| is_white_space(*b)).collect(alloc)
}

/// The thread whose number is written so.
fn thread_of(digits: &[u8]) -> Option<u8>
    ensures { result ≡ plain_number_at 255 digits.now }
{
    let number = plain_number_up_to(255, digits)?;
    Some(number as u8)
}

/// The label that is spelled so.
#[tactic(auto, unfolding(crate::specs::RunTexts::label_at))]
pub fn label_of(word: &[u8]) -> Option<Label>
    ensures { result ≡ label_at word.now }
{
    match word {
        [b'e', digits @ ..] => Some(Label::Exec(thread_of(digits)?)),
        [b'f', digits @ ..] => Some(Label::Flush(thread_of(digits)?)),
        _ => None,
    }
}

/// The labels of a run text: words `e` or `f` followed by a thread's number, separated by white
/// space.
pub fn read_run(alloc: Global, bytes: &[u8]) -> Result<Vec<Label>, RunFault>
    ensures found { IfOk result (λ labels. IsRunText bytes.now labels.items) }
    ensures only { (labels : List Label) → IsRunText bytes.now labels → GivesLabels result labels }
    ensures fault { IfErr result (RunFaultIs bytes.now) }
{
    let parts = parts_of(alloc, bytes)?;
    let mut labels = Vec::new(alloc);
    for part in &parts {
        if part.is_empty() {
            continue;
        }
        match label_of(part) {
            Some(label) => labels.push(label)?,
            None => return Err(RunFault::Token(labels.len())),
        }
    }
    Ok(labels)
}

fn push_label(out: &mut String, label: Label) -> Result<(), AllocError>
    ensures text { OnOk result (string_bytes out.new ≡ string_bytes out.old ++ spelling label) }
    ensures fits { IsLabel label }
{
    match label {
        Label::Exec(thread) => write!(out, "e{thread}"),
        Label::Flush(thread) => write!(out, "f{thread}"),
    }
}

/// The labels, with one space between two of them. It is read back as these labels.
pub fn write_run(alloc: Global, labels: &[Label]) -> Result<Vec<u8>, AllocError>
    ensures text { IfOk result (λ text. text.items ≡ run_text labels.now) }
    ensures read_back { IfOk result (λ text. IsRunText text.items labels.now) }
{
    let mut out = String::new(alloc);
    for (i, label) in labels.iter().enumerate() {
        if i > 0 {
            out.push(' ')?;
        }
        push_label(&mut out, *label)?;
    }
    Ok(out.into_bytes())
}
