//! The lines of runs and of answers.

ghost use Rattle.std.specs.Prelude.{◌≡◌, ◌++◌, IfOk, OnOk, codes};
ghost use Rattle.report.specs.Answers.{after_space, printed_labels, outcome_line, passed_line, without_line, shown_word, set_line, answer_line};

use crate::places::push_gaps;
use gap_sets::GapSet;
use litmus_reader::NameTable;
use outcome_text::write_outcome;
use std::alloc::{AllocError, Global};
use tso_machine::{Label, write_run};
use tso_program::{Outcome, Program, Shown};

/// A text after a space, or nothing where there is no text.
fn push_after_space(line: &mut Vec<u8>, text: &[u8]) -> Result<(), AllocError>
    ensures { OnOk result (line.new.items ≡ line.old.items ++ after_space text.now) }
{
    if !text.is_empty() {
        line.push(b' ')?;
        line.extend_from_slice(text)?;
    }
    Ok(())
}

/// The labels of a run.
pub fn labels_line(alloc: Global, labels: &[Label]) -> Result<Vec<u8>, AllocError>
    ensures { IfOk result (λ line. line.items ≡ printed_labels labels.now) }
{
    let text = write_run(alloc, labels)?;
    let mut line = Vec::from_slice(alloc, b"run")?;
    push_after_space(&mut line, &text)?;
    line.push(b'\n')?;
    Ok(line)
}

/// What a run leaves in the registers that the litmus text names and in all locations, as far as it is
/// shown.
pub fn outcome_line(
    alloc: Global,
    names: &NameTable,
    shown: &Shown,
    outcome: &Outcome,
) -> Result<Vec<u8>, AllocError>
    ensures { IfOk result (λ line. line.items ≡ outcome_line names.now shown.now outcome.now) }
{
    let items = write_outcome(alloc, names, shown, outcome)?;
    let mut line = Vec::from_slice(alloc, b"outcome:")?;
    push_after_space(&mut line, &items)?;
    line.push(b'\n')?;
    Ok(line)
}

/// The gaps that a run passes.
pub fn passed_line(alloc: Global, program: &Program, passed: &GapSet) -> Result<Vec<u8>, AllocError>
    ensures { IfOk result (λ line. line.items ≡ passed_line program.now passed.now) }
{
    let mut line = String::from_str(alloc, "passed")?;
    push_gaps(&mut line, program, passed)?;
    line.push('\n')?;
    Ok(line.into_bytes())
}

/// The gaps of a tie that is left out of the answer.
pub fn without_line(alloc: Global, program: &Program, tie: &GapSet) -> Result<Vec<u8>, AllocError>
    ensures { IfOk result (λ line. line.items ≡ without_line program.now tie.now) }
{
    let mut line = String::from_str(alloc, "without")?;
    push_gaps(&mut line, program, tie)?;
    line.push('\n')?;
    Ok(line.into_bytes())
}

/// What says that not all is shown.
fn shown_word(shown: &Shown) -> &'static str
    ensures { result.now ≡ shown_word shown.now }
{
    match shown {
        Shown::All => "",
        Shown::Only(_) => "observed ",
        Shown::Truth(_) => "condition ",
    }
}

/// A set of gaps by their places and what it costs, after a word that says what the set is.
pub fn set_line(
    alloc: Global,
    word: &str,
    program: &Program,
    shown: &Shown,
    set: GapSet,
    cost: u64,
) -> Result<Vec<u8>, AllocError>
    ensures { IfOk result (λ line. line.items ≡ set_line word.now program.now shown.now set cost) }
{
    let shown = shown_word(shown);
    let mut line = format!(in alloc; "{word} {shown}cost {cost} set")?;
    push_gaps(&mut line, program, &set)?;
    line.push('\n')?;
    Ok(line.into_bytes())
}

/// The set of gaps that is the program's answer, as far as its outcomes are shown, by their places, and
/// what it costs.
pub fn answer_line(
    alloc: Global,
    program: &Program,
    shown: &Shown,
    set: GapSet,
    cost: u64,
) -> Result<Vec<u8>, AllocError>
    ensures { IfOk result (λ line. line.items ≡ answer_line program.now shown.now set cost) }
{
    set_line(alloc, "answer", program, shown, set, cost)
}
