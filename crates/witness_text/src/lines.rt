//! The lines of a run.

ghost use Rattle.std.specs.Prelude.{◌≡◌, ◌++◌, IfOk};
ghost use Rattle.witness_text.specs.WitnessTexts.{no_run_line, shown_run_text};

use litmus_text::Litmus;
use report::{labels_line, outcome_line, passed_line};
use std::alloc::{AllocError, Global};
use tso_machine::{Ended, Label};
use tso_program::{Program, Shown};

/// The labels of a run, its table, its outcome and the gaps that it passes.
pub(crate) fn run_lines(
    alloc: Global,
    litmus: &Litmus<Program>,
    labels: &[Label],
    table: &[u8],
    ended: &Ended,
) -> Result<Vec<u8>, AllocError>
    ensures { IfOk result (λ lines. lines.items ≡ shown_run_text litmus.now labels.now table.now ended.now.outcome ended.now.passed) }
{
    let passed = passed_line(alloc, &litmus.program, &ended.passed)?;
    let mut ending = outcome_line(alloc, &litmus.names, &Shown::All, &ended.outcome)?;
    ending.extend_from_slice(&passed)?;
    let mut lines = labels_line(alloc, labels)?;
    lines.extend_from_slice(table)?;
    lines.extend_from_slice(&ending)?;
    Ok(lines)
}

/// That there is no run whose outcome meets the formula, or none whose outcome does not.
pub(crate) fn none_line(meets: bool) -> &'static [u8]
    ensures { result.now ≡ no_run_line meets }
{
    if meets {
        b"No run meets the condition's formula.\n"
    } else {
        b"Every run meets the condition's formula.\n"
    }
}
