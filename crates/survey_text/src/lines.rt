//! The text of what is found of a program.

ghost use Rattle.std.specs.Prelude.{◌≡◌, ◌++◌, IfOk, OnOk};
ghost use Rattle.std.specs.List.{flat_map};
ghost use Rattle.gap_sets.specs.Gaps.{numbers_of_set};
ghost use Rattle.survey_text.specs.Surveys.{answer_lines, fence_line, survey_lines, survey_row, unexecuted_line, verdict, verdict_line};

use crate::instruction_lines::{push_fence, push_unexecuted};
use crate::survey::Survey;
use crate::visit::{Visit, unexecuted};
use gap_list::TextLines;
use gap_sets::GapSet;
use litmus_text::Litmus;
use placed_text::AnswerText;
use std::alloc::{AllocError, Global};
use tso_program::Program;

/// Adds whether the condition holds in a machine, after the machine's name.
fn push_verdict(
    alloc: Global,
    out: &mut Vec<u8>,
    machine: &str,
    holds: bool,
) -> Result<(), AllocError>
    ensures { OnOk result (out.new.items ≡ out.old.items ++ verdict_line machine.now holds) }
{
    let verdict = verdict(holds);
    let line = format!(in alloc; "{machine} condition {verdict}\n")?;
    out.extend_from_slice(line.as_bytes())?;
    Ok(())
}

/// Adds a line for each instruction that no sequential run executes.
fn push_all_unexecuted(
    alloc: Global,
    out: &mut Vec<u8>,
    litmus: &Litmus<Program>,
    lines: &TextLines,
    visits: &[Visit],
) -> Result<(), AllocError>
    ensures { OnOk result (out.new.items ≡ out.old.items ++ flat_map (unexecuted_line litmus.now lines.now) visits.now) }
{
    for visit in visits {
        push_unexecuted(alloc, out, litmus, lines, visit)?;
    }
    Ok(())
}

/// Adds the places of fences.
fn push_fences(
    alloc: Global,
    out: &mut Vec<u8>,
    litmus: &Litmus<Program>,
    lines: &TextLines,
    gaps: &GapSet,
) -> Result<(), AllocError>
    ensures { OnOk result (out.new.items ≡ out.old.items ++ flat_map (fence_line litmus.now lines.now) (numbers_of_set gaps.now)) }
{
    for gap in gaps.iter() {
        push_fence(alloc, out, litmus, lines, gap)?;
    }
    Ok(())
}

/// Adds an answer, and the places of its fences.
fn push_answer(
    alloc: Global,
    out: &mut Vec<u8>,
    litmus: &Litmus<Program>,
    lines: &TextLines,
    answer: &AnswerText,
) -> Result<(), AllocError>
    ensures { OnOk result (out.new.items ≡ out.old.items ++ answer_lines litmus.now lines.now answer.now) }
{
    out.extend_from_slice(&answer.answer)?;
    push_fences(alloc, out, litmus, lines, &answer.gaps)
}

/// The text, where the instructions stand in these lines of the litmus text.
pub(crate) fn survey_lines(
    alloc: Global,
    lines: &TextLines,
    survey: &Survey,
) -> Result<Vec<u8>, AllocError>
    ensures { IfOk result (λ text. text.items ≡ survey_lines lines.now survey.now) }
{
    let Survey {
        litmus,
        sequential,
        buffered,
        visits,
        condition,
        whole,
        ..
    } = survey;
    let mut out = Vec::new(alloc);
    push_verdict(alloc, &mut out, "sequential", *sequential)?;
    push_verdict(alloc, &mut out, "buffered", *buffered)?;
    push_all_unexecuted(alloc, &mut out, litmus, lines, visits)?;
    push_answer(alloc, &mut out, litmus, lines, condition)?;
    push_answer(alloc, &mut out, litmus, lines, whole)?;
    Ok(out)
}

/// Whether the condition holds, in a word.
fn verdict<'a>(holds: bool) -> &'a str
    ensures { result.now ≡ verdict holds }
{
    if holds { "holds" } else { "fails" }
}

/// Both verdicts, how many instructions no sequential run executes, and how many fences each answer has.
pub(crate) fn survey_row(alloc: Global, survey: &Survey) -> Result<Vec<u8>, AllocError>
    ensures { IfOk result (λ row. row.items ≡ survey_row survey.now) }
{
    let sequential = verdict(survey.sequential);
    let buffered = verdict(survey.buffered);
    let unexecuted = unexecuted(&survey.visits);
    let some = survey.condition.gaps.len();
    let all = survey.whole.gaps.len();
    Ok(format!(in alloc; "{sequential} {buffered} {unexecuted} {some} {all}")?.into_bytes())
}
