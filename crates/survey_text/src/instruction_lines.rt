//! Lines that name an instruction.

ghost use Rattle.std.specs.Prelude.{◌≡◌, ◌++◌, OnOk};
ghost use Rattle.survey_text.specs.Surveys.{fence_line, instruction_line, unexecuted_line};

use crate::visit::Visit;
use gap_list::{TextLines, push_instruction};
use litmus_text::Litmus;
use std::alloc::{AllocError, Global};
use tso_program::Program;

/// Adds an instruction by its place, its line, and how it is written, after a word and with another one in the middle.
fn push_instruction_line(
    alloc: Global,
    out: &mut Vec<u8>,
    litmus: &Litmus<Program>,
    lines: &TextLines,
    words: (&str, &str),
    place: (u8, u8),
) -> Result<(), AllocError>
    ensures { OnOk result (out.new.items ≡ out.old.items ++ instruction_line litmus.now lines.now words.entry.0.now words.entry.1.now place) }
{
    let (word, middle) = words;
    let (t, k) = place;
    let line = lines.line(t, k as usize);
    let start = format!(in alloc; "{word}{t}:{k} line {line}{middle}")?;
    out.extend_from_slice(start.as_bytes())?;
    push_instruction(out, litmus, t, k)?;
    out.push(b'\n')?;
    Ok(())
}

/// Adds the line of an instruction, if no sequential run executes it.
pub(crate) fn push_unexecuted(
    alloc: Global,
    out: &mut Vec<u8>,
    litmus: &Litmus<Program>,
    lines: &TextLines,
    visit: &Visit,
) -> Result<(), AllocError>
    ensures { OnOk result (out.new.items ≡ out.old.items ++ unexecuted_line litmus.now lines.now visit.now) }
{
    match &visit.run {
        Some(_) => Ok(()),
        None => {
            let place = (visit.thread, visit.instruction);
            push_instruction_line(alloc, out, litmus, lines, ("unexecuted ", " "), place)
        }
    }
}

/// Adds the line of a fence.
pub(crate) fn push_fence(
    alloc: Global,
    out: &mut Vec<u8>,
    litmus: &Litmus<Program>,
    lines: &TextLines,
    gap: u8,
) -> Result<(), AllocError>
    ensures { OnOk result (out.new.items ≡ out.old.items ++ fence_line litmus.now lines.now gap) }
{
    match litmus.program.gap_place(gap) {
        Some(place) => {
            push_instruction_line(alloc, out, litmus, lines, ("fence ", ", before "), place)
        }
        None => Ok(()),
    }
}
