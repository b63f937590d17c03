//! Where the fences of a set of gaps go, for people.

ghost use Rattle.std.specs.Prelude.{◌≡◌, ◌++◌, IfOk, OnOk};
ghost use Rattle.gap_list.specs.Notes.{note_part, AreFenceNotes};

use crate::list::push_instruction;
use crate::text_lines::TextLines;
use gap_sets::GapSet;
use litmus_reader::Litmus;
use std::alloc::{AllocError, Global};
use tso_program::Program;

/// Adds the line of a gap, where it is in the set.
fn push_note(
    alloc: Global,
    out: &mut Vec<u8>,
    litmus: &Litmus<Program>,
    gaps: &GapSet,
    lines: &TextLines,
    gap: u8,
) -> Result<(), AllocError>
    ensures { OnOk result (out.new.items ≡ out.old.items ++ note_part litmus.now gaps.now lines.now gap) }
{
    if gaps.has(gap) {
        if let Some((t, k)) = litmus.program.gap_place(gap) {
            let line = lines.line(t, k as usize);
            let place = format!(in alloc; "{t}:{k} line {line}, before ")?;
            out.extend_from_slice(place.as_bytes())?;
            push_instruction(out, litmus, t, k)?;
            out.push(b'\n')?;
        }
    }
    Ok(())
}

/// The gaps of a set in the program of a litmus text, a line a gap: where it lies, in which line of the text the
/// instruction after it stands, and this instruction.
pub fn fence_notes(
    alloc: Global,
    lines: &TextLines,
    litmus: &Litmus<Program>,
    gaps: &GapSet,
) -> Result<Vec<u8>, AllocError>
    ensures { IfOk result (λ notes. AreFenceNotes litmus.now gaps.now notes.items) }
{
    let mut out = Vec::new(alloc);
    for gap in 0..litmus.program.gaps() {
        push_note(alloc, &mut out, litmus, gaps, lines, gap)?;
    }
    Ok(out)
}
