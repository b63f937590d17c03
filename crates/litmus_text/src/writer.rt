//! The whole text.
ghost use Rattle.std.specs.Prelude.{◌≡◌, ◌++◌, ℕ, OnOk, IfOk, IsOkUnless, List, None, Some, Err};
ghost use Rattle.text_tokens.specs.Pieces.{text_of};
ghost use Rattle.tso_program.specs.Fences.{gaps_in, first_missing};
ghost use Rattle.tso_program.specs.declared.fenced.FenceFault.TheVariants.{NoSuchGap, OutOfMemory};
ghost use Rattle.litmus_reader.specs.Texts.{IsLitmus, IsFencedLitmus};
ghost use Rattle.litmus_text.specs.Spelling.{heading, body_pieces, ending_pieces, text_with};
ghost use Rattle.litmus_text.specs.Canonical.{body_of, ending_of, moved_labels, canonical_text, litmus_fenced_at};

use crate::entries::push_initial;
use crate::formula::push_condition;
use crate::observed::push_observed;
use crate::rows::{push_header, push_rows};
use gap_sets::GapSet;
use litmus_reader::Litmus;
use std::alloc::{AllocError, Global};
use tso_program::{FenceFault, FencedProgram, Program};

/// The first line.
fn push_heading(out: &mut Vec<u8>, name: &[u8]) -> Result<(), AllocError>
    ensures { OnOk result (out.new.items ≡ out.old.items ++ heading name.now) }
{
    out.extend_from_slice(b"X86 ")?;
    out.extend_from_slice(name)?;
    out.push(b'\n')?;
    Ok(())
}

/// Initial values, header row and rows.
fn push_body(
    out: &mut Vec<u8>,
    litmus: &Litmus<Program>,
    gaps: &GapSet,
    fenced: &FencedProgram,
) -> Result<(), AllocError>
    ensures { OnOk result (out.new.items ≡ out.old.items ++ text_of (body_pieces
        (body_of litmus.now.names (moved_labels (gaps_in litmus.now.program gaps.now) 0 litmus.now.labels) fenced.now))) }
{
    let threads = fenced.threads();
    push_initial(out, &litmus.names, threads, fenced.memory())?;
    push_header(out, threads.len())?;
    push_rows(out, litmus, gaps, fenced)?;
    Ok(())
}

/// What is observed, and the condition.
fn push_ending(alloc: Global, out: &mut Vec<u8>, litmus: &Litmus<Program>) -> Result<(), AllocError>
    ensures { OnOk result (out.new.items ≡ out.old.items ++ text_of (ending_pieces
        (ending_of litmus.now.names.locations litmus.now.observed litmus.now.condition))) }
{
    let names = &litmus.names;
    push_observed(out, names, litmus.observed.as_slice())?;
    push_condition(alloc, out, names, &litmus.condition)?;
    Ok(())
}

/// The canonical text, with this fenced program.
fn write_parts(
    alloc: Global,
    litmus: &Litmus<Program>,
    gaps: &GapSet,
    fenced: &FencedProgram,
) -> Result<Vec<u8>, AllocError>
    ensures { IfOk result (λ text. text.items ≡ text_with litmus.now.name
        (body_of litmus.now.names (moved_labels (gaps_in litmus.now.program gaps.now) 0 litmus.now.labels) fenced.now)
        (ending_of litmus.now.names.locations litmus.now.observed litmus.now.condition)) }
{
    let mut out = Vec::new(alloc);
    push_heading(&mut out, litmus.name.as_slice())?;
    push_body(&mut out, litmus, gaps, fenced)?;
    push_ending(alloc, &mut out, litmus)?;
    Ok(out)
}

/// The canonical text of the program with an MFENCE in each gap of the set. `NoSuchGap` has the least gap of the set that
/// the program has not.
pub fn write_litmus(
    alloc: Global,
    litmus: &Litmus<Program>,
    gaps: &GapSet,
) -> Result<Vec<u8>, FenceFault>
    ensures text { IfOk result (λ text. text.items ≡ canonical_text (litmus_fenced_at gaps.now litmus.now)) }
    // What a litmus text stands for is read again, with its fences and its labels.
    ensures again { (source : List ℕ) → IsLitmus source litmus.now
        → IfOk result (λ text. IsFencedLitmus text.items (litmus_fenced_at gaps.now litmus.now)) }
    ensures found { OnOk result (first_missing litmus.now.program gaps.now ≡ None) }
    ensures all { first_missing litmus.now.program gaps.now ≡ None → IsOkUnless result OutOfMemory }
    ensures missing { (gap : ℕ) → first_missing litmus.now.program gaps.now ≡ Some gap → result ≡ Err (NoSuchGap gap) }
{
    let fenced = litmus.program.fenced(alloc, gaps)?;
    let text = write_parts(alloc, litmus, gaps, &fenced)?;
    Ok(text)
}
