//! The text with its fences, read again.

ghost use Rattle.std.specs.Prelude.{◌≡◌, ℕ, List, IfOk, IfSome, IsTrue};
ghost use Rattle.tso_program.specs.declared.listing.Listing.{Listing};
ghost use Rattle.litmus_reader.specs.declared.litmus.Litmus.{Litmus as LitmusValue};
ghost use Rattle.litmus_reader.specs.Texts.{IsFencedLitmus};
ghost use Rattle.inserted_text.specs.Inserted.{StandsAsPrinted};

use crate::insertion::with_fences;
use crate::same_test::is_same_test;
use gap_sets::GapSet;
use litmus_reader::{Litmus, ReadFault, read_fenced, read_litmus};
use std::alloc::{AllocError, Global};
use tso_program::FencedProgram;

/// The test that a text with fences stands for; `None` if the text is not read.
fn fenced_test(alloc: Global, text: &[u8]) -> Result<Option<Litmus<FencedProgram>>, AllocError>
    ensures found { IfOk result (λ test. IfSome test (IsFencedLitmus text.now)) }
    ensures only { (litmus : LitmusValue Listing) → IsFencedLitmus text.now litmus → IfOk result (λ test. IfSome test (λ test. test ≡ litmus)) }
{
    match read_fenced(alloc, text) {
        Ok(test) => Ok(Some(test)),
        Err(ReadFault::OutOfMemory) => Err(AllocError),
        Err(_) => Ok(None),
    }
}

/// Whether a text stands for a test, which a printed text stands for.
fn stands_for(alloc: Global, text: &[u8], test: &Litmus<FencedProgram>) -> Result<bool, AllocError>
    ensures { (printed : List ℕ) → IsFencedLitmus printed test.now → IfOk result (λ same. IsTrue same → IsFencedLitmus text.now test.now) }
{
    match fenced_test(alloc, text)? {
        Some(found) => Ok(is_same_test(test, &found)),
        None => Ok(false),
    }
}

/// Whether a text stands for the fenced program of a printed one.
fn stands_as_printed(alloc: Global, printed: &[u8], text: &[u8]) -> Result<bool, AllocError>
    ensures { IfOk result (λ same. IsTrue same → StandsAsPrinted printed.now text.now) }
{
    match fenced_test(alloc, printed)? {
        Some(test) => stands_for(alloc, text, &test),
        None => Ok(false),
    }
}

/// A litmus text with an MFENCE in each gap of a set; `None` if the text is not read.
fn fenced_text(alloc: Global, text: &[u8], gaps: &GapSet) -> Result<Option<Vec<u8>>, AllocError> {
    match read_litmus(alloc, text) {
        Ok(litmus) => Ok(Some(with_fences(alloc, text, &litmus.program, gaps)?)),
        Err(ReadFault::OutOfMemory) => Err(AllocError),
        Err(_) => Ok(None),
    }
}

/// A litmus text with an MFENCE in each gap of a set, whose bytes are those of the text but for the cells that are put
/// in. The printed text is the canonical one of that fenced program; `None` if what is made does not stand for the same,
/// or the text is not read.
pub fn inserted_text(
    alloc: Global,
    text: &[u8],
    gaps: &GapSet,
    printed: &[u8],
) -> Result<Option<Vec<u8>>, AllocError>
    ensures { IfOk result (λ made. IfSome made (λ made. StandsAsPrinted printed.now made.items)) }
{
    let Some(made) = fenced_text(alloc, text, gaps)? else {
        return Ok(None);
    };
    if stands_as_printed(alloc, printed, &made)? {
        Ok(Some(made))
    } else {
        Ok(None)
    }
}
