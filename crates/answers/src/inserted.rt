//! The litmus text with the fences put in, and its file.

ghost use Rattle.std.specs.Prelude.{◌≡◌, IfErr, IfOk, OnOk, option_map};
ghost use Rattle.answers.specs.Deliveries.{KeepFiles};
ghost use Rattle.answers.specs.Inserted.{HoldsInserted, IsInserted, IsNotKept, unkept_line};

use crate::delivery::keep_file;
use gap_sets::GapSet;
use inserted_text::inserted_text;
use paged_text::Pages;
use program_streams::{FileFault, WritableFileStore, file_line};
use std::alloc::{AllocError, Global};

/// Why the litmus text with the fences put in is not kept in its file.
#[derive(Clone, Copy)]
pub enum Unkept {
    /// What is made is not read as the fenced program.
    NotInserted,
    /// The file can't be written.
    Unwritten,
}

/// A litmus text with an MFENCE in each of these gaps, where a file is named for it, and otherwise an empty text; `None`
/// where it is not read as the printed program.
pub fn inserted_for(
    alloc: Global,
    named: Option<&str>,
    litmus: &[u8],
    gaps: &GapSet,
    printed: &[u8],
) -> Result<Option<Pages>, AllocError>
    ensures { IfOk result (IsInserted (option_map (λ name. name.now) named.entry) printed.now) }
{
    match named {
        Some(_) => match inserted_text(alloc, litmus, gaps, printed)? {
            Some(text) => Ok(Some(Pages::of(alloc, text)?)),
            None => Ok(None),
        },
        None => Ok(Some(Pages::new(alloc))),
    }
}

/// Writes the text of [`inserted_for`] to its file, where one is named.
pub fn keep_inserted<S: WritableFileStore>(
    files: &mut S,
    name: Option<&str>,
    inserted: Option<Pages>,
) -> Result<(), Unkept>
    ensures kept { OnOk result (HoldsInserted (option_map (λ name. name.now) name.entry) inserted (S.held files.new)) }
    ensures others { KeepFiles (option_map (λ name. name.now) name.entry) (S.held files.old) (S.held files.new) }
    ensures fault { IfErr result (IsNotKept (option_map (λ name. name.now) name.entry) inserted (S.held files.old) (S.held files.new)) }
{
    match inserted {
        Some(text) => match keep_file(files, name, &text) {
            Ok(()) => Ok(()),
            Err(_) => Err(Unkept::Unwritten),
        },
        None => Err(Unkept::NotInserted),
    }
}

/// The line of the refusal to keep a text.
pub fn unkept_line(alloc: Global, fault: Unkept) -> Result<Vec<u8>, AllocError>
    ensures { IfOk result (λ line. line.items ≡ unkept_line fault) }
{
    match fault {
        Unkept::NotInserted => Vec::from_slice(alloc, b"refused place 6 NotInserted\n"),
        Unkept::Unwritten => file_line(alloc, FileFault::Write),
    }
}
