//! What is said beside an answer, and the line of a document with it.

ghost use Rattle.std.specs.Prelude.{◌≡◌, ◌++◌, IfOk, OnOk};
ghost use Rattle.json_text.specs.Safe.{IsSafe};
ghost use Rattle.documents.specs.Notes.{kind_name, note_text, notes_array, notes_members, IsLineOf};

use crate::document::document_of;
use crate::refusal::{number_or_null, string_or_null};
use json_text::{JsonArray, JsonObject, JsonText};
use std::alloc::{AllocError, Global};

/// What a note is about.
#[derive(Clone, Copy)]
pub enum NoteKind {
    /// The condition fails without store buffers too, so no fence mends it.
    NoFenceMends,
    /// What a condition with `exists` asks about happens without store buffers too.
    HappensSequentially,
    /// The condition names what no instruction uses.
    UnusedName,
    /// A JE or JNE stands before any CMP of its thread.
    JumpBeforeCmp,
    /// A register is compared, and nothing of its thread writes it.
    UnwrittenRegister,
    /// A location stands nowhere else, and its name is close to that of another one.
    LoneName,
    /// A location is read, and nothing writes it.
    UnwrittenLocation,
}

/// What is said beside an answer.
#[derive(Drop)]
pub struct Note {
    pub kind: NoteKind,
    /// The line of the litmus text, from 1, where one is meant.
    pub line: Option<usize>,
    /// The column, from 1, where one is meant.
    pub column: Option<usize>,
    /// The word that stands there; nothing where none is meant.
    pub word: Vec<u8>,
    /// The sentence.
    pub message: Vec<u8>,
}

/// The name of a kind.
fn kind_name(kind: NoteKind) -> &'static str
    ensures { result.now ≡ kind_name kind }
{
    match kind {
        NoteKind::NoFenceMends => "no_fence_mends",
        NoteKind::HappensSequentially => "happens_sequentially",
        NoteKind::UnusedName => "unused_name",
        NoteKind::JumpBeforeCmp => "jump_before_cmp",
        NoteKind::UnwrittenRegister => "unwritten_register",
        NoteKind::LoneName => "lone_name",
        NoteKind::UnwrittenLocation => "unwritten_location",
    }
}

/// The object of a note.
fn note_value(alloc: Global, note: &Note) -> Result<JsonText, AllocError>
    ensures { IfOk result (λ json. json ≡ note_text note.now) }
{
    let kind = JsonText::string(alloc, kind_name(note.kind).as_bytes())?;
    let mut object = JsonObject::new(alloc);
    object.add("kind", kind)?;
    object.add("line", number_or_null(alloc, note.line)?)?;
    object.add("column", number_or_null(alloc, note.column)?)?;
    object.add("word", string_or_null(alloc, &note.word)?)?;
    object.add("message", JsonText::string(alloc, &note.message)?)?;
    object.into_json()
}

/// Notes, in order.
fn notes_array(alloc: Global, notes: &[Note]) -> Result<JsonText, AllocError>
    ensures { IfOk result (λ json. json ≡ notes_array notes.now) }
{
    let mut array = JsonArray::new(alloc);
    for note in notes {
        array.add(note_value(alloc, note)?)?;
    }
    array.into_json()
}

/// Adds notes, where there are any.
fn add_notes(alloc: Global, object: &mut JsonObject, notes: &[Note]) -> Result<(), AllocError>
    ensures { OnOk result (object.new ≡ object.old ++ notes_members notes.now) }
{
    if notes.len() > 0 {
        object.add("notes", notes_array(alloc, notes)?)
    } else {
        Ok(())
    }
}

/// The line of a document: the document as it is, and after it these notes, where there are any.
pub fn document_line(
    alloc: Global,
    document: JsonObject,
    notes: &[Note],
) -> Result<Vec<u8>, AllocError>
    ensures told { IfOk result (λ line. IsLineOf document notes.now line.items) }
    ensures safe { IfOk result (λ line. IsSafe line.items) }
{
    let mut document = document;
    add_notes(alloc, &mut document, notes)?;
    document_of(document)
}
