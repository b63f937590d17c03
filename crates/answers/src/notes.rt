//! What is said beside an answer: the notes of its document, and a line on standard error.

ghost use Rattle.std.specs.Prelude.{◌≡◌, ◌++◌, IfOk, OnOk};
ghost use Rattle.answers.specs.Notes.{verdict_notes, AddsSlips, AreNotes, IsNoted, IsSlipKind};

use documents::{Note, NoteKind, document_line};
use json_text::JsonObject;
use litmus_text::{Quantifier, read_litmus};
use messages::{Message, Source, file_or_input};
use program_streams::Progress;
use slips::{Slip, SlipKind, first_slip};
use std::alloc::{AllocError, Global};
use tso_program::ShownKind;

/// Where in a litmus text slips are looked for.
#[derive(Clone, Copy)]
pub enum SlipPlaces {
    Nowhere,
    Program,
    WholeText,
}

/// A litmus text of which something is said beside an answer, with the name of its file.
#[derive(Clone, Copy)]
pub struct NotedText<'a> {
    pub name: &'a str,
    pub text: &'a [u8],
    pub places: SlipPlaces,
}

/// Where slips are looked for, if this is compared: in the condition too where the answer rests on what it names.
pub fn slip_places(kind: ShownKind) -> SlipPlaces {
    match kind {
        ShownKind::Condition | ShownKind::Observed => SlipPlaces::WholeText,
        ShownKind::Whole => SlipPlaces::Program,
    }
}

/// The first slip of a litmus text, where it is looked for.
fn slip_in(alloc: Global, noted: NotedText<'_>) -> Result<Option<Slip>, AllocError> {
    let source = Source::new(file_or_input(noted.name), noted.text);
    match noted.places {
        SlipPlaces::Nowhere => Ok(None),
        SlipPlaces::Program => first_slip(alloc, source, false),
        SlipPlaces::WholeText => first_slip(alloc, source, true),
    }
}

/// What the note of a slip is about.
fn kind_of(kind: SlipKind) -> NoteKind
    ensures { IsSlipKind result }
{
    match kind {
        SlipKind::UnusedName => NoteKind::UnusedName,
        SlipKind::JumpBeforeCmp => NoteKind::JumpBeforeCmp,
        SlipKind::UnwrittenRegister => NoteKind::UnwrittenRegister,
        SlipKind::LoneName => NoteKind::LoneName,
        SlipKind::UnwrittenLocation => NoteKind::UnwrittenLocation,
    }
}

/// The note of a slip.
fn slip_note(slip: Slip) -> Note
    ensures { IsSlipKind result.kind }
{
    let Slip { kind, message } = slip;
    let Message {
        line,
        column,
        word,
        text,
        ..
    } = message;
    Note {
        kind: kind_of(kind),
        line,
        column,
        word: word.into_bytes(),
        message: text.into_bytes(),
    }
}

/// Adds a verdict, if there is one.
fn push_verdict(notes: &mut Vec<Note>, verdict: Option<Note>) -> Result<(), AllocError>
    ensures { OnOk result (notes.new.items ≡ notes.old.items ++ verdict_notes verdict) }
{
    match verdict {
        Some(note) => {
            notes.push(note)?;
            Ok(())
        }
        None => Ok(()),
    }
}

/// Adds a slip, if there is one.
fn push_slip(notes: &mut Vec<Note>, slip: Option<Slip>) -> Result<(), AllocError>
    ensures { OnOk result (AddsSlips notes.old.items notes.new.items) }
{
    match slip {
        Some(slip) => {
            notes.push(slip_note(slip))?;
            Ok(())
        }
        None => Ok(()),
    }
}

/// The verdict, if there is one, and after it the first slip of a litmus text.
fn notes_of(
    alloc: Global,
    noted: NotedText<'_>,
    verdict: Option<Note>,
) -> Result<Vec<Note>, AllocError>
    ensures { IfOk result (λ notes. AreNotes verdict notes.items) }
{
    let slip = slip_in(alloc, noted)?;
    let mut notes = Vec::new(alloc);
    push_verdict(&mut notes, verdict)?;
    push_slip(&mut notes, slip)?;
    Ok(notes)
}

/// The line of a document with what is said beside the answer: the verdict, if there is one, and the first slip of the litmus
/// text.
pub fn noted_line(
    alloc: Global,
    noted: NotedText<'_>,
    document: JsonObject,
    verdict: Option<Note>,
) -> Result<Vec<u8>, AllocError>
    ensures { IfOk result (λ line. IsNoted verdict document line.items) }
{
    let notes = notes_of(alloc, noted, verdict)?;
    document_line(alloc, document, &notes)
}

/// Reports a verdict, also where no progress is reported, and where no fence mends the condition also how such a run is seen.
/// The verdict is of this text, of a file of this name.
pub fn report_verdict(
    alloc: Global,
    litmus: &str,
    text: &[u8],
    verdict: Option<&Note>,
    progress: Progress,
) {
    let Some(note) = verdict else {
        return;
    };
    let progress = progress.asked(true);
    progress.report(sentence_line(alloc, &note.message));
    if matches!(note.kind, NoteKind::NoFenceMends) {
        progress.report(run_advice(alloc, litmus, text));
    }
}

/// How a sequential run is seen that breaks the condition of this text, of a file of this name.
fn run_advice(alloc: Global, litmus: &str, text: &[u8]) -> Result<Vec<u8>, AllocError> {
    let option = breaking_option(alloc, text)?;
    let said = format!(in alloc;
        "`fencer witness --model sequential {option}{litmus}` shows such a run, and with --html FILE a page of it"
    )?;
    Message::of_file(alloc, "fencer", said.as_str())?.written(alloc, false)
}

/// The option of `fencer witness` for a run that breaks the condition of a text that is read.
fn breaking_option(alloc: Global, text: &[u8]) -> Result<&'static str, AllocError> {
    match read_litmus(alloc, text) {
        Ok(litmus) => Ok(match litmus.condition.quantifier {
            Quantifier::Forall => "--not ",
            Quantifier::Exists | Quantifier::NotExists => "",
        }),
        Err(_) => Err(AllocError),
    }
}

/// A sentence as a line for people.
pub fn sentence_line(alloc: Global, sentence: &[u8]) -> Result<Vec<u8>, AllocError> {
    let mut line = Vec::from_slice(alloc, b"fencer: ")?;
    line.extend_from_slice(sentence)?;
    line.push(b'\n')?;
    Ok(line)
}
