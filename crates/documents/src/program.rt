//! The program, as it is written.
ghost use Rattle.std.specs.Prelude.{OnOk};
ghost use Rattle.documents.specs.Parts.{TellsProgram};

use crate::lined::LinedLitmus;
use json_text::{JsonArray, JsonObject, JsonText};
use json_values::{
    all_register_names, code_text, condition_text, initial_values, labels_at, location_names,
};
use litmus_text::CodeLabel;
use std::alloc::{AllocError, Global};

/// An instruction of a thread with its labels and its line.
fn instruction(
    alloc: Global,
    source: &LinedLitmus<'_>,
    labels: &[CodeLabel],
    thread: u8,
    place: usize,
) -> Result<JsonText, AllocError> {
    let line = source.lines.line(thread, place);
    let mut object = JsonObject::new(alloc);
    object.add("labels", labels_at(alloc, labels, place)?)?;
    object.add("text", code_text(alloc, source.litmus, thread, place)?)?;
    object.add("line", JsonText::number(alloc, u64::from(line))?)?;
    object.into_json()
}

/// The instructions of a thread.
fn instructions(
    alloc: Global,
    source: &LinedLitmus<'_>,
    labels: &[CodeLabel],
    thread: u8,
    count: usize,
) -> Result<JsonText, AllocError> {
    let mut array = JsonArray::new(alloc);
    for place in 0..count {
        array.add(instruction(alloc, source, labels, thread, place)?)?;
    }
    array.into_json()
}

/// A thread: its instructions, and the labels of its end.
fn thread_value(
    alloc: Global,
    source: &LinedLitmus<'_>,
    thread: u8,
    count: usize,
) -> Result<JsonText, AllocError> {
    let labels: &[CodeLabel] = match source.litmus.labels.as_slice().get(thread as usize) {
        Some(labels) => labels.as_slice(),
        None => &[],
    };
    let mut object = JsonObject::new(alloc);
    object.add(
        "instructions",
        instructions(alloc, source, labels, thread, count)?,
    )?;
    object.add("end", labels_at(alloc, labels, count)?)?;
    object.into_json()
}

fn thread_values(alloc: Global, source: &LinedLitmus<'_>) -> Result<JsonText, AllocError> {
    let mut array = JsonArray::new(alloc);
    for (t, thread) in source.litmus.program.threads().iter().enumerate() {
        let number = u8::try_from(t).unwrap_or(u8::MAX);
        array.add(thread_value(alloc, source, number, thread.code.len())?)?;
    }
    array.into_json()
}

/// Adds what is said of the program of a litmus text.
pub(crate) fn add_program(
    alloc: Global,
    object: &mut JsonObject,
    source: &LinedLitmus<'_>,
) -> Result<(), AllocError>
    ensures { OnOk result (TellsProgram source.now.litmus.now object.old object.new) }
{
    let litmus = source.litmus;
    let names = &litmus.names;
    let threads = litmus.program.threads().len();
    object.add("test", JsonText::string(alloc, litmus.name.as_slice())?)?;
    object.add("condition", condition_text(alloc, litmus)?)?;
    object.add("locations", location_names(alloc, names)?)?;
    object.add("registers", all_register_names(alloc, names, threads)?)?;
    object.add("initial", initial_values(alloc, litmus)?)?;
    object.add("threads", thread_values(alloc, source)?)
}
