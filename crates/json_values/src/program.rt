//! What a program is made of: its names, what it holds at first, and its instructions.
ghost use Rattle.std.specs.Prelude.{◌≡◌, IfOk, map};
ghost use Rattle.json_text.specs.Texts.{quoted, array_text};

use crate::named::location;
use gap_sets::GapSet;
use json_text::{JsonArray, JsonObject, JsonText};
use litmus_text::{CodeLabel, Litmus, NameTable, push_code, push_condition, register_name};
use std::alloc::{AllocError, Global};
use tso_program::{Program, Reg, Thread};

/// The condition, in canonical text.
pub fn condition_text(alloc: Global, litmus: &Litmus<Program>) -> Result<JsonText, AllocError> {
    let mut text = Vec::new(alloc);
    push_condition(alloc, &mut text, &litmus.names, &litmus.condition)?;
    JsonText::string(alloc, text.trim_ascii_end())
}

/// The names of the locations, by number.
pub fn location_names(alloc: Global, names: &NameTable) -> Result<JsonText, AllocError>
    ensures { IfOk result (λ json. json ≡ array_text (map quoted names.now.locations)) }
{
    let mut array = JsonArray::new(alloc);
    for number in 0..names.locations() {
        array.add(location(alloc, names, number)?)?;
    }
    array.into_json()
}

/// The names of a thread's named registers.
fn register_names(alloc: Global, names: &NameTable, thread: usize) -> Result<JsonText, AllocError> {
    let mut array = JsonArray::new(alloc);
    for register in Reg::ALL {
        if names.is_named(thread, register) {
            array.add(JsonText::string(alloc, register_name(register).as_bytes())?)?;
        }
    }
    array.into_json()
}

/// The names of the named registers, for each thread.
pub fn all_register_names(
    alloc: Global,
    names: &NameTable,
    threads: usize,
) -> Result<JsonText, AllocError> {
    let mut array = JsonArray::new(alloc);
    for thread in 0..threads {
        array.add(register_names(alloc, names, thread)?)?;
    }
    array.into_json()
}

/// Numbers.
pub fn values(alloc: Global, values: &[u32]) -> Result<JsonText, AllocError> {
    let mut array = JsonArray::new(alloc);
    for value in values {
        array.add(JsonText::number(alloc, u64::from(*value))?)?;
    }
    array.into_json()
}

/// What a thread's named registers hold.
pub fn register_values(
    alloc: Global,
    names: &NameTable,
    thread: usize,
    held: [u32; 6],
) -> Result<JsonText, AllocError> {
    let mut array = JsonArray::new(alloc);
    for register in Reg::ALL {
        if names.is_named(thread, register) {
            let value = held[register.index()];
            array.add(JsonText::number(alloc, u64::from(value))?)?;
        }
    }
    array.into_json()
}

/// What the named registers of each thread hold at first.
fn first_registers(
    alloc: Global,
    names: &NameTable,
    threads: &[Thread],
) -> Result<JsonText, AllocError> {
    let mut array = JsonArray::new(alloc);
    for (t, thread) in threads.iter().enumerate() {
        array.add(register_values(alloc, names, t, thread.registers)?)?;
    }
    array.into_json()
}

/// What memory and registers hold at first.
pub fn initial_values(alloc: Global, litmus: &Litmus<Program>) -> Result<JsonText, AllocError> {
    let mut object = JsonObject::new(alloc);
    object.add("memory", values(alloc, litmus.program.memory())?)?;
    let registers = first_registers(alloc, &litmus.names, litmus.program.threads())?;
    object.add("registers", registers)?;
    object.into_json()
}

/// The labels of a position.
pub fn labels_at(
    alloc: Global,
    labels: &[CodeLabel],
    position: usize,
) -> Result<JsonText, AllocError> {
    let mut array = JsonArray::new(alloc);
    for label in labels {
        if label.position == position {
            array.add(JsonText::string(alloc, label.name.as_slice())?)?;
        }
    }
    array.into_json()
}

/// An instruction of a thread, in canonical text.
pub fn code_text(
    alloc: Global,
    litmus: &Litmus<Program>,
    thread: u8,
    place: usize,
) -> Result<JsonText, AllocError> {
    let mut text = Vec::new(alloc);
    let code = match litmus.program.threads().get(thread as usize) {
        Some(thread) => thread.code.as_slice().get(place).copied(),
        None => None,
    };
    if let Some(code) = code {
        push_code(&mut text, litmus, &GapSet::empty(), thread, code)?;
    }
    JsonText::string(alloc, &text)
}
