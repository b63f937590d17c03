//! The steps of a run.
ghost use Rattle.std.specs.Prelude.{IfOk, OnOk, map};
ghost use Rattle.documents.specs.Runs.{AddsStep, TellsStep, TellsSteps};

use json_text::{JsonArray, JsonObject, JsonText};
use json_values::{label_text, located, register_values, values};
use litmus_text::{Litmus, NameTable};
use run_views::{action_of, waits, written};
use std::alloc::{AllocError, Global};
use tso_machine::{Label, Pending, Step};
use tso_program::{Action, Program};

/// The number of the instruction that a step executes, if it executes one.
fn instruction(alloc: Global, step: &Step) -> Result<JsonText, AllocError> {
    match step.label {
        Label::Exec(_) => JsonText::number(alloc, u64::from(step.before.local.place)),
        Label::Flush(_) => JsonText::null(alloc),
    }
}

/// What a step reads, and from where.
fn read_from(
    alloc: Global,
    names: &NameTable,
    step: &Step,
    location: u8,
    value: u32,
) -> Result<JsonText, AllocError> {
    let from: &[u8] = if waits(step.before.waiting.as_slice(), location) {
        b"buffer"
    } else {
        b"memory"
    };
    let mut object = located(alloc, names, location as usize, value)?;
    object.add("from", JsonText::string(alloc, from)?)?;
    object.into_json()
}

/// What a step reads, if it does.
fn reads(alloc: Global, litmus: &Litmus<Program>, step: &Step) -> Result<JsonText, AllocError> {
    let found = step.after.local.registers;
    match action_of(&litmus.program, step) {
        Action::Read(location, to, _) | Action::Swap(location, _, to, _) => {
            read_from(alloc, &litmus.names, step, location, found[to.index()])
        }
        _ => JsonText::null(alloc),
    }
}

/// What an instruction stores, if it does.
fn stores(alloc: Global, litmus: &Litmus<Program>, step: &Step) -> Result<JsonText, AllocError> {
    match action_of(&litmus.program, step) {
        Action::Write(location, value, _) | Action::Swap(location, value, _, _) => {
            located(alloc, &litmus.names, location as usize, value)?.into_json()
        }
        _ => JsonText::null(alloc),
    }
}

/// What reaches memory, if something does.
fn reaches(
    alloc: Global,
    names: &NameTable,
    store: Option<Pending>,
) -> Result<JsonText, AllocError> {
    match store {
        Some(store) => { located(alloc, names, store.location as usize, store.value)?.into_json() }
        None => JsonText::null(alloc),
    }
}

/// The stores that wait, the oldest first.
fn buffer(alloc: Global, names: &NameTable, waiting: &[Pending]) -> Result<JsonText, AllocError> {
    let mut array = JsonArray::new(alloc);
    for store in waiting {
        let value = located(alloc, names, store.location as usize, store.value)?;
        array.add(value.into_json()?)?;
    }
    array.into_json()
}

/// Adds what is said of a step, after which memory holds this.
fn add_step(
    alloc: Global,
    object: &mut JsonObject,
    litmus: &Litmus<Program>,
    step: &Step,
    memory: &[u32],
) -> Result<(), AllocError>
    ensures { OnOk result (AddsStep step.now.label object.old object.new) }
{
    let names = &litmus.names;
    let after = &step.after;
    let thread = step.label.thread() as usize;
    let reached = written(&litmus.program, step);
    let held = after.local.registers;
    object.add("label", label_text(alloc, step.label)?)?;
    object.add("instruction", instruction(alloc, step)?)?;
    object.add("reads", reads(alloc, litmus, step)?)?;
    object.add("stores", stores(alloc, litmus, step)?)?;
    object.add("reaches", reaches(alloc, names, reached)?)?;
    object.add("buffer", buffer(alloc, names, after.waiting.as_slice())?)?;
    object.add("memory", values(alloc, memory)?)?;
    object.add("registers", register_values(alloc, names, thread, held)?)
}

/// The object of a step, after which memory holds this.
fn step_value(
    alloc: Global,
    litmus: &Litmus<Program>,
    step: &Step,
    memory: &[u32],
) -> Result<JsonText, AllocError>
    ensures { IfOk result (TellsStep step.now.label) }
{
    let mut object = JsonObject::new(alloc);
    add_step(alloc, &mut object, litmus, step, memory)?;
    object.into_json()
}

/// What memory holds after a store, if there is one, has reached it.
fn reach(memory: &mut [u32], store: Option<Pending>) {
    if let Some(store) = store {
        if let Some(value) = memory.get_mut(store.location as usize) {
            *value = store.value;
        }
    }
}

/// What is said of each step.
pub(crate) fn steps_array(
    alloc: Global,
    litmus: &Litmus<Program>,
    steps: &[Step],
) -> Result<JsonText, AllocError>
    ensures { IfOk result (TellsSteps (map (λ step. step.label) steps.now)) }
{
    let mut memory = Vec::from_slice(alloc, litmus.program.memory())?;
    let mut array = JsonArray::new(alloc);
    for step in steps {
        reach(memory.as_mut_slice(), written(&litmus.program, step));
        array.add(step_value(alloc, litmus, step, &memory)?)?;
    }
    array.into_json()
}
