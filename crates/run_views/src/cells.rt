//! What stands in the columns of a step's line.
ghost use Rattle.std.specs.Prelude.{◌≡◌, ◌++◌, IfOk, OnOk, codes, map};
ghost use Rattle.std.specs.Fmt.{decimal};
ghost use Rattle.std.specs.List.{join_with_byte};
ghost use Rattle.tso_program.specs.Listings.{instr_at};
ghost use Rattle.tso_machine.specs.RunTexts.{spelling};
ghost use Rattle.tso_machine.specs.Faults.{thread_of};
ghost use Rattle.run_views.specs.Tables.{action_of, effect_cell, from_text, instruction_cell, memory_cell, pending_text, value_text, waiting_cell, waits, written};

use gap_sets::GapSet;
use litmus_text::{Litmus, NameTable, location_name, push_code};
use std::alloc::{AllocError, Global};
use tso_machine::{Label, Pending, Step, write_run};
use tso_program::{Action, Instr, Program};

/// `x=1`
pub(crate) fn push_value(
    alloc: Global,
    out: &mut Vec<u8>,
    names: &NameTable,
    location: usize,
    value: u32,
) -> Result<(), AllocError>
    ensures { OnOk result (out.new.items ≡ out.old.items ++ value_text names.now location value) }
{
    out.extend_from_slice(location_name(names, location))?;
    let text = format!(in alloc; "={value}")?;
    out.extend_from_slice(text.as_bytes())
}

/// `e0` and the like
pub(crate) fn label_cell(alloc: Global, step: &Step) -> Result<Vec<u8>, AllocError>
    ensures { IfOk result (λ cell. cell.items ≡ spelling step.now.label) }
{
    write_run(alloc, &[step.label])
}

/// `P0`
pub(crate) fn thread_cell(alloc: Global, step: &Step) -> Result<Vec<u8>, AllocError>
    ensures { IfOk result (λ cell. cell.items ≡ codes "P" ++ decimal (thread_of step.now.label)) }
{
    let thread = step.label.thread();
    Ok(format!(in alloc; "P{thread}")?.into_bytes())
}

/// Instruction k of thread t, if there is one.
fn instr_at(program: &Program, t: u8, k: u8) -> Option<Instr>
    ensures { result ≡ instr_at program.now.threads t k }
{
    match program.threads().get(t as usize) {
        Some(thread) => thread.code.as_slice().get(k as usize).copied(),
        None => None,
    }
}

/// The instruction that a step executes, as it is written.
pub(crate) fn instruction_cell(
    alloc: Global,
    litmus: &Litmus<Program>,
    step: &Step,
) -> Result<Vec<u8>, AllocError>
    ensures { IfOk result (λ cell. cell.items ≡ instruction_cell litmus.now step.now) }
{
    let mut out = Vec::new(alloc);
    if let Label::Exec(t) = step.label {
        if let Some(code) = instr_at(&litmus.program, t, step.before.local.place) {
            push_code(&mut out, litmus, &GapSet::empty(), t, code)?;
        }
    }
    Ok(out)
}

/// Whether a store to the location waits.
pub fn waits(stores: &[Pending], location: u8) -> bool
    ensures { result ≡ waits stores.now location }
{
    for store in stores {
        if store.location == location {
            return true;
        }
    }
    false
}

/// What a step asks of memory, where it executes an instruction; a flush executes none.
pub fn action_of(program: &Program, step: &Step) -> Action
    ensures { result ≡ action_of program.now step.now }
{
    match step.label {
        Label::Exec(t) => program.action(t, step.before.local),
        Label::Flush(_) => Action::Stop,
    }
}

/// `reads x=1`
fn push_read(
    alloc: Global,
    out: &mut Vec<u8>,
    names: &NameTable,
    location: u8,
    value: u32,
) -> Result<(), AllocError>
    ensures { OnOk result (out.new.items ≡ out.old.items ++ codes "reads " ++ value_text names.now location value) }
{
    out.extend_from_slice(b"reads ")?;
    push_value(alloc, out, names, location as usize, value)
}

/// Where a value is read from: the thread's own buffer, or memory.
fn from_text(waits: bool) -> &'static [u8]
    ensures { result.now ≡ from_text waits }
{
    if waits {
        b" from its buffer"
    } else {
        b" from memory"
    }
}

/// What a step reads, and from where, and what it stores.
pub(crate) fn effect_cell(
    alloc: Global,
    litmus: &Litmus<Program>,
    step: &Step,
) -> Result<Vec<u8>, AllocError>
    ensures { IfOk result (λ cell. cell.items ≡ effect_cell litmus.now step.now) }
{
    let names = &litmus.names;
    let found = step.after.local.registers;
    let mut out = Vec::new(alloc);
    match action_of(&litmus.program, step) {
        Action::Read(location, to, _) => {
            push_read(alloc, &mut out, names, location, found[to.index()])?;
            let is_own = waits(step.before.waiting.as_slice(), location);
            out.extend_from_slice(from_text(is_own))?;
        }
        Action::Write(location, value, _) => {
            out.extend_from_slice(b"stores ")?;
            push_value(alloc, &mut out, names, location as usize, value)?;
        }
        Action::Swap(location, value, to, _) => {
            push_read(alloc, &mut out, names, location, found[to.index()])?;
            out.extend_from_slice(b" from memory, stores ")?;
            push_value(alloc, &mut out, names, location as usize, value)?;
        }
        Action::Stop | Action::Go(_) | Action::Wait(_) => {}
    }
    Ok(out)
}

/// The stores, the first first, with one space between two of them.
fn stores_text(alloc: Global, names: &NameTable, stores: &[Pending]) -> Result<Vec<u8>, AllocError>
    ensures { IfOk result (λ text. text.items ≡ join_with_byte 32 (map (pending_text names.now) stores.now)) }
{
    let mut out = Vec::new(alloc);
    for (index, store) in stores.iter().enumerate() {
        if index > 0 {
            out.push(b' ')?;
        }
        push_value(alloc, &mut out, names, store.location as usize, store.value)?;
    }
    Ok(out)
}

/// The stores that wait after a step in its thread's buffer, the oldest first.
pub(crate) fn waiting_cell(
    alloc: Global,
    names: &NameTable,
    step: &Step,
) -> Result<Vec<u8>, AllocError>
    ensures { IfOk result (λ cell. cell.items ≡ waiting_cell names.now step.now) }
{
    stores_text(alloc, names, step.after.waiting.as_slice())
}

/// The store that reaches memory in a step, if one does: the oldest one that waited, or that of an instruction after
/// which it doesn't wait.
pub fn written(program: &Program, step: &Step) -> Option<Pending>
    ensures { result ≡ written program.now step.now }
{
    match action_of(program, step) {
        Action::Stop => step.before.waiting.as_slice().first().copied(),
        Action::Write(location, value, _) if step.after.waiting.is_empty() => {
            Some(Pending { location, value })
        }
        Action::Swap(location, value, _, _) => Some(Pending { location, value }),
        _ => None,
    }
}

/// What reaches memory in a step.
pub(crate) fn memory_cell(
    alloc: Global,
    litmus: &Litmus<Program>,
    step: &Step,
) -> Result<Vec<u8>, AllocError>
    ensures { IfOk result (λ cell. cell.items ≡ memory_cell litmus.now step.now) }
{
    let mut out = Vec::new(alloc);
    if let Some(store) = written(&litmus.program, step) {
        push_value(
            alloc,
            &mut out,
            &litmus.names,
            store.location as usize,
            store.value,
        )?;
    }
    Ok(out)
}
