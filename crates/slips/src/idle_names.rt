//! Names in a condition that no instruction uses, as one that is misspelt.

use crate::near_names::near_name;
use litmus_reader::{Litmus, NameTable, location_name, register_name};
use messages::{Message, shown_word};
use std::alloc::{AllocError, Global};
use tso_program::{Atom, FormulaNode, Instr, Program, Reg, Thread};

/// That the condition of a litmus test names a location that no instruction reads or writes, or a register to which its
/// thread writes nothing, with the first such name. `None` if it names none.
pub(crate) fn idle_name_of(
    alloc: Global,
    file: &str,
    litmus: &Litmus<Program>,
) -> Result<Option<Message>, AllocError> {
    for node in litmus.condition.formula.nodes() {
        if let Some(atom) = idle_atom(&litmus.program, *node) {
            let said = said_of_atom(alloc, &litmus.names, atom)?;
            return Ok(Some(Message::of_file(alloc, file, said.as_str())?));
        }
    }
    Ok(None)
}

/// The atom of a node, if no instruction uses what it names.
fn idle_atom(program: &Program, node: FormulaNode) -> Option<Atom> {
    match node {
        FormulaNode::Atom(atom) if is_idle(program.threads(), atom) => Some(atom),
        _ => None,
    }
}

/// Whether no instruction uses what an atom names.
fn is_idle(threads: &[Thread], atom: Atom) -> bool {
    match atom {
        Atom::Location { location, .. } => !is_accessed(threads, location),
        Atom::Register {
            thread,
            register,
            ..
        } => match threads.get(thread as usize) {
            Some(thread) => !is_written(thread, register),
            None => false,
        },
    }
}

/// Whether some instruction reads or writes the location of this number.
fn is_accessed(threads: &[Thread], location: u32) -> bool {
    for thread in threads {
        if accesses(thread, location) {
            return true;
        }
    }
    false
}

fn accesses(thread: &Thread, location: u32) -> bool {
    for instruction in thread.code.as_slice() {
        if instruction.location().map(u32::from) == Some(location) {
            return true;
        }
    }
    false
}

/// Whether some instruction of the thread writes to the register.
fn is_written(thread: &Thread, register: Reg) -> bool {
    for instruction in thread.code.as_slice() {
        if written_by(*instruction) == Some(register) {
            return true;
        }
    }
    false
}

/// The register to which an instruction writes.
fn written_by(instruction: Instr) -> Option<Reg> {
    match instruction {
        Instr::LoadImm(register, _)
        | Instr::Copy(register, _)
        | Instr::Load(register, _)
        | Instr::Xchg(_, register) => Some(register),
        _ => None,
    }
}

/// What is said of an atom that names what no instruction uses.
fn said_of_atom(alloc: Global, names: &NameTable, atom: Atom) -> Result<String, AllocError> {
    match atom {
        Atom::Location { location, .. } => {
            said_of_location(alloc, names, location_name(names, location as usize))
        }
        Atom::Register {
            thread,
            register,
            ..
        } => {
            let name = register_name(register);
            format!(in alloc;
                "the condition names {thread}:{name}, to which thread {thread} writes nothing: it keeps its first value"
            )
        }
    }
}

/// What is said of a location of this name, and of another one that may be meant.
fn said_of_location(alloc: Global, names: &NameTable, name: &[u8]) -> Result<String, AllocError> {
    let shown = shown_word(alloc, name)?;
    match near_name(names, name) {
        Some(near) => {
            let near = shown_word(alloc, near)?;
            format!(in alloc;
                "the condition names {shown}, which no instruction reads or writes: did you mean {near}?"
            )
        }
        None => format!(in alloc;
            "the condition names {shown}, which no instruction reads or writes: it keeps its first value"
        ),
    }
}
