//! The program that a text stands for.
ghost use Rattle.std.specs.Prelude.{◌≡◌, ◌≢◌, ⊤, IfOk, map, length};
ghost use Rattle.tso_program.specs.declared.limits.ProgramFault.TheVariants.{OutOfMemory as NoMemory};
ghost use Rattle.litmus_reader.specs.Faults.{MatchFault};
ghost use Rattle.std.specs.List.{range_with_len};
ghost use Rattle.litmus_syntax.specs.Views.{place_view, entry_view, code_view, cell_view, row_view, body_view};
ghost use Rattle.litmus_reader.specs.Labels.{all_labels};
ghost use Rattle.litmus_reader.specs.Internal.Filling.{byte_in, byte_at, FindAllAs, stored, with_initial, entry_atoms, memory_from, registers_from, thread_in, listing_by};
ghost use Rattle.litmus_reader.specs.Meaning.{atom_of, instruction_of, instruction_in, code_in};
ghost use Rattle.litmus_reader.specs.Internal.Reading.{MakesProgram, MakesFencedProgram};

use crate::fault::ReadFault;
use crate::jumps::Targets;
use crate::label::cell_at;
use crate::names::NameTable;
use conditions::Atom;
use litmus_syntax::{Body, Cell, Code, Entry, Place};
use std::alloc::{AllocError, Global};
use tso_program::{FencedProgram, Instr, Items, Listing, Program, ProgramFault, REGISTERS, Thread};

/// That a place has a value, with the location's number.
pub(crate) fn atom(names: &NameTable, place: Place<'_>, value: u32) -> Atom
    ensures { result ≡ atom_of (byte_in names.now.locations) (place_view place.entry) value }
{
    match place {
        Place::Location(name) => Atom::Location {
            location: u32::from(names.number(name)),
            value,
        },
        Place::Register(thread, register) => Atom::Register {
            thread,
            register,
            value,
        },
    }
}

/// An instruction, with its location's number, or the position of the label to which it jumps.
fn instruction(names: &NameTable, targets: &Targets, code: Code<'_>) -> Instr
    ensures { result ≡ instruction_of (byte_in names.now.locations) (byte_at targets.now) (code_view code.entry) }
{
    match code {
        Code::LoadImm(register, value) => Instr::LoadImm(register, value),
        Code::Copy(register, from) => Instr::Copy(register, from),
        Code::Load(register, name) => Instr::Load(register, names.number(name)),
        Code::StoreImm(name, value) => Instr::StoreImm(names.number(name), value),
        Code::Store(name, register) => Instr::Store(names.number(name), register),
        Code::Xchg(name, register) => Instr::Xchg(names.number(name), register),
        Code::Fence => Instr::Fence,
        Code::CmpImm(register, value) => Instr::CmpImm(register, value),
        Code::CmpReg(register, other) => Instr::CmpReg(register, other),
        Code::Je(label) => Instr::Je(targets.position(label)),
        Code::Jne(label) => Instr::Jne(targets.position(label)),
        Code::Jmp(label) => Instr::Jmp(targets.position(label)),
    }
}

/// The instruction of a thread in a row, if there is one.
fn instruction_in(
    names: &NameTable,
    targets: &Targets,
    thread: usize,
    row: &[Cell<'_>],
) -> Option<Instr>
    ensures { result ≡ instruction_in (byte_in names.now.locations) (byte_at targets.now) thread (map cell_view row.now) }
{
    match cell_at(row, thread) {
        Some(cell) => match cell.code {
            Some(code) => Some(instruction(names, targets, code)),
            None => None,
        },
        None => None,
    }
}

/// The instructions of a thread, from top to bottom.
fn code_of(
    alloc: Global,
    names: &NameTable,
    targets: &Targets,
    rows: &[Vec<Cell<'_>>],
    thread: usize,
) -> Result<Vec<Instr>, AllocError>
    ensures { IfOk result (λ code. code.items ≡ code_in (byte_in names.now.locations) (byte_at targets.now) (map row_view rows.now) thread) }
{
    let mut instructions = Vec::new(alloc);
    for row in rows {
        if let Some(found) = instruction_in(names, targets, thread, row.as_slice()) {
            instructions.push(found)?;
        }
    }
    Ok(instructions)
}

/// What the initial values say, with the locations' numbers.
fn entry_atoms(
    alloc: Global,
    names: &NameTable,
    entries: &[Entry<'_>],
) -> Result<Vec<Atom>, AllocError>
    ensures { IfOk result (λ atoms. atoms.items ≡ entry_atoms (byte_in names.now.locations) (map entry_view entries.now)) }
{
    let mut atoms = Vec::new(alloc);
    for entry in entries {
        atoms.push(atom(names, entry.place, entry.value))?;
    }
    Ok(atoms)
}

/// What an initial value changes in memory.
fn store(memory: &mut [u32], atom: Atom)
    ensures { memory.new ≡ stored memory.old atom }
{
    if let Atom::Location { location, value } = atom {
        let location = location as usize;
        if location < memory.len() {
            memory[location] = value;
        }
    }
}

/// What an initial value changes in the registers.
fn load(registers: &mut [[u32; REGISTERS]], atom: Atom)
    ensures { registers.new ≡ with_initial registers.old atom }
{
    if let Atom::Register {
        thread,
        register,
        value,
    } = atom
    {
        let thread = thread as usize;
        if thread < registers.len() {
            registers[thread][register.index()] = value;
        }
    }
}

/// What so many locations hold at first.
fn memory_of(alloc: Global, locations: usize, atoms: &[Atom]) -> Result<Vec<u32>, AllocError>
    ensures { IfOk result (λ memory. memory.items ≡ memory_from locations atoms.now) }
{
    let mut memory = vec![in alloc; 0u32; locations]?;
    for atom in atoms {
        store(&mut memory, *atom);
    }
    Ok(memory)
}

/// What the registers of so many threads hold at first.
fn registers_of(
    alloc: Global,
    threads: usize,
    atoms: &[Atom],
) -> Result<Vec<[u32; REGISTERS]>, AllocError>
    ensures { IfOk result (λ registers. registers.items ≡ map (registers_from atoms.now) (range_with_len 0 threads)) }
{
    let mut registers = vec![in alloc; [0u32; 6]; threads]?;
    for atom in atoms {
        load(&mut registers, *atom);
    }
    Ok(registers)
}

/// The threads, with what their registers hold at first.
fn threads_of(
    alloc: Global,
    names: &NameTable,
    targets: &[Targets],
    body: &Body<'_>,
    registers: &[[u32; REGISTERS]],
) -> Result<Vec<Thread>, AllocError>
    ensures { IfOk result (λ threads. threads.items
        ≡ map (thread_in (byte_in names.now.locations) (body_view body.now).rows registers.now targets.now) (range_with_len 0 (length targets.now))) }
{
    let mut threads = Vec::new(alloc);
    for (thread, own) in targets.iter().enumerate() {
        let code = code_of(alloc, names, own, body.rows.as_slice(), thread)?;
        threads.push(Thread {
            code: Items::of(code),
            registers: registers.get(thread).copied().unwrap_or([0; 6]),
        })?;
    }
    Ok(threads)
}

/// The threads and the initial values that a text stands for, by the labels of each thread.
pub(crate) fn listing_of(
    alloc: Global,
    names: &NameTable,
    targets: &[Targets],
    body: &Body<'_>,
) -> Result<Listing, AllocError>
    requires { FindAllAs targets.now (all_labels (body_view body.now)) }
    ensures { IfOk result (λ listing. listing ≡ listing_by (byte_in names.now.locations) byte_at (length names.now.locations) (body_view body.now)) }
{
    let atoms = entry_atoms(alloc, names, body.entries.as_slice())?;
    let memory = memory_of(alloc, names.locations(), atoms.as_slice())?;
    let registers = registers_of(alloc, body.threads, atoms.as_slice())?;
    let threads = threads_of(alloc, names, targets, body, registers.as_slice())?;
    Ok(Listing {
        threads: Items::of(threads),
        memory: Items::of(memory),
    })
}

/// The fault of a text whose program is refused, and whose header row stands on the given line.
fn refused(fault: ProgramFault, line: u32) -> ReadFault
    ensures { MatchFault result ⊥ (λ limit. (limit ≡ fault) × (fault ≢ NoMemory)) ⊤ ⊥ }
{
    match fault {
        ProgramFault::OutOfMemory => ReadFault::OutOfMemory,
        _ => ReadFault::Program(line, fault),
    }
}

/// The program of a text whose header row stands on the given line.
pub(crate) fn program_of(alloc: Global, listing: Listing, line: u32) -> Result<Program, ReadFault>
    ensures { MakesProgram listing result }
{
    match Program::new(alloc, listing.threads.into_vec(), listing.memory.into_vec()) {
        Ok(program) => Ok(program),
        Err(fault) => Err(refused(fault, line)),
    }
}

/// The fenced program of a text whose header row stands on the given line.
pub(crate) fn fenced_program_of(
    alloc: Global,
    listing: Listing,
    line: u32,
) -> Result<FencedProgram, ReadFault>
    ensures { MakesFencedProgram listing result }
{
    match FencedProgram::new(alloc, listing.threads.into_vec(), listing.memory.into_vec()) {
        Ok(program) => Ok(program),
        Err(fault) => Err(refused(fault, line)),
    }
}
