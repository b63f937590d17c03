//! The registers of a thread that may hold a value, before each instruction.
ghost use Rattle.std.specs.Prelude.{◌≡◌, ◌<◌, ◌≤◌, ◌+◌, ℕ, IfOk, IfSome, [], length, slice_set, slice_index_or};
ghost use Rattle.tso_program.specs.Instructions.{number, location_of, target_of};
ghost use Rattle.tso_program.specs.declared.instruction.TheConstants.{REGISTERS};
ghost use Rattle.tso_program.specs.declared.limits.TheConstants.{MAX_LOCATIONS};
ghost use Rattle.held_values.specs.HeldRows.{either, first_row, join, no_row, row_after, spread, AreHeldRows};

use std::alloc::{AllocError, Global};
use tso_program::{Instr, MAX_LOCATIONS, Program, REGISTERS, Reg};

/// A row with the bit of a register.
fn with_bit(row: [bool; REGISTERS], r: Reg, bit: bool) -> [bool; REGISTERS]
    ensures { result ≡ slice_set row (number r) bit }
{
    let mut changed = row;
    changed[r.index()] = bit;
    changed
}

/// The registers that hold the value after an instruction, from those before it and the locations that may.
fn row_after(
    value: u32,
    instr: Instr,
    row: [bool; REGISTERS],
    locations: [bool; MAX_LOCATIONS],
) -> [bool; REGISTERS]
    requires located { IfSome (location_of instr) (λ l. l < MAX_LOCATIONS) }
    ensures { result ≡ row_after value instr row locations }
{
    match instr {
        Instr::LoadImm(r, number) => with_bit(row, r, number == value),
        Instr::Copy(r, from) => with_bit(row, r, row[from.index()]),
        Instr::Load(r, l) => with_bit(row, r, locations[l as usize]),
        Instr::Xchg(l, r) => with_bit(row, r, locations[l as usize]),
        _ => row,
    }
}

/// The registers of either row.
fn either(one: [bool; REGISTERS], other: [bool; REGISTERS]) -> [bool; REGISTERS]
    ensures { result ≡ either one other }
{
    [
        one[0] || other[0],
        one[1] || other[1],
        one[2] || other[2],
        one[3] || other[3],
        one[4] || other[4],
        one[5] || other[5],
    ]
}

/// The registers that hold the value at a thread's start.
fn first_row(registers: [u32; REGISTERS], value: u32) -> [bool; REGISTERS]
    ensures row { result ≡ first_row registers value }
    ensures six { length registers ≡ REGISTERS }
{
    [
        registers[0] == value,
        registers[1] == value,
        registers[2] == value,
        registers[3] == value,
        registers[4] == value,
        registers[5] == value,
    ]
}

/// Puts the registers of a row into that of a place.
fn join(rows: &mut Vec<[bool; REGISTERS]>, place: usize, row: [bool; REGISTERS])
    requires { place < length rows.old.items }
    ensures { rows.new.items ≡ join place row rows.old.items }
{
    let joined = either(rows[place], row);
    rows[place] = joined;
}

/// Puts the registers after instruction k into the rows of the places that it leads to.
fn spread(rows: &mut Vec<[bool; REGISTERS]>, k: usize, instr: Instr, row: [bool; REGISTERS])
    requires next { k + 1 < length rows.old.items }
    requires target { IfSome (target_of instr) (λ j. j < length rows.old.items) }
    ensures { rows.new.items ≡ spread instr k row rows.old.items }
{
    match instr {
        Instr::Jmp(j) => join(rows, j as usize, row),
        Instr::Je(j) | Instr::Jne(j) => {
            join(rows, j as usize, row);
            join(rows, k + 1, row);
        }
        _ => join(rows, k + 1, row),
    }
}

/// A row for each place of a thread of so many instructions: the first, and empty ones.
fn first_rows(
    alloc: Global,
    first: [bool; REGISTERS],
    count: usize,
) -> Result<Vec<[bool; REGISTERS]>, AllocError>
    ensures long { IfOk result (λ rows. length rows.items ≡ count + 1) }
    ensures first { IfOk result (λ rows. slice_index_or rows.items 0 [] ≡ first) }
    ensures others { IfOk result (λ rows. (k : ℕ) → 0 < k → k ≤ count → slice_index_or rows.items k [] ≡ no_row) }
{
    let mut rows = Vec::new(alloc);
    rows.push(first)?;
    for _k in 0..count {
        rows.push([false; REGISTERS])?;
    }
    Ok(rows)
}

/// The registers of thread t that may hold the value before each instruction and at the end, where these locations may
/// hold it.
pub(crate) fn held_rows(
    alloc: Global,
    program: &Program,
    t: usize,
    value: u32,
    locations: [bool; MAX_LOCATIONS],
) -> Result<Vec<[bool; REGISTERS]>, AllocError>
    requires there { t < length program.now.threads }
    ensures { IfOk result (λ rows. AreHeldRows program.now value t locations rows.items) }
{
    program.recall_facts();
    let thread = &program.threads()[t];
    let code = thread.code.as_slice();
    let first = first_row(thread.registers, value);
    let mut rows = first_rows(alloc, first, code.len())?;
    for (k, instr) in code.iter().enumerate() {
        let after = row_after(value, *instr, rows[k], locations);
        spread(&mut rows, k, *instr, after);
    }
    Ok(rows)
}
