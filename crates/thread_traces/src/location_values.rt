//! The values of a location, and the known values.
ghost use Rattle.std.specs.Prelude.{◌≡◌, ◌≤◌, ◌↔◌, ◌⊎◌, ◌<◌, ℕ, [], IsTrue, IfOk, OnOk, Contains, length};
ghost use Rattle.std.specs.List.Sorted.{IsStrictlyIncreasing};
ghost use Rattle.candidate_executions.specs.Values.{IsValueOf, IsKnown};
ghost use Rattle.thread_traces.specs.Immediates.{stored_number, HasImmediate, StoresRegister, HasRegisterStore, TakesRegisterOf};

use std::alloc::{AllocError, Global};
use tso_program::{Instr, MAX_ACCESSES, Program, Thread};

/// The values of a location, ascending: its initial value and the numbers stored to it; and where some
/// instruction stores a register to it, or exchanges with it, also the known values.
pub fn values_of(alloc: Global, program: &Program, location: u8) -> Result<Vec<u32>, AllocError>
    requires { location < length program.now.memory }
    ensures exact { IfOk result (λ values. (v : ℕ) → Contains values.items v ↔ IsValueOf program.now location v) }
    ensures ascending { IfOk result (λ values. IsStrictlyIncreasing values.items) }
{
    each_once(gathered(alloc, program, location)?)
}

/// The known values of a program, ascending: 0, and every number, initial register and initial value.
pub fn known_values(alloc: Global, program: &Program) -> Result<Vec<u32>, AllocError>
    ensures exact { IfOk result (λ values. (v : ℕ) → Contains values.items v ↔ IsKnown program.now v) }
    ensures ascending { IfOk result (λ values. IsStrictlyIncreasing values.items) }
{
    let mut values = Vec::new(alloc);
    push_known(program, &mut values)?;
    each_once(values)
}

/// The values, ascending, each of them once.
fn each_once(mut values: Vec<u32>) -> Result<Vec<u32>, AllocError>
    ensures same { IfOk result (λ once. (v : ℕ) → Contains once.items v ↔ Contains values.items v) }
    ensures ascending { IfOk result (λ once. IsStrictlyIncreasing once.items) }
{
    values.sort()?;
    values.dedup();
    Ok(values)
}

/// The values of a location, in no order, and some of them more than once. At first there is room for
/// the initial value, and a number of each access.
fn gathered(alloc: Global, program: &Program, location: u8) -> Result<Vec<u32>, AllocError>
    requires { location < length program.now.memory }
    ensures { IfOk result (λ values. (v : ℕ) → Contains values.items v ↔ IsValueOf program.now location v) }
{
    let mut values = Vec::with_capacity(alloc, 1 + MAX_ACCESSES)?;
    values.push(program.memory()[location as usize])?;
    for thread in program.threads() {
        push_numbers(thread.code.as_slice(), Some(location), &mut values)?;
    }
    if !takes_register(program.threads(), location) {
        return Ok(values);
    }
    push_known(program, &mut values)?;
    Ok(values)
}

/// Appends the known values of a program to the values.
fn push_known(program: &Program, values: &mut Vec<u32>) -> Result<(), AllocError>
    ensures { OnOk result ((v : ℕ) → Contains values.new.items v ↔ (Contains values.old.items v ⊎ IsKnown program.now v)) }
{
    values.push(0)?;
    for thread in program.threads() {
        push_numbers(thread.code.as_slice(), None, values)?;
        values.extend_from_slice(thread.registers.as_slice())?;
    }
    values.extend_from_slice(program.memory())?;
    Ok(())
}

/// Appends to the values the numbers that instructions store to a location, or all numbers of the
/// instructions where no location is asked for.
fn push_numbers(
    code: &[Instr],
    location: Option<u8>,
    values: &mut Vec<u32>,
) -> Result<(), AllocError>
    ensures { OnOk result ((v : ℕ) → Contains values.new.items v ↔ (Contains values.old.items v ⊎ HasImmediate code.now location v)) }
{
    for instr in code {
        if let Some(value) = number_of(*instr, location) {
            values.push(value)?;
        }
    }
    Ok(())
}

/// The number that an instruction stores to a location, or its number where no location is asked for.
fn number_of(instr: Instr, location: Option<u8>) -> Option<u32>
    ensures { result ≡ stored_number location instr }
{
    match location {
        Some(location) => match instr {
            Instr::StoreImm(l, value) => { if l == location { Some(value) } else { None } }
            _ => None,
        },
        None => match instr {
            Instr::LoadImm(_, value) | Instr::StoreImm(_, value) | Instr::CmpImm(_, value) => {
                Some(value)
            }
            _ => None,
        },
    }
}

/// Whether some instruction stores a register to the location, or exchanges with it.
fn takes_register(threads: &[Thread], location: u8) -> bool
    ensures { IsTrue result ↔ TakesRegisterOf threads.now location }
{
    for thread in threads {
        if has_register_store(thread.code.as_slice(), location) {
            return true;
        }
    }
    false
}

fn has_register_store(code: &[Instr], location: u8) -> bool
    ensures { IsTrue result ↔ HasRegisterStore code.now location }
{
    for instr in code {
        if stores_register(*instr, location) {
            return true;
        }
    }
    false
}

fn stores_register(instr: Instr, location: u8) -> bool
    ensures { IsTrue result ↔ StoresRegister location instr }
{
    match instr {
        Instr::Store(l, _) | Instr::Xchg(l, _) => l == location,
        _ => false,
    }
}
