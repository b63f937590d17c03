//! The locations that may hold a value.
ghost use Rattle.std.specs.Prelude.{◌≡◌, ◌<◌, IfOk, IfSome, OnOk, length};
ghost use Rattle.tso_program.specs.Instructions.{location_of};
ghost use Rattle.tso_program.specs.declared.limits.TheConstants.{MAX_LOCATIONS};
ghost use Rattle.held_values.specs.HeldRows.{with_bit, with_stored, AreHolders, AreInitial, IsPassed, IsPassedOn};

use crate::rows::held_rows;
use std::alloc::{AllocError, Global};
use tso_program::{Instr, MAX_LOCATIONS, Program, REGISTERS};

/// Puts the location that an instruction gives the value to among the holders, if it gives it to one.
fn put_stored(value: u32, instr: Instr, row: [bool; REGISTERS], holders: &mut [bool; MAX_LOCATIONS])
    requires located { IfSome (location_of instr) (λ l. l < MAX_LOCATIONS) }
    ensures { holders.new ≡ with_stored value instr row holders.old }
{
    match instr {
        Instr::StoreImm(l, number) => put_bit(holders, l, number == value),
        Instr::Store(l, r) => put_bit(holders, l, row[r.index()]),
        Instr::Xchg(l, r) => put_bit(holders, l, row[r.index()]),
        _ => {}
    }
}

/// Puts a location among the holders, where the bit is set.
fn put_bit(holders: &mut [bool; MAX_LOCATIONS], l: u8, bit: bool)
    requires { l < MAX_LOCATIONS }
    ensures { holders.new ≡ with_bit holders.old l bit }
{
    holders[l as usize] = holders[l as usize] || bit;
}

/// Puts the locations to which thread t may give the value, where the first ones hold it, among the holders.
fn pass_on(
    alloc: Global,
    program: &Program,
    t: usize,
    value: u32,
    from: [bool; MAX_LOCATIONS],
    holders: &mut [bool; MAX_LOCATIONS],
) -> Result<(), AllocError>
    requires there { t < length program.now.threads }
    ensures { OnOk result (IsPassedOn program.now value t from holders.old holders.new) }
{
    program.recall_facts();
    let rows = held_rows(alloc, program, t, value, from)?;
    let thread = &program.threads()[t];
    let code = thread.code.as_slice();
    for (k, instr) in code.iter().enumerate() {
        put_stored(value, *instr, rows[k], holders);
    }
    Ok(())
}

/// Puts the locations to which some thread may give the value, where these hold it, among the holders.
fn pass(
    alloc: Global,
    program: &Program,
    value: u32,
    holders: &mut [bool; MAX_LOCATIONS],
) -> Result<(), AllocError>
    ensures { OnOk result (IsPassed program.now value (length program.now.threads) holders.old holders.new) }
{
    let from = *holders;
    for t in 0..program.threads().len() {
        pass_on(alloc, program, t, value, from, holders)?;
    }
    Ok(())
}

/// The locations that hold the value at first.
fn initial_holders(program: &Program, value: u32) -> [bool; MAX_LOCATIONS]
    ensures { AreInitial program.now value result }
{
    let memory = program.memory();
    let mut holders = [false; MAX_LOCATIONS];
    for l in 0..memory.len() {
        holders[l] = memory[l] == value;
    }
    holders
}

/// The locations that may hold the value.
pub(crate) fn holders_of(
    alloc: Global,
    program: &Program,
    value: u32,
) -> Result<[bool; MAX_LOCATIONS], AllocError>
    ensures { IfOk result (λ holders. AreHolders program.now value holders) }
{
    all_holders(alloc, program, value, initial_holders(program, value))
}

/// The locations that may hold the value, from those that hold it at first: passes until no location is new.
fn all_holders(
    alloc: Global,
    program: &Program,
    value: u32,
    first: [bool; MAX_LOCATIONS],
) -> Result<[bool; MAX_LOCATIONS], AllocError>
    requires first { AreInitial program.now value first }
    ensures { IfOk result (λ holders. AreHolders program.now value holders) }
{
    program.recall_facts();
    let mut holders = first;
    loop {
        let before = holders;
        pass(alloc, program, value, &mut holders)?;
        if holders == before {
            return Ok(holders);
        }
    }
}
