//! The values that each location may hold.
ghost use Rattle.std.specs.Prelude.{◌<◌, IfOk, length};
ghost use Rattle.std.specs.List.Sorted.{IsStrictlyIncreasing};
ghost use Rattle.held_values.specs.HeldLists.{AreHeldLists, AreHolderRows, HasAll, IsHeldList};

use crate::holders::holders_of;
use std::alloc::{AllocError, Global};
use thread_traces::{SharedValues, known_values};
use tso_program::{MAX_LOCATIONS, Program};

/// The values that each location of a program may hold, ascending.
pub fn held_values(alloc: Global, program: &Program) -> Result<Vec<SharedValues>, AllocError>
    ensures { IfOk result (λ lists. AreHeldLists program.now lists.items) }
{
    let values = known_values(alloc, program)?;
    let table = holder_rows(alloc, program, values.as_slice())?;
    let mut lists = Vec::new(alloc);
    for l in 0..program.memory().len() {
        let held = held_at(alloc, program, values.as_slice(), table.as_slice(), l)?;
        lists.push(SharedValues::of(alloc, held)?)?;
    }
    Ok(lists)
}

/// For each of the values the locations that may hold it.
fn holder_rows(
    alloc: Global,
    program: &Program,
    values: &[u32],
) -> Result<Vec<[bool; MAX_LOCATIONS]>, AllocError>
    ensures { IfOk result (λ table. AreHolderRows program.now values.now table.items) }
{
    let mut table = Vec::new(alloc);
    for value in values {
        table.push(holders_of(alloc, program, *value)?)?;
    }
    Ok(table)
}

/// Those of the values that a location may hold.
fn held_at(
    alloc: Global,
    program: &Program,
    values: &[u32],
    table: &[[bool; MAX_LOCATIONS]],
    l: usize,
) -> Result<Vec<u32>, AllocError>
    requires there { l < length program.now.memory }
    requires ascending { IsStrictlyIncreasing values.now }
    requires all { HasAll program.now values.now }
    requires table { AreHolderRows program.now values.now table.now }
    ensures { IfOk result (λ held. IsHeldList program.now l held.items) }
{
    program.recall_facts();
    let mut held = Vec::new(alloc);
    for (n, value) in values.iter().enumerate() {
        if table[n][l] {
            held.push(*value)?;
        }
    }
    Ok(held)
}
