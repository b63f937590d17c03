//! The program without its dead loads.
ghost use Rattle.std.specs.Prelude.{◌≡◌, ◌+◌, ◌<◌, ℕ, IfOk, [], length, slice_index_or};
ghost use Rattle.tso_program.specs.Listings.{code_of};
ghost use Rattle.dataflow_laws.specs.DeadLoads.{dropped, dropped_code, dropped_threads, IsWithoutDeadLoads};
ghost use Rattle.live_registers.specs.DeadPlaces.{dead_at, dead_by};

use crate::live::live_tables;
use std::alloc::{AllocError, Global};
use tso_program::{Instr, Items, Program, REGISTERS, Shown, Thread};

/// The program in which each dead load, and no other instruction, is a copy of its register onto itself, where this
/// is shown of the program's outcomes. Its gaps are the program's, with the same numbers.
pub fn without_dead_loads(
    alloc: Global,
    program: &Program,
    shown: &Shown,
) -> Result<Program, AllocError>
    ensures { IfOk result (λ slim. IsWithoutDeadLoads program.now shown.now slim) }
{
    let tables = live_tables(alloc, program, shown)?;
    let threads = dropped_threads(alloc, program, tables.as_slice())?;
    let memory = Vec::from_slice(alloc, program.memory())?;
    match Program::new(alloc, threads, memory) {
        Ok(slim) => Ok(slim),
        Err(_) => Err(AllocError),
    }
}

/// The threads without the loads that are dead by the tables.
fn dropped_threads(
    alloc: Global,
    program: &Program,
    tables: &[Items<[bool; REGISTERS]>],
) -> Result<Vec<Thread>, AllocError>
    requires many { length tables.now ≡ length program.now.threads }
    requires long { (t : ℕ) → t < length program.now.threads → length (slice_index_or tables.now t []) ≡ length (code_of program.now.threads t) + 1 }
    ensures { IfOk result (λ threads. threads.items ≡ dropped_threads (dead_by program.now tables.now) 0 program.now.threads) }
{
    let mut threads = Vec::new(alloc);
    for (t, thread) in program.threads().iter().enumerate() {
        threads.push(dropped_thread(alloc, thread, tables[t].as_slice())?)?;
    }
    Ok(threads)
}

/// A thread without the loads that are dead by its rows.
fn dropped_thread(
    alloc: Global,
    thread: &Thread,
    rows: &[[bool; REGISTERS]],
) -> Result<Thread, AllocError>
    requires long { length rows.now ≡ length thread.now.code + 1 }
    ensures { IfOk result (λ slim. slim ≡ record { code = dropped_code (dead_at thread.now.code rows.now) 0 thread.now.code; registers = thread.now.registers }) }
{
    let code = thread.code.as_slice();
    let mut slim = Items::of(Vec::new(alloc));
    for (k, instr) in code.iter().enumerate() {
        slim.push(dropped(is_dead(code, rows, k), *instr))?;
    }
    Ok(Thread {
        code: slim,
        registers: thread.registers,
    })
}

/// Whether instruction k is a load whose register is not live after it.
fn is_dead(code: &[Instr], rows: &[[bool; REGISTERS]], k: usize) -> bool
    requires long { length rows.now ≡ length code.now + 1 }
    requires there { k < length code.now }
    ensures { result ≡ dead_at code.now rows.now k }
{
    match code[k] {
        Instr::Load(r, _) => !rows[k + 1][r.index()],
        _ => false,
    }
}

/// A load that is dropped is a copy of its register onto itself.
fn dropped(here: bool, instr: Instr) -> Instr
    ensures { result ≡ dropped here instr }
{
    match instr {
        Instr::Load(r, l) => {
            if here {
                Instr::Copy(r, r)
            } else {
                Instr::Load(r, l)
            }
        }
        other => other,
    }
}
