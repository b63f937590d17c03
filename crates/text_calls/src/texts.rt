//! Calls of `litmus_text`.

use crate::input::push_bytes;
use crate::refusal::TextRefusal;
use conditions::formula_tokens;
use litmus_text::{Litmus, NameTable, read_fenced};
use std::alloc::{AllocError, Global};
use tso_program::{FencedProgram, Program, Reg, Thread};

fn push_locations(names: &NameTable, printed: &mut String) -> Result<(), AllocError> {
    printed.push_str("locations")?;
    for number in 0..names.locations() {
        printed.push(' ')?;
        push_bytes(printed, names.location(number).unwrap_or(b"?"))?;
    }
    printed.push('\n')
}

/// The registers that the test names for a thread.
fn push_registers(
    names: &NameTable,
    thread: usize,
    printed: &mut String,
) -> Result<(), AllocError> {
    write!(printed, "registers of {thread}")?;
    for register in Reg::ALL {
        if names.is_named(thread, register) {
            write!(printed, " {register:?}")?;
        }
    }
    printed.push('\n')
}

/// The labels of a thread, each with its position.
fn push_labels<P>(
    litmus: &Litmus<P>,
    thread: usize,
    printed: &mut String,
) -> Result<(), AllocError> {
    write!(printed, "labels of {thread}")?;
    if let Some(labels) = litmus.labels.as_slice().get(thread) {
        for label in labels.as_slice() {
            printed.push(' ')?;
            push_bytes(printed, label.name.as_slice())?;
            write!(printed, ":{}", label.position)?;
        }
    }
    printed.push('\n')
}

fn push_program<P>(
    litmus: &Litmus<P>,
    threads: &[Thread],
    memory: &[u32],
    printed: &mut String,
) -> Result<(), AllocError> {
    printed.push_str("name ")?;
    push_bytes(printed, litmus.name.as_slice())?;
    write!(printed, "\nthreads {threads:?}\nmemory {memory:?}\n")
}

fn push_names<P>(
    litmus: &Litmus<P>,
    threads: usize,
    printed: &mut String,
) -> Result<(), AllocError> {
    push_locations(&litmus.names, printed)?;
    for thread in 0..threads {
        push_registers(&litmus.names, thread, printed)?;
        push_labels(litmus, thread, printed)?;
    }
    Ok(())
}

fn push_condition<P>(
    alloc: Global,
    litmus: &Litmus<P>,
    printed: &mut String,
) -> Result<(), AllocError> {
    let observed = litmus.observed.as_slice();
    let condition = &litmus.condition;
    let tokens = formula_tokens(alloc, &condition.formula)?;
    write!(
        printed,
        "observed {observed:?}\nquantifier {:?}\nformula {tokens:?}\n",
        condition.quantifier
    )
}

/// All that a test has, with the threads and the memory of its program.
fn push_parts<P>(
    alloc: Global,
    litmus: &Litmus<P>,
    threads: &[Thread],
    memory: &[u32],
    printed: &mut String,
) -> Result<(), AllocError> {
    push_program(litmus, threads, memory, printed)?;
    push_names(litmus, threads.len(), printed)?;
    push_condition(alloc, litmus, printed)
}

/// What is read of a test.
pub fn push_read(
    alloc: Global,
    litmus: &Litmus<Program>,
    printed: &mut String,
) -> Result<(), AllocError> {
    let program = &litmus.program;
    push_parts(alloc, litmus, program.threads(), program.memory(), printed)
}

fn push_fenced(
    alloc: Global,
    litmus: &Litmus<FencedProgram>,
    printed: &mut String,
) -> Result<(), AllocError> {
    let program = &litmus.program;
    push_parts(alloc, litmus, program.threads(), program.memory(), printed)
}

/// What is read of a test that has its fences.
pub fn push_read_fenced(
    alloc: Global,
    text: &[u8],
    printed: &mut String,
) -> Result<(), TextRefusal> {
    let litmus = read_fenced(alloc, text)?;
    let pushed = push_fenced(alloc, &litmus, printed);
    drop(litmus);
    Ok(pushed?)
}
