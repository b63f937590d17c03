//! Serial runs: one thread after another, each to its end, with each store in memory before the next instruction.

ghost use Rattle.std.specs.Prelude.{IfOk, IfSome};
ghost use Rattle.witness_text.specs.Internal.SoughtRuns.{IsSoughtRun};

use crate::early_flushes::is_sought;
use documents::Sought;
use litmus_text::Litmus;
use std::alloc::{AllocError, Global};
use tso_machine::{Label, ReplayFault, replay};
use tso_program::{MAX_INSTRUCTIONS, Program};

/// The most orders of the threads that are tried: each order of five threads. Of more threads each of them comes first in some.
const MOST_ORDERS: usize = 120;

/// A serial run that is sought, if an order of the threads that is tried has one.
pub(crate) fn serial_run(
    alloc: Global,
    litmus: &Litmus<Program>,
    sought: &Sought,
) -> Result<Option<Vec<Label>>, AllocError>
    ensures { IfOk result (λ run. IfSome run (λ labels. IsSoughtRun litmus.now sought.now labels.items)) }
{
    for number in 0..orders(litmus.program.threads().len()) {
        let order = order(alloc, &litmus.program, number)?;
        let labels = run_in_order(alloc, litmus, sought, &order)?;
        if is_sought(alloc, litmus, sought, &labels)? {
            return Ok(Some(labels));
        }
    }
    Ok(None)
}

/// How many orders of so many threads are tried.
fn orders(threads: usize) -> usize {
    let mut orders: usize = 1;
    for others in 0..threads {
        orders = orders.saturating_mul(others.saturating_add(1));
    }
    orders.min(MOST_ORDERS)
}

/// The threads of a program, ascending.
fn threads(alloc: Global, program: &Program) -> Result<Vec<u8>, AllocError> {
    let mut threads = Vec::new(alloc);
    for thread in 0..program.threads().len() as u8 {
        threads.push(thread)?;
    }
    Ok(threads)
}

/// The order of the threads with this number. Orders that follow each other begin with other threads.
fn order(alloc: Global, program: &Program, number: usize) -> Result<Vec<u8>, AllocError> {
    let mut order = threads(alloc, program)?;
    let mut number = number;
    for place in 0..order.len() {
        let left = order.len() - place;
        order.swap(place, place + number % left);
        number /= left;
    }
    Ok(order)
}

/// The labels of a run of the threads in an order.
fn run_in_order(
    alloc: Global,
    litmus: &Litmus<Program>,
    sought: &Sought,
    order: &[u8],
) -> Result<Vec<Label>, AllocError> {
    let mut labels = Vec::new(alloc);
    for thread in order {
        push_thread(alloc, litmus, sought, &mut labels, *thread)?;
    }
    Ok(labels)
}

/// Adds the steps of a thread up to its end.
fn push_thread(
    alloc: Global,
    litmus: &Litmus<Program>,
    sought: &Sought,
    labels: &mut Vec<Label>,
    thread: u8,
) -> Result<(), AllocError> {
    for _ in 0..MAX_INSTRUCTIONS {
        if !push_step(alloc, litmus, sought, labels, Label::Exec(thread))? {
            return Ok(());
        }
        push_step(alloc, litmus, sought, labels, Label::Flush(thread))?;
    }
    Ok(())
}

/// Adds a step, where it is possible. Whether it is.
fn push_step(
    alloc: Global,
    litmus: &Litmus<Program>,
    sought: &Sought,
    labels: &mut Vec<Label>,
    step: Label,
) -> Result<bool, AllocError> {
    labels.push(step)?;
    match replay(alloc, &litmus.program, &sought.fences, sought.model, labels) {
        Ok(_) | Err(ReplayFault::NotEnded(_)) => Ok(true),
        Err(ReplayFault::OutOfMemory) => Err(AllocError),
        Err(_) => {
            labels.pop();
            Ok(false)
        }
    }
}
