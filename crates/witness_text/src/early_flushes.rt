//! Runs in which flushes come early, so that few stores wait: no proof rests on how few.

ghost use Rattle.std.specs.Prelude.{◌≡◌, ◌↔◌, ◌<◌, IsTrue, IfOk, length, vec_len};
ghost use Rattle.witness_text.specs.Internal.SoughtRuns.{IsSoughtRun};

use documents::Sought;
use litmus_text::Litmus;
use std::alloc::{AllocError, Global};
use tso_machine::{Label, ReplayFault, Step, replay, steps};
use tso_program::Program;

/// A run that is sought, in which no more stores wait than in this one. The labels are gone through from the last one on:
/// where an instruction is executed, each later flush comes before it if it can.
pub(crate) fn with_early_flushes(
    alloc: Global,
    litmus: &Litmus<Program>,
    sought: &Sought,
    labels: Vec<Label>,
) -> Result<Vec<Label>, AllocError>
    requires { IsSoughtRun litmus.now sought.now labels.items }
    ensures { IfOk result (λ run. IsSoughtRun litmus.now sought.now run.items) }
{
    let mut run = labels;
    for place in (0..run.len()).rev() {
        run = flushed_before(alloc, litmus, sought, run, place)?;
    }
    Ok(run)
}

/// The run in which each flush after this place, the last one first, comes before what is executed there, if it can.
fn flushed_before(
    alloc: Global,
    litmus: &Litmus<Program>,
    sought: &Sought,
    labels: Vec<Label>,
    place: usize,
) -> Result<Vec<Label>, AllocError>
    requires place { place < vec_len labels }
    requires run { IsSoughtRun litmus.now sought.now labels.items }
    ensures run { IfOk result (λ run. IsSoughtRun litmus.now sought.now run.items) }
    ensures long { IfOk result (λ run. vec_len run ≡ vec_len labels) }
{
    let mut run = labels;
    for later in (place + 1..run.len()).rev() {
        if is_flush_after(run[later], run[place]) {
            run = turned(alloc, litmus, sought, run, place, later)?;
        }
    }
    Ok(run)
}

/// Whether the later of two labels is a flush, and the earlier executes an instruction.
fn is_flush_after(later: Label, earlier: Label) -> bool {
    matches!(later, Label::Flush(_)) && matches!(earlier, Label::Exec(_))
}

/// The run in which the second label comes right before the first, or the first right after the second, if one of them is
/// better.
fn turned(
    alloc: Global,
    litmus: &Litmus<Program>,
    sought: &Sought,
    labels: Vec<Label>,
    first: usize,
    second: usize,
) -> Result<Vec<Label>, AllocError>
    requires first { first < vec_len labels }
    requires second { second < vec_len labels }
    requires run { IsSoughtRun litmus.now sought.now labels.items }
    ensures run { IfOk result (λ run. IsSoughtRun litmus.now sought.now run.items) }
    ensures long { IfOk result (λ run. vec_len run ≡ vec_len labels) }
{
    let run = moved_if_better(alloc, litmus, sought, labels, second, first)?;
    moved_if_better(alloc, litmus, sought, run, first, second)
}

/// The run in which one label is at another place, if it is better, and otherwise the run.
fn moved_if_better(
    alloc: Global,
    litmus: &Litmus<Program>,
    sought: &Sought,
    labels: Vec<Label>,
    from: usize,
    to: usize,
) -> Result<Vec<Label>, AllocError>
    requires from { from < vec_len labels }
    requires to { to < vec_len labels }
    requires run { IsSoughtRun litmus.now sought.now labels.items }
    ensures run { IfOk result (λ run. IsSoughtRun litmus.now sought.now run.items) }
    ensures long { IfOk result (λ run. vec_len run ≡ vec_len labels) }
{
    let moved = moved(alloc, &labels, from, to)?;
    if is_better(alloc, litmus, sought, &moved, &labels)? {
        Ok(moved)
    } else {
        Ok(labels)
    }
}

/// The labels, of which one is at another place.
fn moved(alloc: Global, labels: &[Label], from: usize, to: usize) -> Result<Vec<Label>, AllocError>
    requires from { from < length labels.now }
    requires to { to < length labels.now }
    ensures { IfOk result (λ moved. vec_len moved ≡ length labels.now) }
{
    let mut moved = Vec::from_slice(alloc, labels)?;
    let label = moved.remove(from);
    moved.insert(to, label)?;
    Ok(moved)
}

/// Whether labels are a run that is sought, in which fewer stores wait than in another run.
fn is_better(
    alloc: Global,
    litmus: &Litmus<Program>,
    sought: &Sought,
    labels: &[Label],
    other: &[Label],
) -> Result<bool, AllocError>
    ensures { IfOk result (λ is. IsTrue is → IsSoughtRun litmus.now sought.now labels.now) }
{
    if !is_sought(alloc, litmus, sought, labels)? {
        return Ok(false);
    }
    let waiting = waiting_stores(alloc, litmus, sought, labels)?;
    Ok(waiting < waiting_stores(alloc, litmus, sought, other)?)
}

/// Whether labels are a run that is sought.
pub(crate) fn is_sought(
    alloc: Global,
    litmus: &Litmus<Program>,
    sought: &Sought,
    labels: &[Label],
) -> Result<bool, AllocError>
    ensures { IfOk result (λ is. IsTrue is ↔ IsSoughtRun litmus.now sought.now labels.now) }
{
    match replay(alloc, &litmus.program, &sought.fences, sought.model, labels) {
        Ok(ended) => Ok(litmus.condition.formula.holds(&ended.outcome) == sought.meets),
        Err(fault) => match fault {
            ReplayFault::OutOfMemory => Err(AllocError),
            _ => Ok(false),
        },
    }
}

/// The stores that wait after a step of a run, added up over its steps.
fn waiting_stores(
    alloc: Global,
    litmus: &Litmus<Program>,
    sought: &Sought,
    labels: &[Label],
) -> Result<usize, AllocError> {
    match steps(alloc, &litmus.program, &sought.fences, sought.model, labels) {
        Ok(steps) => Ok(sum_of_waiting(&steps)),
        Err(_) => Err(AllocError),
    }
}

/// The stores that wait after each step, added up.
fn sum_of_waiting(steps: &[Step]) -> usize {
    let mut waiting: usize = 0;
    let mut sum: usize = 0;
    for step in steps {
        waiting = waiting.saturating_add(step.after.waiting.len());
        waiting = waiting.saturating_sub(step.before.waiting.len());
        sum = sum.saturating_add(waiting);
    }
    sum
}
