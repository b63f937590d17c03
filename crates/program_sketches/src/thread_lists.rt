//! What threads do, in lists.
ghost use Rattle.std.specs.Prelude.{[], ◌≡◌, ◌↔◌, IfOk, IsTrue};
ghost use Rattle.program_sketches.specs.Kept.{KeepsTraces, view_of};
ghost use Rattle.program_sketches.specs.ProgramSketches.{nothing_chosen};
ghost use Rattle.program_sketches.specs.TracedAccesses.{traced_access, EachEnds};

use candidate_executions::{Access, Event};
use std::alloc::{AllocError, Global};
use thread_traces::{SharedTrace, thread_trace_of};
use tso_machine::Mode;
use tso_program::{Items, Program};

/// What each thread does where no value is given.
pub fn first_traces(
    alloc: Global,
    program: &Program,
    mode: Mode,
) -> Result<Vec<SharedTrace>, AllocError>
    ensures kept { IfOk result (λ traces. KeepsTraces program.now mode traces.items [] []) }
    ensures empty { IfOk result (λ traces. view_of program.now mode traces.items [] [] ≡ nothing_chosen program.now mode) }
{
    let threads = program.threads().len();
    let mut traces = Vec::with_capacity(alloc, threads)?;
    for t in 0..threads as u8 {
        let given = Items::of(Vec::new(alloc));
        traces.push(thread_trace_of(alloc, program, mode, t, given)?)?;
    }
    Ok(traces)
}

/// A copy of these traces.
pub fn copied(alloc: Global, thread_traces: &[SharedTrace]) -> Result<Vec<SharedTrace>, AllocError>
    ensures { IfOk result (λ copies. copies.items ≡ thread_traces.now) }
{
    let mut copies = Vec::with_capacity(alloc, thread_traces.len())?;
    for thread_trace in thread_traces {
        copies.push(thread_trace.copy()?)?;
    }
    Ok(copies)
}

/// Whether each thread has come to its end, so that no read is without a value.
pub fn each_ends(thread_traces: &[SharedTrace]) -> bool
    ensures { IsTrue result ↔ EachEnds thread_traces.now }
{
    for thread_trace in thread_traces {
        if thread_trace.trace().next.is_some() {
            return false;
        }
    }
    true
}

/// What an access reads and writes.
pub fn access_at(thread_traces: &[SharedTrace], event: Event) -> Option<Access>
    ensures { result ≡ traced_access thread_traces.now event }
{
    match event {
        Event::Initial(_) => None,
        Event::Access(t, i) => match thread_traces.get(t as usize) {
            Some(thread_trace) => thread_trace.access(i),
            None => None,
        },
    }
}
