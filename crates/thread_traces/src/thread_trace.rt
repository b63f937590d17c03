//! What one thread does under its given values.
ghost use Rattle.std.specs.Prelude.{◌≡◌, ℕ, [], ◌∷◌, ◌++◌, slice_get, Some, IsTrue, IfOk};
ghost use Rattle.candidate_executions.specs.declared.access.Access.{Access};
ghost use Rattle.std.specs.Option.{option_copied};

use crate::write_bits::{WRITE_BITS, write_bit, write_bits};
use crate::writes::writes_value;
use candidate_executions::Access;
use std::alloc::{AllocError, Global};
use std::marker::Model;
use std::sync::Arc;
use tso_program::{Items, Local};

/// The values given to a thread's reads, its accesses up to the first read that has no value, its state
/// there, and the location of that read, if it has not come to its end.
#[derive(Drop)]
pub struct ThreadTrace {
    pub given: Items<u32>,
    pub accesses: Items<Access>,
    pub last: Local,
    pub next: Option<u8>,
}

/// A thread's trace, and the bits of what it writes.
#[derive(Drop)]
struct MarkedTrace {
    trace: ThreadTrace,
    written: [bool; WRITE_BITS],
}

/// A thread's trace that sketches share. It never changes, and a copy takes no memory.
#[derive(Drop)]
pub struct SharedTrace {
    marked: Arc<MarkedTrace>,
}

impl Model for SharedTrace {
    ghost use Rattle.thread_traces.specs.declared.thread_trace.ThreadTrace.{ThreadTrace};
    ghost use Rattle.std.specs.Arc.{arc_value};

    ghost Value = { ThreadTrace };

    ghost use Rattle.thread_traces.specs.WriteBits.{HaveBits};

    ghost view = { λ t. (arc_value t.marked).trace };

    ghost invariant = { λ t. HaveBits (arc_value t.marked).trace.accesses (arc_value t.marked).written };
}

impl SharedTrace {
    /// A trace, with its bits.
    pub fn new(alloc: Global, trace: ThreadTrace) -> Result<SharedTrace, AllocError>
        ensures { IfOk result (λ shared. shared ≡ trace) }
    {
        let written = write_bits(trace.accesses.as_slice());
        let marked = MarkedTrace { trace, written };
        Ok(SharedTrace {
            marked: Arc::new(alloc, marked)?,
        })
    }

    /// The trace.
    pub fn trace(&self) -> &ThreadTrace
        ensures { result.now ≡ self.now }
    {
        &self.marked.trace
    }

    /// What access i of the thread reads and writes.
    pub fn access(&self, i: u8) -> Option<Access>
        ensures { result ≡ slice_get self.now.accesses i }
    {
        self.marked
            .trace
            .accesses
            .as_slice()
            .get(i as usize)
            .copied()
    }

    /// Whether the thread writes the value to the location.
    pub fn writes(&self, location: u8, value: u32) -> bool
        ensures { (i : ℕ) (x : Access) → slice_get self.now.accesses i ≡ Some x → x.location ≡ location → x.written ≡ Some value → IsTrue result }
    {
        let marked = &self.marked;
        if !marked.written[write_bit(location, value)] {
            return false;
        }
        writes_value(marked.trace.accesses.as_slice(), location, value)
    }

    /// A copy of the trace, which both share.
    pub fn copy(&self) -> Result<SharedTrace, AllocError>
        ensures { IfOk result (λ other. other ≡ self.now) }
    {
        Ok(SharedTrace {
            marked: Arc::try_clone(&self.marked)?,
        })
    }

    /// The given values, and one more.
    pub fn with_given(&self, alloc: Global, value: u32) -> Result<Items<u32>, AllocError>
        ensures { IfOk result (λ given. given ≡ self.now.given ++ value ∷ []) }
    {
        let given = self.marked.trace.given.as_slice();
        let mut more = Vec::with_capacity(alloc, given.len() + 1)?;
        more.extend_from_slice(given)?;
        more.push(value)?;
        Ok(Items::of(more))
    }
}

/// What thread t does.
pub fn thread_trace_at(thread_traces: &[SharedTrace], t: usize) -> Option<&ThreadTrace>
    ensures { option_copied result ≡ slice_get thread_traces.now t }
{
    match thread_traces.get(t) {
        Some(thread_trace) => Some(thread_trace.trace()),
        None => None,
    }
}
