//! What a thread does under one more value: as it is known, or worked out.
ghost use Rattle.std.specs.Prelude.{◌≡◌, ◌<◌, ◌++◌, ◌∷◌, [], ℕ, List, IfOk, OnOk, OnErr, length};
ghost use Rattle.tso_machine.specs.Modes.{machine_of_mode};
ghost use Rattle.thread_traces.specs.ThreadTraces.{IsThreadTraceOf};
ghost use Rattle.thread_traces.specs.TraceTrees.{IsGivenMore, IsTraceTree};

use crate::Mode;
use std::alloc::{AllocError, Global};
use thread_traces::{SharedTrace, TraceTree, thread_trace_of};
use tso_program::Program;

/// A program, how it runs, and the allocator.
#[derive(Drop)]
pub(crate) struct Base {
    pub(crate) alloc: Global,
    pub(crate) program: Program,
    pub(crate) mode: Mode,
}

/// What thread t does under one more value than in this trace: as it is known, or worked out, and then known. The
/// thread is at the node of that value.
pub(crate) fn trace_after(
    base: &Base,
    tree: &mut TraceTree,
    trace: &SharedTrace,
    t: u8,
    value: u32,
) -> Result<SharedTrace, AllocError>
    requires there { t < length base.now.program.threads }
    ensures trace { IfOk result (λ next. (given : ℕ → List ℕ) → IsTraceTree base.now.program base.now.mode given tree.old → given t ≡ trace.now.given
        → IsThreadTraceOf base.now.program (machine_of_mode base.now.program base.now.mode) t (trace.now.given ++ value ∷ []) next) }
    ensures moved { OnOk result ((given more : ℕ → List ℕ) → IsTraceTree base.now.program base.now.mode given tree.old
        → IsGivenMore given t value more → IsTraceTree base.now.program base.now.mode more tree.new) }
    ensures kept { OnErr result ((given : ℕ → List ℕ) → IsTraceTree base.now.program base.now.mode given tree.old → IsTraceTree base.now.program base.now.mode given tree.new) }
{
    if let Some(found) = tree.take(t, value) {
        return Ok(found);
    }
    let given = trace.with_given(base.alloc, value)?;
    let next = thread_trace_of(base.alloc, &base.program, base.mode, t, given)?;
    tree.enter(t, value)?;
    Ok(next)
}
