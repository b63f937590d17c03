//! What accesses write.
ghost use Rattle.std.specs.Prelude.{◌≡◌, ◌↔◌, ◌<◌, IsTrue, Some, IsSome, ℕ, slice_get};
ghost use Rattle.candidate_executions.specs.declared.access.Access.{Access};
ghost use Rattle.thread_traces.specs.declared.thread_trace.ThreadTrace.{ThreadTrace};

use crate::thread_trace::SharedTrace;
use candidate_executions::Access;

/// Whether it is this value, if it is one.
pub fn is_value(written: Option<u32>, value: u32) -> bool
    ensures { IsTrue result ↔ (written ≡ Some value) }
{
    match written {
        Some(own) => own == value,
        None => false,
    }
}

/// Whether the access writes the location.
pub fn is_write_to(access: Access, location: u8) -> bool
    ensures { IsTrue result ↔ ((access.location ≡ location) × IsSome access.written) }
{
    access.location == location && access.written.is_some()
}

/// Whether one of the accesses writes the value to the location.
pub(crate) fn writes_value(accesses: &[Access], location: u8, value: u32) -> bool
    ensures { (i : ℕ) (x : Access) → slice_get accesses.now i ≡ Some x → x.location ≡ location → x.written ≡ Some value → IsTrue result }
{
    for access in accesses {
        if access.location == location && access.written == Some(value) {
            return true;
        }
    }
    false
}

/// Whether some access writes the value to the location. Where none does, it may answer so all the same.
pub fn writes_any(thread_traces: &[SharedTrace], location: u8, value: u32) -> bool
    ensures { (t i : ℕ) (c : ThreadTrace) (x : Access) → slice_get thread_traces.now t ≡ Some c → slice_get c.accesses i ≡ Some x → x.location ≡ location → x.written ≡ Some value → IsTrue result }
{
    for thread_trace in thread_traces {
        if thread_trace.writes(location, value) {
            return true;
        }
    }
    false
}
