//! Program order between the accesses of one thread.
ghost use Rattle.std.specs.Prelude.{◌↔◌, IsTrue};
ghost use Rattle.thread_traces.specs.ThreadOrder.{IsKeptBy};
ghost use Rattle.candidate_executions.specs.Consistency.{KeepsOrder};

use candidate_executions::{Access, Kind};

/// Whether the union has program order from an access to a later one of its thread.
pub fn is_kept_by(kind: Kind, x: Access, y: Access) -> bool
    ensures { IsTrue result ↔ IsKeptBy kind x y }
{
    match kind {
        Kind::Sequential => true,
        Kind::Location => x.location == y.location,
        Kind::Global => is_kept(x, y),
    }
}

/// Whether program order between two accesses is kept: the first reads, or the second writes, or
/// their sections differ.
fn is_kept(x: Access, y: Access) -> bool
    ensures { IsTrue result ↔ KeepsOrder x y }
{
    x.read.is_some() || y.written.is_some() || x.section != y.section
}
