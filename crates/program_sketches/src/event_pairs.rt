//! Events compared, and looked up in lists of pairs.
ghost use Rattle.std.specs.Prelude.{◌≡◌, ◌↔◌, IsTrue, Contains, IsSome, IfOk, ◌<◌};
ghost use Rattle.candidate_executions.specs.Consistency.{Precedes, SameThread};
ghost use Rattle.candidate_executions.specs.declared.event.Event.{Event};
ghost use Rattle.program_sketches.specs.Known.{IsInitialWrite, OrderPart};

use candidate_executions::{Access, Event, Kind};
use std::alloc::{AllocError, Global};
use thread_traces::is_kept_by;

/// Whether two events are one.
pub fn is_same(a: Event, b: Event) -> bool
    ensures { IsTrue result ↔ (a ≡ b) }
{
    a == b
}

/// Whether a list has this pair.
pub fn has_pair(pairs: &[(Event, Event)], first: Event, second: Event) -> bool
    ensures { IsTrue result ↔ Contains pairs.now (first, second) }
{
    for pair in pairs {
        if is_same(pair.0, first) && is_same(pair.1, second) {
            return true;
        }
    }
    false
}

/// Whether the first is an earlier access of the second's thread.
pub(crate) fn precedes(a: Event, b: Event) -> bool
    ensures { IsTrue result ↔ Precedes a b }
{
    match (a, b) {
        (Event::Access(t, i), Event::Access(u, j)) => t == u && i < j,
        _ => false,
    }
}

/// Whether both are accesses of one thread.
pub fn is_one_thread(a: Event, b: Event) -> bool
    ensures { IsTrue result ↔ SameThread a b }
{
    match (a, b) {
        (Event::Access(t, _), Event::Access(u, _)) => t == u,
        _ => false,
    }
}

/// Whether both write, to one location.
pub fn write_together(x: Access, y: Access) -> bool
    ensures { IsTrue result ↔ ((x.location ≡ y.location) × IsSome x.written × IsSome y.written) }
{
    x.location == y.location && x.written.is_some() && y.written.is_some()
}

/// Whether an event is an initial write.
pub fn is_initial(event: Event) -> bool
    ensures { IsTrue result ↔ IsInitialWrite event }
{
    matches!(event, Event::Initial(_))
}

/// Whether the union has program order between two events.
pub fn keeps_order(kind: Kind, from: Event, x: Access, to: Event, y: Access) -> bool
    ensures { IsTrue result ↔ OrderPart kind from x to y }
{
    precedes(from, to) && is_kept_by(kind, x, y)
}

/// A copy of these pairs, with room for one more where there are any.
pub fn with_room(alloc: Global, pairs: &[(Event, Event)]) -> Result<Vec<(Event, Event)>, AllocError>
    ensures { IfOk result (λ copy. copy.items ≡ pairs.now) }
{
    if pairs.is_empty() {
        return Ok(Vec::new(alloc));
    }
    let mut copy = Vec::with_capacity(alloc, pairs.len() + 1)?;
    copy.extend_from_slice(pairs)?;
    Ok(copy)
}
