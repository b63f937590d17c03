//! Events of threads as accesses, as trees name them.
ghost use Rattle.std.specs.Prelude.{◌≡◌, IfOk, Contains, map};
ghost use Rattle.candidate_executions.specs.declared.event.Event.{Event};
ghost use Rattle.tree_laws.specs.CoverTrees.{event_of};
ghost use Rattle.cover_search.specs.Accesses.{IsThreadEvent};

use cert_forest::AccessId;
use exec_axioms::Event;
use std::alloc::{AllocError, Global};

/// Events of threads as accesses.
pub(crate) fn accesses_of(alloc: Global, events: &[Event]) -> Result<Vec<AccessId>, AllocError>
    requires { (e : Event) → Contains events.now e → IsThreadEvent e }
    ensures { IfOk result (λ accesses. map event_of accesses.items ≡ events.now) }
{
    let mut accesses = Vec::with_capacity(alloc, events.len())?;
    for event in events {
        accesses.push(access_of(*event))?;
    }
    Ok(accesses)
}

/// An event of a thread as an access.
fn access_of(event: Event) -> AccessId
    requires { IsThreadEvent event }
    ensures { event_of result ≡ event }
{
    match event {
        Event::Access(thread, access) => AccessId { thread, access },
        Event::Initial(_) => unreachable!(),
    }
}
