//! Reads whose sources are all there.
use event_rows::{EventGraph, PossibleWrites};
use tso_program::MAX_THREADS;

/// Whether no other thread that goes on may still write the value of a read to its location.
pub(crate) fn is_settled(graph: &EventGraph, writes: &PossibleWrites, read: u8) -> bool {
    waits_for(graph, writes, read) == 0
}

/// The other threads that may still write the value of a read to its location, as the bits of a byte.
pub(crate) fn waits_for(graph: &EventGraph, writes: &PossibleWrites, read: u8) -> u8 {
    let access = graph.access(read);
    let Some(value) = access.read else {
        return 0;
    };
    let ends = writes.ends_of(access.location, value);
    going_before(graph, graph.numbering.thread(read), &ends)
}

/// The threads but for one that go on, and stop before these places.
pub(crate) fn going_before(graph: &EventGraph, own: u8, ends: &[u8; MAX_THREADS]) -> u8 {
    let mut row = 0;
    for t in 0..graph.thread_count() {
        let state = graph.state(t);
        if t != own && state.next.is_some() && ends[t as usize % MAX_THREADS] > state.last.place {
            row = row | 1u8 << (t as usize % MAX_THREADS);
        }
    }
    row
}
