//! Whose next read gets a value.
use crate::settled::{going_before, waits_for};
use crate::sources::{open_read, writes_value};
use candidate_executions::{Access, Kind};
use event_rows::{EventGraph, PossibleWrites, each_in, one, reached_from};
use tso_machine::Mode;
use tso_program::MAX_THREADS;

/// For each thread how many reads wait for it, and how many of them have no open source yet.
#[derive(Clone, Copy)]
struct WaitingReads {
    all: [u32; MAX_THREADS],
    lost: [u32; MAX_THREADS],
}

/// What speaks against a thread: the less the better, in this order.
#[derive(Clone, Copy, PartialEq, Eq, PartialOrd, Ord)]
struct Weight {
    /// Two, or the number of its open values if that is less.
    open_up_to_two: u32,
    /// How many reads without an open source do not wait for it.
    not_lost: u32,
    /// How many reads do not wait for it.
    not_waiting: u32,
    /// How many open values it has.
    open: u32,
}

/// The first thread whose next read has no value. `None` if each read has its value.
pub(crate) fn first_thread(graph: &EventGraph) -> Option<u8> {
    for t in 0..graph.thread_count() {
        if graph.state(t).next.is_some() {
            return Some(t);
        }
    }
    None
}

/// The thread whose next read gets a value next. `None` if each read has its value.
pub(crate) fn next_thread(graph: &EventGraph, writes: &PossibleWrites) -> Option<u8> {
    let waiting = waiting_reads(graph, writes);
    let mut best: Option<(Weight, u8)> = None;
    for t in 0..graph.thread_count() {
        if let Some(location) = graph.state(t).next {
            let own = (weight_of(graph, writes, &waiting, t, location), t);
            best = match best {
                Some(least) => Some(lighter(own, least)),
                None => Some(own),
            };
        }
    }
    match best {
        Some((_, t)) => Some(t),
        None => None,
    }
}

/// The lighter of two threads, the second if they are alike.
fn lighter(own: (Weight, u8), least: (Weight, u8)) -> (Weight, u8) {
    if own.0 < least.0 { own } else { least }
}

/// The weight of a thread whose next read is of this location.
fn weight_of(
    graph: &EventGraph,
    writes: &PossibleWrites,
    waiting: &WaitingReads,
    t: u8,
    location: u8,
) -> Weight {
    let open = open_values(graph, writes, t, location);
    let place = t as usize % MAX_THREADS;
    Weight {
        open_up_to_two: open.min(2),
        not_lost: 99u32.saturating_sub(waiting.lost[place]),
        not_waiting: 99u32.saturating_sub(waiting.all[place]),
        open,
    }
}

/// For each thread the reads without a source that wait for it.
fn waiting_reads(graph: &EventGraph, writes: &PossibleWrites) -> WaitingReads {
    let mut waiting = WaitingReads {
        all: [0; MAX_THREADS],
        lost: [0; MAX_THREADS],
    };
    for read in each_in(graph.rows.unsourced) {
        let threads = waits_for(graph, writes, read);
        if threads != 0 {
            let is_lost = open_read(graph, read).open == 0;
            add_threads(&mut waiting, threads, is_lost);
        }
    }
    waiting
}

/// One more read waits for each of the threads.
fn add_threads(waiting: &mut WaitingReads, threads: u8, is_lost: bool) {
    for t in 0..MAX_THREADS {
        if threads >> t & 1 == 1 {
            waiting.all[t] = waiting.all[t].saturating_add(1);
            waiting.lost[t] = waiting.lost[t].saturating_add(u32::from(is_lost));
        }
    }
}

/// How many values the next read of thread t may have without a cycle, as far as is known.
fn open_values(graph: &EventGraph, writes: &PossibleWrites, t: u8, location: u8) -> u32 {
    let before = row_before(graph, t, location);
    let mut count: u32 = 0;
    for (place, value) in writes.values(location).iter().enumerate() {
        let is_open = is_initial_open(graph, location, *value, before)
            || is_written_open(graph, location, *value, before)
            || going_before(graph, t, &writes.ends_at(location, place)) != 0;
        count = count.saturating_add(u32::from(is_open));
    }
    count
}

/// Whether the next read may have the initial write as its source.
fn is_initial_open(graph: &EventGraph, location: u8, value: u32, before: u32) -> bool {
    graph.initial(location) == value && graph.rows.written(location) & before == 0
}

/// Whether the next read may have a write that is there as its source.
fn is_written_open(graph: &EventGraph, location: u8, value: u32, before: u32) -> bool {
    for d in each_in(graph.rows.written(location)) {
        if writes_value(graph, d, Some(value)) && graph.rows.later.at(d) & before == 0 {
            return true;
        }
    }
    false
}

/// The accesses from which a path of some union leads to the next read of thread t, as far as is known of it.
fn row_before(graph: &EventGraph, t: u8, location: u8) -> u32 {
    match graph.mode() {
        Mode::Sequential => before_in(graph, Kind::Sequential, t, location),
        Mode::Fenced(_) => {
            before_in(graph, Kind::Location, t, location)
                | before_in(graph, Kind::Global, t, location)
        }
    }
}

/// The accesses from which a path of the union leads to the next read of thread t.
fn before_in(graph: &EventGraph, kind: Kind, t: u8, location: u8) -> u32 {
    let own = graph.kept_before(kind, t, next_access(graph, t, location));
    if own == 0 {
        return 0;
    }
    let relation = graph.rows.of_union(kind);
    let mut before = own;
    for d in each_in(graph.rows.present & !own) {
        if reached_from(relation, d) & own != 0 {
            before = before | one(d);
        }
    }
    before
}

/// The next read of thread t, with some value.
fn next_access(graph: &EventGraph, t: u8, location: u8) -> Access {
    let state = graph.state(t);
    Access {
        section: state.section,
        location,
        read: Some(0),
        written: if state.is_exchange { Some(0) } else { None },
    }
}
