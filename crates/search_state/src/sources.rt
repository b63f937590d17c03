//! The sources of a read that are there, and how many of them close no cycle.
use event_rows::{EventGraph, each_in, one, reached_from};

/// A read without a source, how many sources it has, and how many of them close no cycle.
#[derive(Clone, Copy)]
pub(crate) struct OpenRead {
    pub(crate) read: u8,
    pub(crate) all: u32,
    pub(crate) open: u32,
}

/// Whether an access writes the value, if there is one.
pub(crate) fn writes_value(graph: &EventGraph, number: u8, value: Option<u32>) -> bool {
    match (graph.access(number).written, value) {
        (Some(written), Some(value)) => written == value,
        _ => false,
    }
}

/// Whether the initial write of a read's location writes its value.
pub(crate) fn reads_initial(graph: &EventGraph, read: u8) -> bool {
    let access = graph.access(read);
    match access.read {
        Some(value) => graph.initial(access.location) == value,
        None => false,
    }
}

/// The first read without a source of a value that is not there.
pub fn read_of_nobody(graph: &EventGraph) -> Option<u8> {
    for read in each_in(graph.rows.unsourced) {
        if graph.matching(read) == 0 && !reads_initial(graph, read) {
            return Some(read);
        }
    }
    None
}

/// How many sources a read has, and how many of them close no cycle.
pub(crate) fn open_read(graph: &EventGraph, read: u8) -> OpenRead {
    let writes = graph.matching(read);
    let may_follow = graph.rows.not_before(read, written_elsewhere(graph, read));
    let mut all = writes.count_ones();
    let mut open: u32 = 0;
    if reads_initial(graph, read) {
        all = all.saturating_add(1);
        open = u32::from(may_follow == written_elsewhere(graph, read));
    }
    for d in each_in(writes & !reached_by(graph, read)) {
        let follow = graph.rows.later.at(d) & !one(read);
        open = open.saturating_add(u32::from(follow & !may_follow == 0));
    }
    OpenRead { read, all, open }
}

/// The accesses that write a read's location, but for the read.
fn written_elsewhere(graph: &EventGraph, read: u8) -> u32 {
    graph.rows.written(graph.access(read).location) & !one(read)
}

/// The accesses to which a path leads from a read that a source of it would close: by the global union only those of other
/// threads.
fn reached_by(graph: &EventGraph, read: u8) -> u32 {
    let own = graph.accesses_of(graph.numbering.thread(read));
    reached_from(&graph.rows.main, read) | reached_from(&graph.rows.global, read) & !own
}
