//! At which depth each choice of a search was made.
use crate::conflict_set::ConflictSet;
use bit_rows::ROW_BITS;
use event_rows::{EventGraph, GraphChoice, each_in};
use tso_program::MAX_THREADS;

/// How many values a thread may have been given, with none, at most: a power of two.
const GIVEN: usize = 64;

/// What stands for the place of a thread that has come to its end.
const ENDED: u8 = u8::MAX;

/// A thread after some of its values.
#[derive(Clone, Copy)]
struct Past {
    /// The depths at which it got them.
    depths: ConflictSet,
    /// How many accesses it has.
    accesses: u8,
    /// Where it stops.
    place: u8,
}

/// The depths of the choices of a graph, and where the threads stood before each value.
#[derive(Drop)]
pub struct Trail {
    /// Each thread after so many values.
    pasts: [[Past; GIVEN]; MAX_THREADS],
    /// After how many values of its thread an access is there.
    there_after: [u8; ROW_BITS],
    sources: [u16; ROW_BITS],
    /// The depth at which two writes got their order, one way or the other.
    orders: [[u16; ROW_BITS]; ROW_BITS],
}

impl Trail {
    /// That of a graph in which nothing is chosen.
    pub fn new(graph: &EventGraph) -> Trail {
        let past = Past {
            depths: ConflictSet::none(),
            accesses: 0,
            place: 0,
        };
        let mut trail = Trail {
            pasts: [[past; GIVEN]; MAX_THREADS],
            there_after: [0; ROW_BITS],
            sources: [0; ROW_BITS],
            orders: [[0; ROW_BITS]; ROW_BITS],
        };
        for t in 0..graph.thread_count() {
            trail.put_past(graph, t, ConflictSet::none(), 0);
        }
        trail
    }

    /// Puts down a choice that was made at a depth.
    pub fn put(&mut self, depth: u16, graph: &EventGraph, choice: GraphChoice) {
        match choice {
            GraphChoice::Value { thread, .. } => {
                let given = graph.state(thread).given;
                let before = self.past(thread, given.saturating_sub(1));
                let mut depths = before.depths;
                depths.add(depth);
                self.put_past(graph, thread, depths, before.accesses);
            }
            GraphChoice::Source { read, .. } => self.sources[read as usize % ROW_BITS] = depth,
            GraphChoice::Order { first, second } => {
                self.orders[first as usize % ROW_BITS][second as usize % ROW_BITS] = depth;
                self.orders[second as usize % ROW_BITS][first as usize % ROW_BITS] = depth;
            }
        }
    }

    /// Puts down where a thread stands: its accesses from this index on are there after its last value.
    fn put_past(&mut self, graph: &EventGraph, t: u8, depths: ConflictSet, before: u8) {
        let state = graph.state(t);
        for i in before..state.accesses {
            let number = graph.numbering.number(t, i);
            self.there_after[number as usize % ROW_BITS] = state.given;
        }
        self.pasts[t as usize % MAX_THREADS][state.given as usize % GIVEN] = Past {
            depths,
            accesses: state.accesses,
            place: if state.next.is_some() {
                state.last.place
            } else {
                ENDED
            },
        };
    }

    fn past(&self, t: u8, given: u8) -> Past {
        self.pasts[t as usize % MAX_THREADS][given as usize % GIVEN]
    }

    /// The first values of a thread, so many.
    pub(crate) fn of_values(&self, t: u8, given: u8) -> ConflictSet {
        self.past(t, given).depths
    }

    /// The values after which an access is there.
    pub(crate) fn of_access(&self, graph: &EventGraph, number: u8) -> ConflictSet {
        let given = self.there_after[number as usize % ROW_BITS];
        self.of_values(graph.numbering.thread(number), given)
    }

    /// The depth at which a read got its source.
    pub(crate) fn source(&self, read: u8) -> u16 {
        self.sources[read as usize % ROW_BITS]
    }

    /// The depth at which two writes got their order.
    pub(crate) fn order(&self, first: u8, second: u8) -> u16 {
        self.orders[first as usize % ROW_BITS][second as usize % ROW_BITS]
    }

    /// The least depth at which a write got its order before one of the row.
    pub(crate) fn first_order(&self, write: u8, row: u32) -> u16 {
        let mut least = u16::MAX;
        for d in each_in(row) {
            least = least.min(self.order(write, d));
        }
        least
    }

    /// How many accesses a thread has after so many values.
    pub(crate) fn accesses_after(&self, t: u8, given: u8) -> u8 {
        self.past(t, given).accesses
    }

    /// Where a thread stops after so many values. `None` if it has come to its end.
    pub(crate) fn place_after(&self, t: u8, given: u8) -> Option<u8> {
        let place = self.past(t, given).place;
        if place == ENDED { None } else { Some(place) }
    }
}
