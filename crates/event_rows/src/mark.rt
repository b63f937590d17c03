//! What is chosen at one time, to go back to.
use crate::event_graph::EventGraph;
use crate::rows::EventRows;
use crate::trace_end::TraceEnd;

/// What is chosen at one time: the rows, and where one thread stands.
#[derive(Drop)]
pub struct Mark {
    rows: EventRows,
    thread: u8,
    state: TraceEnd,
}

impl EventGraph {
    /// A mark to which choices of sources, of orders, and of values of thread t may be taken back.
    pub fn mark(&self, t: u8) -> Mark {
        Mark {
            rows: self.rows.copy(),
            thread: t,
            state: *self.state(t),
        }
    }

    /// Takes back the values that were chosen after the mark.
    pub fn take_back_values(&mut self, mark: &Mark) {
        self.put_state(mark.thread, mark.state);
    }

    /// Takes back the accesses and the edges that came after the mark.
    pub fn take_back_rows(&mut self, mark: &Mark) {
        self.rows = mark.rows.copy();
    }
}
