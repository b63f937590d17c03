//! What leaves and nodes of a tree rest on.
use crate::conflict_set::ConflictSet;
use crate::trail::Trail;
use candidate_executions::Kind;
use cert_forest::Rule;
use event_rows::{Decision, EventGraph, PossibleWrites, each_in, first_numbers, is_in, shifted};
use thread_traces::is_kept_by;
use tso_program::MAX_THREADS;

/// A graph, with the depths of its choices.
#[derive(Clone, Copy)]
pub struct Conflicts<'a> {
    /// What is chosen.
    pub graph: &'a EventGraph,
    /// At which depth it was chosen.
    pub trail: &'a Trail,
    /// The values that reads may have, and where they may be written.
    pub writes: &'a PossibleWrites,
    /// The rule of the tree.
    pub rule: Rule,
}

impl Conflicts<'_> {
    /// What a cycle rests on: each of its edges.
    pub fn of_cycle(&self, kind: Kind, round: &[u8]) -> ConflictSet {
        let mut set = ConflictSet::none();
        let mut from = round.last().copied().unwrap_or(0);
        for to in round {
            set.add_all(&self.of_edge(kind, from, *to));
            from = *to;
        }
        set
    }

    /// What an edge rests on: that its accesses are there, and the choices that make it, as few as may be.
    fn of_edge(&self, kind: Kind, from: u8, to: u8) -> ConflictSet {
        let mut set = self.trail.of_access(self.graph, from);
        set.add_all(&self.trail.of_access(self.graph, to));
        if self.is_program_order(kind, from, to) {
            return set;
        }
        match (self.choice_alone(kind, from, to), self.from_read(from, to)) {
            (Some(depth), Some(pair)) => if pair.len() > 1 {
                set.add(depth);
            } else {
                set.add_all(&pair);
            },
            (Some(depth), None) => set.add(depth),
            (None, Some(pair)) => set.add_all(&pair),
            (None, None) => {}
        }
        set
    }

    /// Whether the union keeps program order from one access to another.
    fn is_program_order(&self, kind: Kind, from: u8, to: u8) -> bool {
        let numbering = &self.graph.numbering;
        numbering.thread(from) == numbering.thread(to)
            && from < to
            && is_kept_by(kind, self.graph.access(from), self.graph.access(to))
    }

    /// The depth of a choice that makes the edge by itself: of an order, or of a source.
    fn choice_alone(&self, kind: Kind, from: u8, to: u8) -> Option<u16> {
        let rows = &self.graph.rows;
        if is_in(rows.later.at(from), to) {
            return Some(self.trail.order(from, to));
        }
        let numbering = &self.graph.numbering;
        let counts = kind != Kind::Global || numbering.thread(from) != numbering.thread(to);
        if counts && is_in(rows.readers.at(from), to) {
            return Some(self.trail.source(to));
        }
        None
    }

    /// The choices by which a read comes before a write: its source, and that this comes before the write.
    fn from_read(&self, read: u8, write: u8) -> Option<ConflictSet> {
        let graph = self.graph;
        let access = graph.access(read);
        if access.read.is_none() || is_in(graph.rows.unsourced, read) {
            return None;
        }
        let mut set = ConflictSet::none();
        set.add(self.trail.source(read));
        match graph.source(read) {
            Some(source) => {
                if !is_in(graph.rows.later.at(source), write) {
                    return None;
                }
                set.add(self.trail.order(source, write));
                set.add_all(&self.trail.of_access(graph, source));
                Some(set)
            }
            None => if is_in(graph.rows.written(access.location), write) {
                Some(set)
            } else {
                None
            },
        }
    }

    /// What it rests on that a graph in which each read has its value must end so: all values, and an order after each
    /// write of this row.
    pub fn of_end(&self, row: u32) -> ConflictSet {
        let mut set = ConflictSet::none();
        for t in 0..self.graph.thread_count() {
            set.add_all(&self.trail.of_values(t, self.graph.state(t).given));
        }
        for d in each_in(row) {
            let later = self.graph.rows.later.at(d);
            set.add(self.trail.first_order(d, later));
        }
        set
    }

    /// The values of the threads that have come to their ends.
    pub fn of_ended(&self) -> ConflictSet {
        let mut set = ConflictSet::none();
        for t in 0..self.graph.thread_count() {
            let state = self.graph.state(t);
            if state.next.is_none() {
                set.add_all(&self.trail.of_values(t, state.given));
            }
        }
        set
    }

    /// What the children of a node rest on.
    pub fn of_node(&self, decision: Decision) -> ConflictSet {
        match decision {
            Decision::Value(t) => self.trail.of_values(t, self.graph.state(t).given),
            Decision::Source(read) => self.of_sources(read),
            Decision::Order(first, second) => {
                let mut set = self.trail.of_access(self.graph, first);
                set.add_all(&self.trail.of_access(self.graph, second));
                set
            }
        }
    }

    /// What the list of a read's sources rests on: of each thread the values up to the first point at which it wrote the
    /// read's value as often as now, and might write it further or not as now.
    fn of_sources(&self, read: u8) -> ConflictSet {
        let mut set = self.trail.of_access(self.graph, read);
        let found = self.graph.matching(read);
        for t in 0..self.graph.thread_count() {
            let given = self.values_needed(t, read, found);
            set.add_all(&self.trail.of_values(t, given));
        }
        set
    }

    /// After how many values thread t had written the read's value as often as now, and might write it further or not as
    /// now.
    fn values_needed(&self, t: u8, read: u8, found: u32) -> u8 {
        let given = self.graph.state(t).given;
        let now = self.state_after(t, given, read, found);
        let mut needed = given;
        for _ in 0..given {
            let before = needed.saturating_sub(1);
            if self.state_after(t, before, read, found) != now {
                return needed;
            }
            needed = before;
        }
        needed
    }

    /// Which of the found writes thread t has after so many values, and whether it may still write the read's value. What
    /// the read's own thread writes after it is there in a whole tree alone.
    fn state_after(&self, t: u8, given: u8, read: u8, found: u32) -> (u32, bool) {
        let count = self.trail.accesses_after(t, given);
        let own = shifted(first_numbers(count), self.graph.numbering.start(t));
        let counts = match self.rule {
            Rule::Whole => true,
            Rule::Early => t != self.graph.numbering.thread(read),
        };
        (own & found, counts && self.may_write(t, given, read))
    }

    /// Whether thread t may still write the read's value after so many values.
    fn may_write(&self, t: u8, given: u8, read: u8) -> bool {
        let access = self.graph.access(read);
        match (self.trail.place_after(t, given), access.read) {
            (Some(place), Some(value)) => {
                self.writes.ends_of(access.location, value)[t as usize % MAX_THREADS] > place
            }
            _ => false,
        }
    }
}
