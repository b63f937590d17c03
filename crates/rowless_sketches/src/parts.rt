//! What is chosen in a sketch, and what follows from it without rows.
ghost use Rattle.std.specs.Prelude.{◌≡◌, ◌↔◌, ◌<◌, ◌≤◌, Some, None, IsTrue, IfSome, Contains, length, slice_index};
ghost use Rattle.tso_program.specs.declared.limits.TheConstants.{MAX_ACCESSES};
ghost use Rattle.candidate_executions.specs.declared.event.Event.{Event};
ghost use Rattle.candidate_executions.specs.Consistency.{IsOfMode};
ghost use Rattle.candidate_executions.specs.Sketches as sketches;
ghost use Rattle.candidate_executions.specs.Sketches.{IsBefore, IsPair, IsSourceOf, KnownFromReads, KnownRelates, KnownEdge, KnownEdgeOfMode};
ghost use Rattle.program_sketches.specs.ProgramSketches.{mode_in, access_in, trace_in};
ghost use Rattle.program_sketches.specs.Choices.{HasSource, IsOrdered};
ghost use Rattle.program_sketches.specs.Known.{SourcePart};

use crate::Mode;
use candidate_executions::{Access, Event, Kind};
use program_sketches::{
    each_ends, has_pair, is_initial, is_one_thread, is_same, keeps_order, write_together,
};
use std::marker::Model;
use thread_traces::{SharedTrace, thread_trace_at};
use tso_program::Program;

/// The parts of a sketch that are no rows, borrowed.
#[derive(Drop)]
pub struct Parts<'a> {
    pub program: &'a Program,
    pub mode: &'a Mode,
    pub thread_traces: &'a [SharedTrace],
    pub sources: &'a [(Event, Event)],
    pub pairs: &'a [(Event, Event)],
}

impl<'a> Model for Parts<'a> {
    ghost use Rattle.program_sketches.specs.ProgramSketches.{ProgramSketch};

    ghost Value = { ProgramSketch };

    ghost use Rattle.gap_sets.specs.contracts.gap_set.GapSet as gap_set;
    ghost use Rattle.std.specs.Coded.{codes};

    ghost coded = { Prim.hlevel (codes, gap_set.the_row.coded) };

    ghost use Rattle.program_sketches.specs.Kept.{view_of, KeepsTraces};

    ghost view = { λ s. view_of s.program.now s.mode.now s.thread_traces.now s.sources.now s.pairs.now };

    ghost invariant = { λ s. KeepsTraces s.program.now s.mode.now s.thread_traces.now s.sources.now s.pairs.now };
}

impl Parts<'_> {
    /// Whether each read has its value.
    pub(crate) fn is_whole(&self) -> bool
        ensures { IsTrue result ↔ sketches.IsWhole self.now.program (mode_in self.now) self.now.chosen }
    {
        each_ends(self.thread_traces)
    }

    /// The location of thread t's first read that has no value yet.
    pub fn next_read(&self, t: u8) -> Option<u8>
        ensures value { result ≡ sketches.next_read self.now.program (mode_in self.now) self.now.chosen t }
        ensures located { IfSome result (λ location. location < length self.now.program.memory) }
    {
        match thread_trace_at(self.thread_traces, t as usize) {
            Some(thread_trace) => thread_trace.next,
            None => None,
        }
    }

    /// The accesses of thread t so far.
    pub(crate) fn accesses_of(&self, t: u8) -> &[Access]
        ensures value { result.now ≡ (trace_in self.now t).accesses }
        ensures few { length result.now ≤ MAX_ACCESSES }
    {
        match thread_trace_at(self.thread_traces, t as usize) {
            Some(thread_trace) => thread_trace.accesses.as_slice(),
            None => &[],
        }
    }

    /// How many accesses thread t has so far.
    pub fn accesses(&self, t: u8) -> u8
        ensures { result ≡ length (trace_in self.now t).accesses }
    {
        self.accesses_of(t).len() as u8
    }

    /// What an event reads and writes, if it is there.
    pub(crate) fn access(&self, event: Event) -> Option<Access>
        ensures { result ≡ access_in self.now event }
    {
        match event {
            Event::Initial(location) => Some(self.initial(location)),
            Event::Access(t, i) => match self.thread_traces.get(t as usize) {
                Some(thread_trace) => thread_trace.access(i),
                None => None,
            },
        }
    }

    /// What the initial write of a location writes.
    fn initial(&self, location: u8) -> Access
        ensures { Some result ≡ access_in self.now (Event.Initial location) }
    {
        initial_write(self.program, location)
    }

    /// The chosen source of a read.
    pub fn source(&self, read: Event) -> Option<Event>
        ensures { (source : Event) → (result ≡ Some source) ↔ Contains self.now.chosen.sources (read, source) }
    {
        for chosen in self.sources {
            if is_same(chosen.0, read) {
                return Some(chosen.1);
            }
        }
        None
    }

    /// Whether a read has a source.
    pub(crate) fn has_source(&self, read: Event) -> bool
        ensures { IsTrue result ↔ HasSource self.now read }
    {
        self.source(read).is_some()
    }

    /// Whether an event is another write to the read's location with its value.
    pub fn is_source(&self, source: Event, read: Event) -> bool
        ensures { IsTrue result ↔ IsSourceOf self.now.program (mode_in self.now) self.now.chosen source read }
    {
        if is_same(source, read) {
            return false;
        }
        let Some(x) = self.access(read) else {
            return false;
        };
        let Some(y) = self.access(source) else {
            return false;
        };
        match (x.read, y.written) {
            (Some(v), Some(w)) => y.location == x.location && w == v,
            _ => false,
        }
    }

    /// Whether they are two writes to one location, neither of them initial.
    pub fn is_pair(&self, first: Event, second: Event) -> bool
        ensures { IsTrue result ↔ IsPair self.now.program (mode_in self.now) self.now.chosen first second }
    {
        if is_same(first, second) {
            return false;
        }
        if is_initial(first) {
            return false;
        }
        if is_initial(second) {
            return false;
        }
        match self.access(first) {
            Some(x) => match self.access(second) {
                Some(y) => write_together(x, y),
                None => false,
            },
            None => false,
        }
    }

    /// Whether the first write is chosen to come before the second.
    pub(crate) fn before(&self, first: Event, second: Event) -> bool
        ensures { IsTrue result ↔ Contains self.now.chosen.pairs (first, second) }
    {
        has_pair(self.pairs, first, second)
    }

    /// Whether two writes are in order, one way or the other.
    pub(crate) fn is_ordered(&self, first: Event, second: Event) -> bool
        ensures { IsTrue result ↔ IsOrdered self.now first second }
    {
        self.before(first, second) || self.before(second, first)
    }

    /// Whether an edge of the union is known to lead from the first event to the second. A union of
    /// the other mode has none.
    pub(crate) fn is_edge(&self, kind: Kind, from: Event, to: Event) -> bool
        ensures { IsTrue result ↔ KnownEdgeOfMode self.now.program (mode_in self.now) self.now.chosen kind from to }
    {
        self.has_union(kind) && self.comes_first(kind, from, to)
    }

    /// Whether the union is one of the mode's.
    pub fn has_union(&self, kind: Kind) -> bool
        ensures { IsTrue result ↔ IsOfMode (mode_in self.now) kind }
    {
        match (self.mode, kind) {
            (Mode::Sequential, Kind::Sequential) => true,
            (Mode::Fenced(_), Kind::Location | Kind::Global) => true,
            _ => false,
        }
    }

    /// Whether an edge of the union is known to lead from the first event to the second, whichever mode the union
    /// is of.
    pub fn comes_first(&self, kind: Kind, from: Event, to: Event) -> bool
        ensures { IsTrue result ↔ KnownEdge self.now.program (mode_in self.now) self.now.chosen kind from to }
    {
        let Some(x) = self.access(from) else {
            return false;
        };
        let Some(y) = self.access(to) else {
            return false;
        };
        self.relates(kind, from, x, to, y)
    }

    /// Whether the union is known to lead from one event to another, which read and write as x and y.
    fn relates(&self, kind: Kind, from: Event, x: Access, to: Event, y: Access) -> bool
        ensures { IsTrue result ↔ KnownRelates self.now.chosen kind from x to y }
    {
        if keeps_order(kind, from, x, to, y) {
            return true;
        }
        if self.is_read_by(kind, from, to) {
            return true;
        }
        if self.is_before(from, to, y) {
            return true;
        }
        self.reads_before(from, to, y)
    }

    /// Whether the union has reads-from from a read's chosen source.
    fn is_read_by(&self, kind: Kind, source: Event, read: Event) -> bool
        ensures { IsTrue result ↔ SourcePart self.now.chosen kind source read }
    {
        match kind {
            Kind::Sequential | Kind::Location => self.takes_source(read, source),
            Kind::Global => {
                if is_one_thread(source, read) {
                    return false;
                }
                self.takes_source(read, source)
            }
        }
    }

    /// Whether the source is chosen for the read.
    fn takes_source(&self, read: Event, source: Event) -> bool
        ensures { IsTrue result ↔ Contains self.now.chosen.sources (read, source) }
    {
        has_pair(self.sources, read, source)
    }

    /// Whether an event is known to come before a write: by a chosen pair, or as the initial write of
    /// its location.
    fn is_before(&self, first: Event, second: Event, write: Access) -> bool
        ensures { IsTrue result ↔ IsBefore self.now.chosen first second write }
    {
        if self.before(first, second) {
            return true;
        }
        if !is_same(first, Event::Initial(write.location)) {
            return false;
        }
        if is_same(second, first) {
            return false;
        }
        write.written.is_some()
    }

    /// Whether a read's chosen source is known to come before another write.
    fn reads_before(&self, read: Event, second: Event, write: Access) -> bool
        ensures { IsTrue result ↔ KnownFromReads self.now.chosen read second write }
    {
        match self.source(read) {
            Some(source) => !is_same(read, second) && self.is_before(source, second, write),
            None => false,
        }
    }
}

/// What the initial write of a location writes.
pub fn initial_write(program: &Program, location: u8) -> Access
    ensures { result ≡ record { section = 0; location = location; read = None; written = Some (slice_index program.now.memory location) } }
{
    let value = program.memory().get(location as usize).copied();
    Access {
        section: 0,
        location,
        read: None,
        written: Some(value.unwrap_or(0)),
    }
}
