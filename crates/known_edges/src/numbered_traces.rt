//! What all threads do under their given values, and all their accesses.
ghost use Rattle.std.specs.Prelude.{◌≡◌, ◌≤◌, ◌<◌, ◌↔◌, ◌⊎◌, ℕ, [], Some, IfOk, OnOk, IsTrue, IfSome, MatchOption, Contains, length, slice_get};
ghost use Rattle.std.specs.List.{AllPairs};
ghost use Rattle.tso_program.specs.declared.limits.TheConstants.{MAX_THREADS, MAX_INSTRUCTIONS};
ghost use Rattle.bit_rows.specs.Rows.{IsIn, RowHas};
ghost use Rattle.bit_rows.specs.declared.row.TheConstants.{ROW_BITS};
ghost use Rattle.candidate_executions.specs.declared.event.Event.{Event};
ghost use Rattle.candidate_executions.specs.Events.{ComesBefore};
ghost use Rattle.program_sketches.specs.Known.{IsInitialWrite};
ghost use Rattle.program_sketches.specs.TracedAccesses.{accesses_at, traced_access, EachEnds, IsOfThreads};
ghost use Rattle.known_edges.specs.Rows.{AreAccesses, AreBeyond, AreCounts, HaveLocations, AreNumbered, AreOfSketch, AreStarts, AreWriteRows, FitRow, HasWrites, IsEarly, IsRowOf, IsWriteAt, InOrder, AreRowsOf};

use crate::thread_rows::later_than;
use bit_rows::{ROW_BITS, Relation, joined, raised, with};
use candidate_executions::{Event, Kind};
use program_sketches::{access_at, each_ends};
use std::alloc::{AllocError, Global};
use std::marker::Model;
use thread_traces::SharedTrace;
use tso_program::{MAX_LOCATIONS, MAX_THREADS};

/// What the threads do, and once each read has its value, all their accesses by thread and index. The
/// place of an access is its number: the start of its thread, and its index.
#[derive(Drop)]
pub struct Traces {
    thread_traces: Vec<SharedTrace>,
    events: Vec<Event>,
    whole: bool,
    starts: [u8; MAX_THREADS],
    counts: [u8; MAX_THREADS],
    written: [u32; MAX_LOCATIONS],
}

impl Model for Traces {
    ghost use Rattle.known_edges.specs.Rows.{NumberedTraces};

    ghost Value = { NumberedTraces };

    ghost use Rattle.known_edges.specs.Rows.{KeepsTraceNumbers};

    ghost view = { λ t. record { thread_traces = t.thread_traces.items; events = t.events.items } };

    ghost invariant = { λ t. KeepsTraceNumbers t.thread_traces.items t.events.items t.whole t.starts t.counts t.written };
}

impl Traces {
    /// These traces, and their accesses, which get numbers once each read has its value.
    pub fn new(alloc: Global, thread_traces: Vec<SharedTrace>) -> Result<Traces, AllocError>
        requires { AreOfSketch thread_traces.items }
        ensures thread_traces { IfOk result (λ traces. traces.thread_traces ≡ thread_traces.items) }
        ensures numbered { IfOk result (λ traces. AreNumbered thread_traces.items traces.events) }
    {
        let mut starts = [0; MAX_THREADS];
        let mut counts = [0; MAX_THREADS];
        if !each_ends(thread_traces.as_slice()) {
            return Ok(Traces {
                thread_traces,
                events: Vec::new(alloc),
                whole: false,
                starts,
                counts,
                written: [0; MAX_LOCATIONS],
            });
        }
        let mut events = Vec::with_capacity(alloc, ROW_BITS)?;
        number_accesses(
            thread_traces.as_slice(),
            &mut events,
            &mut starts,
            &mut counts,
        )?;
        let written = write_rows(thread_traces.as_slice(), events.as_slice());
        Ok(Traces {
            thread_traces,
            events,
            whole: true,
            starts,
            counts,
            written,
        })
    }

    /// What the threads do.
    pub fn thread_traces(&self) -> &[SharedTrace]
        ensures { result.now ≡ self.now.thread_traces }
    {
        self.thread_traces.as_slice()
    }

    /// The accesses that have numbers.
    pub fn events(&self) -> &[Event]
        ensures { result.now ≡ self.now.events }
    {
        self.events.as_slice()
    }

    /// Whether each thread has come to its end.
    pub fn is_whole(&self) -> bool
        ensures { IsTrue result ↔ EachEnds self.now.thread_traces }
    {
        self.whole
    }

    /// The number of an event.
    pub fn number_of(&self, event: Event) -> Option<usize>
        ensures { MatchOption result (Contains self.now.events event → ⊥) (λ d. (d < length self.now.events) × (slice_get self.now.events d ≡ Some event)) }
    {
        match event {
            Event::Initial(_) => None,
            Event::Access(t, i) => {
                let start = *self.starts.get(t as usize)?;
                let count = *self.counts.get(t as usize)?;
                if i < count {
                    Some(start as usize + i as usize)
                } else {
                    None
                }
            }
        }
    }

    /// The program order of the union, which joins its steps.
    pub(crate) fn order_rows(&self, kind: Kind) -> Relation
        requires { (d e f : Event) → InOrder self.now.thread_traces kind d e → InOrder self.now.thread_traces kind e f → InOrder self.now.thread_traces kind d f }
        ensures { AreRowsOf self.now.events (InOrder self.now.thread_traces kind) result }
    {
        let mut rows = [0; ROW_BITS];
        for (d, from) in self.events.as_slice().iter().enumerate() {
            rows[d] = self.later_in_order(kind, d, *from);
        }
        Relation::of_order(rows)
    }

    /// The accesses to which the union has program order from the one with this number: those of its
    /// thread, whose numbers begin where the thread does.
    fn later_in_order(&self, kind: Kind, number: usize, from: Event) -> u32
        requires { slice_get self.now.events number ≡ Some from }
        ensures { IsRowOf self.now.events (InOrder self.now.thread_traces kind from) result }
    {
        match from {
            Event::Initial(_) => 0,
            Event::Access(t, i) => {
                let start = number - i as usize;
                let thread_traces = self.thread_traces.as_slice();
                let accesses = thread_traces[t as usize].trace().accesses.as_slice();
                raised(later_than(kind, accesses, i as usize), start as u8)
            }
        }
    }

    /// The row of one event.
    pub fn row_of(&self, event: Event) -> u32
        ensures { IsRowOf self.now.events (λ e. e ≡ event) result }
    {
        // For the proof alone: what holds of all traces is known where a field of them is read.
        let _ = &self.events;
        match self.number_of(event) {
            Some(number) => with(0, number as u8),
            None => 0,
        }
    }

    /// The accesses that write.
    pub fn writes(&self) -> u32
        ensures { HasWrites self.now.thread_traces self.now.events result }
    {
        joined_all(&self.written)
    }

    /// The accesses that write the location.
    pub fn writes_to(&self, location: u8) -> u32
        ensures { IsRowOf self.now.events (IsWriteAt self.now.thread_traces location) result }
    {
        match self.written.get(location as usize) {
            Some(row) => *row,
            None => 0,
        }
    }
}

/// The numbers of all rows.
fn joined_all(rows: &[u32]) -> u32
    ensures { (d e : ℕ) → RowHas rows.now d e → IsIn result e }
{
    let mut all = 0;
    for row in rows {
        all = joined(all, *row);
    }
    all
}

/// Lists all accesses, the numbers at which the threads begin, and how many accesses they have.
fn number_accesses(
    thread_traces: &[SharedTrace],
    events: &mut Vec<Event>,
    starts: &mut [u8],
    counts: &mut [u8],
) -> Result<(), AllocError>
    requires few { length thread_traces.now ≤ MAX_THREADS }
    requires short { (t : ℕ) → length (accesses_at thread_traces.now t) ≤ MAX_INSTRUCTIONS }
    requires fit { FitRow thread_traces.now }
    requires none { events.old.items ≡ [] }
    requires starts { length starts.old ≡ MAX_THREADS }
    requires counts { (length counts.old ≡ MAX_THREADS) × AreCounts events.old.items counts.old }
    ensures accesses { OnOk result (AreAccesses thread_traces.now events.new.items) }
    ensures starts { OnOk result (AreStarts events.new.items starts.new) }
    ensures counts { OnOk result (AreCounts events.new.items counts.new) }
{
    for (t, thread_trace) in thread_traces.iter().enumerate() {
        starts[t] = events.len() as u8;
        let accesses = thread_trace.trace().accesses.len() as u8;
        counts[t] = accesses;
        push_thread(accesses, t as u8, events)?;
    }
    Ok(())
}

/// For each location the row of the accesses that write it.
fn write_rows(thread_traces: &[SharedTrace], events: &[Event]) -> [u32; MAX_LOCATIONS]
    requires few { length events.now ≤ ROW_BITS }
    requires located { HaveLocations thread_traces.now }
    ensures { AreWriteRows thread_traces.now events.now result }
{
    let mut rows = [0; MAX_LOCATIONS];
    for (d, event) in events.iter().enumerate() {
        put_write(&mut rows, location_written(thread_traces, *event), d as u8);
    }
    rows
}

/// Puts a number into the row of a location, if there is one.
fn put_write(rows: &mut [u32], location: Option<u8>, number: u8)
    requires number { number < ROW_BITS }
    requires there { IfSome location (λ l. l < length rows.old) }
    ensures { (l k : ℕ) → RowHas rows.new l k ↔ (RowHas rows.old l k ⊎ ((location ≡ Some l) × (k ≡ number))) }
{
    if let Some(l) = location {
        let place = l as usize;
        rows[place] = with(rows[place], number);
    }
}

/// The location that an access writes, if it writes one.
fn location_written(thread_traces: &[SharedTrace], event: Event) -> Option<u8>
    ensures { (l : ℕ) → (result ≡ Some l) ↔ IsWriteAt thread_traces.now l event }
{
    match access_at(thread_traces, event) {
        Some(access) => if access.written.is_some() {
            Some(access.location)
        } else {
            None
        },
        None => None,
    }
}

/// Appends all accesses to the events, by thread and index.
pub fn push_events(thread_traces: &[SharedTrace], events: &mut Vec<Event>) -> Result<(), AllocError>
    requires few { length thread_traces.now ≤ MAX_THREADS }
    requires short { (t : ℕ) → length (accesses_at thread_traces.now t) ≤ MAX_INSTRUCTIONS }
    requires initial { (e : Event) → Contains events.old.items e → IsInitialWrite e }
    ensures exact { OnOk result ((e : Event) → Contains events.new.items e ↔ (Contains events.old.items e ⊎ IsOfThreads thread_traces.now e)) }
    ensures ordered { OnOk result (AllPairs ComesBefore events.old.items → AllPairs ComesBefore events.new.items) }
{
    for (t, thread_trace) in thread_traces.iter().enumerate() {
        push_thread(thread_trace.trace().accesses.len() as u8, t as u8, events)?;
    }
    Ok(())
}

/// Appends the first accesses of thread t to the events.
fn push_thread(accesses: u8, t: u8, events: &mut Vec<Event>) -> Result<(), AllocError>
    requires { (e : Event) → Contains events.old.items e → ComesBefore e (Event.Access t 0) }
    ensures exact { OnOk result ((e : Event) → Contains events.new.items e ↔ (Contains events.old.items e ⊎ IsEarly t accesses e)) }
    ensures places { OnOk result (AreBeyond events.old.items t events.new.items) }
    ensures ordered { OnOk result (AllPairs ComesBefore events.old.items → AllPairs ComesBefore events.new.items) }
{
    for i in 0..accesses {
        events.push(Event::Access(t, i))?;
    }
    Ok(())
}
