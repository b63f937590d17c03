//! Sketches without rows: what is chosen in them is looked up in lists. They work out once what a thread does
//! under its values, and are cheap to make.
ghost use Rattle.std.specs.Prelude.{◌≡◌, ◌↔◌, ◌<◌, ℕ, IsTrue, IsSome, IfSome, IfOk, OnOk, OnErr, MatchOption, Contains, length, slice_get};
ghost use Rattle.std.specs.Option.{option_copied};
ghost use Rattle.std.specs.List.Sorted.{IsStrictlyIncreasing};
ghost use Rattle.candidate_executions.specs.declared.event.Event.{Event};
ghost use Rattle.candidate_executions.specs.Sketches as sketches;
ghost use Rattle.candidate_executions.specs.Settled.{IsSettled};
ghost use Rattle.candidate_executions.specs.Values.{IsValueOf};
ghost use Rattle.program_sketches.specs.Choices.{HasSource, CanRead, CanFollow};
ghost use Rattle.program_sketches.specs.ProgramSketches.{ProgramSketch, mode_in, nothing_chosen, with_chosen};
ghost use Rattle.tso_program.specs.Shown.{asked, ShowsValues};
ghost use Rattle.rowless_sketches.specs.Completions.{EndsOnlyAs};
ghost use Rattle.rowless_sketches.specs.RowlessSketches.{AreSomeLists, AreSources, IsFree, IsValueMarkOf, LacksSource};

use crate::next_trace::{Base, trace_after};
use crate::parts::Parts;
use crate::{Mode, SharedValues};
use candidate_executions::{Event, Kind};
use program_sketches::{copied, first_traces, with_room};
use std::alloc::{AllocError, Global};
use std::marker::Model;
use std::mem;
use thread_traces::{SharedTrace, TraceTree, value_lists};
use tso_program::{Outcome, Program, Shown};

/// A sketch without rows: values, sources and orders are chosen in it and taken back, and a known edge is looked
/// up by its definition.
#[derive(Drop)]
pub struct RowlessSketch {
    base: Base,
    thread_traces: Vec<SharedTrace>,
    sources: Vec<(Event, Event)>,
    pairs: Vec<(Event, Event)>,
    values: Vec<SharedValues>,
    tree: TraceTree,
}

/// What a thread did before it was given a value.
#[derive(Drop)]
pub struct ValueMark {
    thread: u8,
    trace: SharedTrace,
}

impl Model for ValueMark {
    ghost use Rattle.rowless_sketches.specs.RowlessSketches.{MarkedThread};

    ghost Value = { MarkedThread };

    ghost view = { λ m. record { thread = m.thread; trace = m.trace } };
}

impl Model for RowlessSketch {
    ghost use Rattle.program_sketches.specs.ProgramSketches.{ProgramSketch};

    ghost Value = { ProgramSketch };

    ghost use Rattle.gap_sets.specs.contracts.gap_set.GapSet as gap_set;
    ghost use Rattle.std.specs.Coded.{codes};

    ghost coded = { Prim.hlevel (codes, gap_set.the_row.coded) };

    ghost use Rattle.program_sketches.specs.Kept.{view_of};
    ghost use Rattle.rowless_sketches.specs.RowlessSketches.{KeepsChoices};

    ghost view = { λ s. view_of s.base.program s.base.mode s.thread_traces.items s.sources.items s.pairs.items };

    ghost invariant = { λ s. KeepsChoices s.base.program s.base.mode s.thread_traces.items s.sources.items s.pairs.items s.values.items s.tree };
}

impl RowlessSketch {
    /// A sketch with nothing chosen.
    pub fn new(alloc: Global, program: &Program, mode: Mode) -> Result<RowlessSketch, AllocError>
        ensures { IfOk result (λ sketch. sketch ≡ nothing_chosen program.now mode) }
    {
        let thread_traces = first_traces(alloc, program, mode)?;
        RowlessSketch::of_parts(
            alloc,
            &Parts {
                program,
                mode: &mode,
                thread_traces: thread_traces.as_slice(),
                sources: &[],
                pairs: &[],
            },
        )
    }

    /// The sketch that has these parts. Where each read has its value it lists no values.
    pub fn of_parts(alloc: Global, parts: &Parts<'_>) -> Result<RowlessSketch, AllocError>
        ensures { IfOk result (λ own. own ≡ parts.now) }
    {
        let values = needed_values(alloc, parts)?;
        Ok(RowlessSketch {
            base: Base {
                alloc,
                program: parts.program.copy()?,
                mode: *parts.mode,
            },
            thread_traces: copied(alloc, parts.thread_traces)?,
            sources: with_room(alloc, parts.sources)?,
            pairs: with_room(alloc, parts.pairs)?,
            values,
            tree: TraceTree::new(alloc, parts.thread_traces.len())?,
        })
    }

    fn parts(&self) -> Parts<'_>
        ensures { result ≡ self.now }
    {
        Parts {
            program: &self.base.program,
            mode: &self.base.mode,
            thread_traces: self.thread_traces.as_slice(),
            sources: self.sources.as_slice(),
            pairs: self.pairs.as_slice(),
        }
    }

    /// The program.
    pub fn program(&self) -> &Program
        ensures { result.now ≡ self.now.program }
    {
        &self.base.program
    }

    /// The location of thread t's first read that has no value yet.
    pub fn next_read(&self, t: u8) -> Option<u8>
        ensures value { result ≡ sketches.next_read self.now.program (mode_in self.now) self.now.chosen t }
        ensures located { IfSome result (λ location. location < length self.now.program.memory) }
    {
        self.parts().next_read(t)
    }

    /// The values that a location may hold, as in any sketch of the program.
    pub fn values_for(&self, location: u8) -> Result<SharedValues, AllocError>
        requires { location < length self.now.program.memory }
        ensures exact { IfOk result (λ values. (v : ℕ) → Contains values v ↔ IsValueOf self.now.program location v) }
        ensures ascending { IfOk result (λ values. IsStrictlyIncreasing values) }
    {
        match list_at(self.values.as_slice(), location) {
            Some(values) => values.copy(),
            None => {
                let lists = value_lists(self.base.alloc, &self.base.program)?;
                lists.as_slice()[location as usize].copy()
            }
        }
    }

    /// Gives a value to thread t's first read that has none.
    pub fn give_value(&mut self, t: u8, value: u32) -> Result<ValueMark, AllocError>
        requires read { IsSome (sketches.next_read self.old.program (mode_in self.old) self.old.chosen t) }
        requires value { (location : ℕ) → sketches.next_read self.old.program (mode_in self.old) self.old.chosen t ≡ Some location
            → IsValueOf self.old.program location value }
        ensures ok { OnOk result (self.new ≡ with_chosen self.old (sketches.with_value self.old.chosen t value)) }
        ensures mark { IfOk result (λ mark. IsValueMarkOf mark self.old) }
        ensures thread { IfOk result (λ mark. mark.thread ≡ t) }
        ensures err { OnErr result (self.new ≡ self.old) }
    {
        let place = t as usize;
        let thread_traces = self.thread_traces.as_slice();
        let given = &thread_traces[place];
        let next = trace_after(&self.base, &mut self.tree, given, t, value)?;
        let trace = mem::replace(&mut self.thread_traces[place], next);
        Ok(ValueMark { thread: t, trace })
    }

    /// Takes the value back.
    pub fn take_back(&mut self, mark: ValueMark)
        requires { (earlier : ProgramSketch) × (value : ℕ) × IsValueMarkOf mark earlier × (self.old ≡ with_chosen earlier (sketches.with_value earlier.chosen mark.thread value)) }
        ensures { (earlier : ProgramSketch) (value : ℕ) → IsValueMarkOf mark earlier → self.old ≡ with_chosen earlier (sketches.with_value earlier.chosen mark.thread value) → self.new ≡ earlier }
    {
        let place = mark.thread as usize;
        let own = mem::replace(&mut self.thread_traces[place], mark.trace);
        self.tree.leave(mark.thread, own);
    }

    /// Whether each read has its value.
    pub fn is_whole(&self) -> bool
        ensures { IsTrue result ↔ sketches.IsWhole self.now.program (mode_in self.now) self.now.chosen }
    {
        self.parts().is_whole()
    }

    /// Whether no thread but the read's own may still write what the read has read. So it is of what is no read.
    pub fn is_settled(&self, read: Event) -> bool
        ensures { IsTrue result ↔ IsSettled self.now.program (mode_in self.now) self.now.chosen read }
    {
        self.parts().is_settled(read)
    }

    /// Whether the event is a read that has its value, which no write gives it.
    pub fn lacks_source(&self, read: Event) -> bool
        ensures { IsTrue result → LacksSource self.now read }
    {
        self.parts().lacks_source(read)
    }

    /// The sources of a read that has its value, and no source yet: the initial write first, then by thread and
    /// index. `None` if the event is no such read.
    pub fn sources_of(&self, read: Event) -> Result<Option<Vec<Event>>, AllocError>
        ensures { IfOk result (λ found. MatchOption found (IsFree self.now read → ⊥) (λ sources. AreSources self.now read sources.items × (HasSource self.now read → ⊥))) }
    {
        let parts = self.parts();
        if parts.has_source(read) {
            return Ok(None);
        }
        parts.sources_of(self.base.alloc, read)
    }

    /// Chooses a read's source. Values may be given after it.
    pub fn choose_source(&mut self, read: Event, source: Event) -> Result<(), AllocError>
        requires { CanRead self.old read source }
        ensures ok { OnOk result (self.new ≡ with_chosen self.old (sketches.with_source self.old.chosen read source)) }
        ensures err { OnErr result (self.new ≡ self.old) }
    {
        self.sources.push((read, source))?;
        Ok(())
    }

    /// Takes back the source that was chosen last.
    pub fn drop_source(&mut self)
        ensures { (earlier : ProgramSketch) (read source : Event) → self.old ≡ with_chosen earlier (sketches.with_source earlier.chosen read source) → self.new ≡ earlier }
    {
        let _ = self.sources.pop();
    }

    /// Whether two accesses are writes to one location in no order yet.
    pub fn is_order_open(&self, first: Event, second: Event) -> bool
        ensures { IsTrue result ↔ CanFollow self.now first second }
    {
        let parts = self.parts();
        if !parts.is_pair(first, second) {
            return false;
        }
        !parts.is_ordered(first, second)
    }

    /// Chooses that the first write comes before the second. Values may be given after it.
    pub fn choose_order(&mut self, first: Event, second: Event) -> Result<(), AllocError>
        requires { CanFollow self.old first second }
        ensures ok { OnOk result (self.new ≡ with_chosen self.old (sketches.with_pair self.old.chosen first second)) }
        ensures err { OnErr result (self.new ≡ self.old) }
    {
        self.pairs.push((first, second))?;
        Ok(())
    }

    /// Takes back the order that was chosen last.
    pub fn drop_order(&mut self)
        ensures { (earlier : ProgramSketch) (first second : Event) → self.old ≡ with_chosen earlier (sketches.with_pair earlier.chosen first second) → self.new ≡ earlier }
    {
        let _ = self.pairs.pop();
    }

    /// Whether the outcome is shown of each completion, whatever is chosen further: once each read has its
    /// value, what is shown of the registers at the ends of the threads and of the value of each write that may
    /// be the last of its location; or the truth that is known of a formula. Only a formula takes memory.
    pub fn must_end_as(&self, shown: &Shown, outcome: &Outcome) -> Result<bool, AllocError>
        ensures ends { IfOk result (λ ends. IsTrue ends ↔ sketches.MustEndAs (asked self.now.program shown.now) (mode_in self.now) self.now.chosen outcome.now) }
        ensures completions { IfOk result (λ ends. IsTrue ends → EndsOnlyAs self.now shown.now outcome.now) }
        ensures refused { OnErr result (ShowsValues shown.now → ⊥) }
    {
        self.parts().must_end_as(self.base.alloc, shown, outcome)
    }

    /// Whether an edge of the union is known to lead from the first event to the second. A union of
    /// the other mode has none.
    pub fn is_edge(&self, kind: Kind, from: Event, to: Event) -> bool
        ensures { IsTrue result ↔ sketches.KnownEdgeOfMode self.now.program (mode_in self.now) self.now.chosen kind from to }
    {
        self.parts().is_edge(kind, from, to)
    }
}

/// The list of a location, if it is there.
fn list_at(lists: &[SharedValues], location: u8) -> Option<&SharedValues>
    ensures { option_copied result ≡ slice_get lists.now location }
{
    lists.get(location as usize)
}

/// The values of each location, or no lists where each read has its value.
fn needed_values(alloc: Global, parts: &Parts<'_>) -> Result<Vec<SharedValues>, AllocError>
    ensures { IfOk result (λ lists. AreSomeLists parts.now.program lists.items) }
{
    if parts.is_whole() {
        Ok(Vec::new(alloc))
    } else {
        value_lists(alloc, parts.program)
    }
}
