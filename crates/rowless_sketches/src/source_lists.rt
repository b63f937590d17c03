//! The sources of a read, listed without rows.
ghost use Rattle.std.specs.Prelude.{◌≡◌, ◌↔◌, ◌⊎◌, ◌+◌, Some, IsTrue, IfOk, OnOk, MatchOption, Contains, length, slice_index};
ghost use Rattle.std.specs.List.{AllPairs};
ghost use Rattle.candidate_executions.specs.declared.event.Event.{Event};
ghost use Rattle.candidate_executions.specs.Events.{ComesBefore};
ghost use Rattle.candidate_executions.specs.Sketches.{IsSourceOf};
ghost use Rattle.program_sketches.specs.ProgramSketches.{mode_in};
ghost use Rattle.program_sketches.specs.Choices.{IsRead, ReadsThisValue};
ghost use Rattle.rowless_sketches.specs.RowlessSketches.{LacksSource, AreSources};
ghost use Rattle.rowless_sketches.specs.Internal.SourcesListed.{AreListedTo};

use crate::parts::Parts;
use candidate_executions::{Access, Event};
use program_sketches::{access_at, is_same};
use std::alloc::{AllocError, Global};
use thread_traces::{is_value, writes_any};

impl Parts<'_> {
    /// The sources of a read that has its value: the initial write first, then by thread and index. `None` if the
    /// event is no such read. Whether the read has a source already makes no difference.
    pub(crate) fn sources_of(
        &self,
        alloc: Global,
        read: Event,
    ) -> Result<Option<Vec<Event>>, AllocError>
        ensures { IfOk result (λ found. MatchOption found (IsRead self.now read → ⊥) (λ sources. AreSources self.now read sources.items)) }
    {
        // For the proof alone: what holds of every sketch is known where a field of it is read.
        let _ = &self.program;
        match self.location_and_value(read) {
            Some((location, value)) => {
                let mut sources = Vec::new(alloc);
                let initial = Event::Initial(location);
                self.push_if_source(initial, self.is_source(initial, read), read, &mut sources)?;
                self.push_sources(read, location, value, &mut sources)?;
                Ok(Some(sources))
            }
            None => Ok(None),
        }
    }

    /// The location that an event reads, and the value.
    pub(crate) fn location_and_value(&self, event: Event) -> Option<(u8, u32)>
        ensures { MatchOption result (IsRead self.now event → ⊥) (λ found. ReadsThisValue self.now event found.0 found.1) }
    {
        let access = self.access(event)?;
        let value = access.read?;
        Some((access.location, value))
    }

    /// Appends the accesses that are sources of the read, by thread and index.
    fn push_sources(
        &self,
        read: Event,
        location: u8,
        value: u32,
        sources: &mut Vec<Event>,
    ) -> Result<(), AllocError>
        requires { ReadsThisValue self.now read location value }
        ensures { OnOk result (AreListedTo self.now read 0 0 sources.old.items → AreListedTo self.now read (length self.now.program.threads) 0 sources.new.items) }
    {
        for (t, thread_trace) in self.thread_traces.iter().enumerate() {
            if thread_trace.writes(location, value) {
                self.push_sources_in(t as u8, read, location, value, sources)?;
            }
        }
        Ok(())
    }

    /// Appends the accesses of thread t that are sources of the read.
    fn push_sources_in(
        &self,
        t: u8,
        read: Event,
        location: u8,
        value: u32,
        sources: &mut Vec<Event>,
    ) -> Result<(), AllocError>
        requires { ReadsThisValue self.now read location value }
        ensures { OnOk result (AreListedTo self.now read t 0 sources.old.items → AreListedTo self.now read (t + 1) 0 sources.new.items) }
    {
        for (i, access) in self.accesses_of(t).iter().enumerate() {
            if writes_so(*access, location, value) {
                let event = Event::Access(t, i as u8);
                self.push_if_source(event, is_other(event, read), read, sources)?;
            }
        }
        Ok(())
    }

    /// Appends an event if it is a source of the read, as is said.
    fn push_if_source(
        &self,
        event: Event,
        is_source: bool,
        read: Event,
        sources: &mut Vec<Event>,
    ) -> Result<(), AllocError>
        requires { IsTrue is_source ↔ IsSourceOf self.now.program (mode_in self.now) self.now.chosen event read }
        ensures exact { OnOk result ((e : Event) → Contains sources.new.items e ↔ (Contains sources.old.items e ⊎ ((event ≡ e) × IsSourceOf self.now.program (mode_in self.now) self.now.chosen e read))) }
        ensures ordered { OnOk result (AllPairs ComesBefore sources.old.items → ((e : Event) → Contains sources.old.items e → ComesBefore e event) → AllPairs ComesBefore sources.new.items) }
    {
        if is_source {
            sources.push(event)?;
        }
        Ok(())
    }

    /// Whether the event is a read that has its value, which no write gives it.
    pub(crate) fn lacks_source(&self, read: Event) -> bool
        ensures { IsTrue result → LacksSource self.now read }
    {
        let Some(access) = access_at(self.thread_traces, read) else {
            return false;
        };
        let Some(value) = access.read else {
            return false;
        };
        if self.begins_with(access.location, value) {
            return false;
        }
        !writes_any(self.thread_traces, access.location, value)
    }

    /// Whether the location begins with the value.
    fn begins_with(&self, location: u8, value: u32) -> bool
        ensures { slice_index self.now.program.memory location ≡ value → IsTrue result }
    {
        match self.program.memory().get(location as usize) {
            Some(initial) => *initial == value,
            None => true,
        }
    }
}

/// Whether the access writes the value to the location.
fn writes_so(access: Access, location: u8, value: u32) -> bool
    ensures { IsTrue result ↔ ((access.location ≡ location) × (access.written ≡ Some value)) }
{
    access.location == location && is_value(access.written, value)
}

/// Whether an event is another one than the read.
fn is_other(event: Event, read: Event) -> bool
    ensures { IsTrue result ↔ (event ≡ read → ⊥) }
{
    !is_same(event, read)
}
