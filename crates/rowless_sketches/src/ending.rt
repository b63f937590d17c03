//! Whether a sketch must end as an outcome, looked up in what is chosen.
ghost use Rattle.std.specs.Prelude.{◌≡◌, ◌↔◌, ◌<◌, ℕ, Some, IfOk, OnErr, IsTrue, length};
ghost use Rattle.tso_program.specs.Shown.{show_registers, asked, ShowsValues};
ghost use Rattle.candidate_executions.specs.declared.event.Event.{Event};
ghost use Rattle.rowless_sketches.specs.Endings.{final_registers, IsOwn, HasEnds, HasEndOf};
ghost use Rattle.program_sketches.specs.Writes.{HasLater, WritesTo, IsWritten, IsWrittenBy};
ghost use Rattle.program_sketches.specs.ProgramSketches.{trace_in, mode_in, access_in};
ghost use Rattle.program_sketches.specs.Known.{IsInitialWrite};
ghost use Rattle.candidate_executions.specs.Sketches.{EndsInValues, EndsInTruth, MustEndAs, IsWhole};

use crate::parts::Parts;
use candidate_executions::{Access, Event};
use program_sketches::is_same;
use std::alloc::{AllocError, Global};
use thread_traces::is_write_to;
use tso_program::{Formula, Outcome, REGISTERS, Shown};

impl Parts<'_> {
    /// Whether the outcome is shown of each completion, whatever is chosen further: once each read has its
    /// value, what is shown of the registers at the ends of the threads and of the value of each write that may
    /// be the last of its location; or the truth that is known of a formula. Only a formula takes memory.
    pub(crate) fn must_end_as(
        &self,
        alloc: Global,
        shown: &Shown,
        outcome: &Outcome,
    ) -> Result<bool, AllocError>
        ensures ends { IfOk result (λ ends. IsTrue ends ↔ MustEndAs (asked self.now.program shown.now) (mode_in self.now) self.now.chosen outcome.now) }
        ensures refused { OnErr result (ShowsValues shown.now → ⊥) }
    {
        match shown {
            Shown::All => Ok(self.ends_whole(shown, outcome)),
            Shown::Only(_) => Ok(self.ends_whole(shown, outcome)),
            Shown::Truth(formula) => self.ends_told(alloc, formula, outcome),
        }
    }

    /// Whether the outcome is shown of each completion, where values are shown.
    fn ends_whole(&self, shown: &Shown, outcome: &Outcome) -> bool
        ensures { IsTrue result ↔ (IsWhole self.now.program (mode_in self.now) self.now.chosen × EndsInValues self.now.program (mode_in self.now) self.now.chosen shown.now outcome.now) }
    {
        if !self.is_whole() {
            return false;
        }
        self.ends_in(shown, outcome)
    }

    /// Whether the outcome is shown of each completion of a sketch in which each read has its value.
    fn ends_in(&self, shown: &Shown, outcome: &Outcome) -> bool
        ensures { IsTrue result ↔ EndsInValues self.now.program (mode_in self.now) self.now.chosen shown.now outcome.now }
    {
        if !self.has_memory(shown, outcome.memory.as_slice()) {
            return false;
        }
        self.has_registers(shown, outcome.registers.as_slice())
    }

    /// Whether the outcome is shown of each completion, where a formula's truth is shown.
    fn ends_told(
        &self,
        alloc: Global,
        formula: &Formula,
        outcome: &Outcome,
    ) -> Result<bool, AllocError>
        ensures { IfOk result (λ ends. IsTrue ends ↔ EndsInTruth self.now.program (mode_in self.now) self.now.chosen formula.now outcome.now) }
    {
        let known = self.knows(alloc, formula)?;
        match outcome.told_truth() {
            Some(true) => Ok(known.is_true),
            Some(false) => Ok(known.is_false),
            None => Ok(false),
        }
    }

    /// Whether the memory has the value of each write that may be the last of its location, as far as it is
    /// shown.
    fn has_memory(&self, shown: &Shown, memory: &[u32]) -> bool
        ensures { IsTrue result ↔ HasEnds self.now shown.now memory.now }
    {
        if memory.len() != self.program.memory().len() {
            return false;
        }
        self.has_initial_ends(shown, memory) && self.has_ends(shown, memory)
    }

    /// Whether the memory has the value of each initial write that may be the last of its location, as far as it is
    /// shown.
    fn has_initial_ends(&self, shown: &Shown, memory: &[u32]) -> bool
        requires long { length memory.now ≡ length self.now.program.memory }
        ensures { IsTrue result ↔ ((l : ℕ) → l < length memory.now → HasEndOf self.now shown.now memory.now (Event.Initial l)) }
    {
        for (l, held) in memory.iter().enumerate() {
            let initial = self.program.memory()[l];
            if shown.value(l, initial) != *held && !self.is_written(l as u8) {
                return false;
            }
        }
        true
    }

    /// Whether the memory has the value of each access that may be the last write of its location, as far as it is
    /// shown.
    fn has_ends(&self, shown: &Shown, memory: &[u32]) -> bool
        requires long { length memory.now ≡ length self.now.program.memory }
        ensures { IsTrue result ↔ ((e : Event) → IsOwn self.now e → HasEndOf self.now shown.now memory.now e) }
    {
        let threads = self.thread_traces.len() as u8;
        for t in 0..threads {
            if !self.thread_has_ends(t, shown, memory) {
                return false;
            }
        }
        true
    }

    /// Whether the memory has the value of each access of a thread that may be the last write of its location, as far
    /// as it is shown.
    fn thread_has_ends(&self, t: u8, shown: &Shown, memory: &[u32]) -> bool
        requires long { length memory.now ≡ length self.now.program.memory }
        ensures { IsTrue result ↔ ((i : ℕ) → i < length (trace_in self.now t).accesses → HasEndOf self.now shown.now memory.now (Event.Access t i)) }
    {
        for (i, access) in self.accesses_of(t).iter().enumerate() {
            if !self.has_end(Event::Access(t, i as u8), *access, shown, memory) {
                return false;
            }
        }
        true
    }

    /// Whether the memory has what an event writes, which reads and writes as x, if it may be the last write of its
    /// location, as far as it is shown.
    fn has_end(&self, event: Event, x: Access, shown: &Shown, memory: &[u32]) -> bool
        requires access { access_in self.now event ≡ Some x }
        requires other { IsInitialWrite event → ⊥ }
        requires long { length memory.now ≡ length self.now.program.memory }
        ensures { IsTrue result ↔ HasEndOf self.now shown.now memory.now event }
    {
        let Some(value) = x.written else {
            return true;
        };
        match memory.get(x.location as usize) {
            Some(held) => {
                shown.value(x.location as usize, value) == *held || self.has_later(event)
            }
            None => true,
        }
    }

    /// Whether these are shown of the registers at the ends of the threads.
    fn has_registers(&self, shown: &Shown, registers: &[[u32; REGISTERS]]) -> bool
        ensures { IsTrue result ↔ (registers.now ≡ show_registers shown.now (final_registers self.now)) }
    {
        if registers.len() != self.thread_traces.len() {
            return false;
        }
        for (t, held) in registers.iter().enumerate() {
            let ended = shown.registers(t, self.last_registers(t));
            if !is_equal(*held, ended) {
                return false;
            }
        }
        true
    }

    /// The registers where thread t stops.
    pub fn last_registers(&self, t: usize) -> [u32; REGISTERS]
        requires { t < length self.now.program.threads }
        ensures { result ≡ (trace_in self.now t).last.registers }
    {
        let thread_traces = self.thread_traces;
        thread_traces[t].trace().last.registers
    }

    /// Whether a chosen pair puts a write after this one.
    pub(crate) fn has_later(&self, event: Event) -> bool
        ensures { IsTrue result ↔ HasLater self.now event }
    {
        for pair in self.pairs {
            if is_same(pair.0, event) {
                return true;
            }
        }
        false
    }

    /// Whether some access writes the location.
    pub(crate) fn is_written(&self, location: u8) -> bool
        ensures { IsTrue result ↔ IsWritten self.now location }
    {
        let threads = self.thread_traces.len() as u8;
        for t in 0..threads {
            if self.thread_writes(t, location) {
                return true;
            }
        }
        false
    }

    fn thread_writes(&self, t: u8, location: u8) -> bool
        ensures { IsTrue result ↔ IsWrittenBy self.now t location }
    {
        for i in 0..self.accesses(t) {
            if self.writes(Event::Access(t, i), location) {
                return true;
            }
        }
        false
    }

    /// Whether an event writes the location.
    fn writes(&self, event: Event, location: u8) -> bool
        ensures { IsTrue result ↔ WritesTo self.now event location }
    {
        match self.access(event) {
            Some(access) => is_write_to(access, location),
            None => false,
        }
    }
}

fn is_equal(a: [u32; REGISTERS], b: [u32; REGISTERS]) -> bool
    ensures { IsTrue result ↔ (a ≡ b) }
{
    a == b
}
