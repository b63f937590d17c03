//! The state of a machine, and one step.
ghost use Rattle.std.specs.Prelude.{IsTrue, ◌↔◌, ◌≡◌, ◌<◌, ◌≤◌, ℕ, length, map, OnOk, IfOk, IfSome, MatchOption, IfErr, false, [], Some};
ghost use Rattle.std.specs.FinSet as set;
ghost use Rattle.tso_machine.specs.declared.label.Label.TheVariants as event;
ghost use Rattle.tso_machine.specs.declared.label.Model.TheVariants as models;
ghost use Rattle.tso_program.specs.declared.action.Action.TheVariants.{Stop};
ghost use Rattle.tso_machine.specs.Machine as machine;
ghost use Rattle.tso_machine.specs.Machine.{Machine, HasEnded, outcome_at};
ghost use Rattle.tso_machine.specs.Modes.{machine_of_model};
ghost use Rattle.tso_machine.specs.Internal.Cores.{state_of, first_cores, FitsProgram, passed_gap, gap_passed_by, core_at, Finished};
ghost use Rattle.tso_machine.specs.Faults.{thread_of, StepFaultIs, IsUnfinished};
ghost use Rattle.tso_machine.specs.Steps.{thread_at};
ghost use Rattle.gap_sets.specs.declared.gap_set.TheConstants.{MAX_GAPS};

use crate::cores::Core;
use crate::label::StepFault;
use crate::{Cause, Label, Model, ThreadState};
use gap_sets::GapSet;
use std::alloc::{AllocError, Global};
use std::marker;
use tso_program::{Action, Items, Outcome, Program};

/// The threads and the memory.
#[derive(Drop)]
pub(crate) struct State {
    cores: Vec<Core>,
    memory: Vec<u32>,
}

impl marker::Model for State {
    ghost use Rattle.tso_machine.specs.Internal.Cores.{Cores};

    ghost Value = { Cores };

    ghost view = { λ s. record { cores = s.cores.items; memory = s.memory.items } };
}

impl State {
    /// The state at the start of a program.
    pub(crate) fn start(alloc: Global, program: &Program) -> Result<State, AllocError>
        ensures { IfOk result (λ s. s ≡ first_cores program.now) }
    {
        let mut cores = Vec::new(alloc);
        for thread in program.threads() {
            cores.push(Core::new(alloc, thread.registers))?;
        }
        Ok(State {
            cores,
            memory: Vec::from_slice(alloc, program.memory())?,
        })
    }

    /// The thread of a step, where there is one.
    pub(crate) fn thread(
        &self,
        alloc: Global,
        program: &Program,
        label: Label,
    ) -> Result<ThreadState, StepFault>
        requires { FitsProgram program.now self.now }
        ensures found { IfOk result (λ thread. thread ≡ thread_at (state_of self.now) (thread_of label)) }
        ensures err { (mode : Machine) (s : machine.State) → IfErr result (StepFaultIs program.now mode s label) }
    {
        match self.cores.as_slice().get(label.thread() as usize) {
            Some(core) => match core.thread(alloc) {
                Ok(thread) => Ok(thread),
                Err(_) => Err(StepFault::OutOfMemory),
            },
            None => Err(StepFault::Refused(Cause::NoSuchThread)),
        }
    }

    /// The gap that a step passes, if it passes one.
    pub(crate) fn passed_gap(&self, program: &Program, label: Label) -> Option<u8>
        ensures value { result ≡ passed_gap program.now.threads self.now.cores label }
        ensures below { IfSome result (λ gap. gap < MAX_GAPS) }
    {
        match label {
            Label::Exec(t) => self.gap_before(program, t),
            Label::Flush(_) => None,
        }
    }

    /// The gap that thread t passes by its next instruction, if it passes one.
    fn gap_before(&self, program: &Program, t: u8) -> Option<u8>
        ensures value { result ≡ gap_passed_by program.now.threads t (core_at self.now.cores t) }
        ensures below { IfSome result (λ gap. gap < MAX_GAPS) }
    {
        match self.cores.as_slice().get(t as usize) {
            Some(core) => gap_passed(program, t, core),
            None => None,
        }
    }

    /// A thread that isn't at its end or has a waiting store, if there is one.
    pub(crate) fn unfinished(&self, program: &Program) -> Option<u8>
        requires { FitsProgram program.now self.now }
        ensures { MatchOption result (HasEnded program.now (state_of self.now)) (λ t. IsUnfinished program.now (state_of self.now) t) }
    {
        let threads = program.threads().len() as u8;
        for t in 0..threads {
            if !is_finished(program, t, &self.cores[t as usize]) {
                return Some(t);
            }
        }
        None
    }

    /// The registers of each thread, and what the locations hold.
    pub(crate) fn outcome(&self, alloc: Global) -> Result<Outcome, AllocError>
        ensures registers { IfOk result (λ outcome. outcome.registers ≡ map (λ core. core.local.registers) self.now.cores) }
        ensures memory { IfOk result (λ outcome. outcome.memory ≡ self.now.memory) }
    {
        let mut registers = Vec::new(alloc);
        for core in &self.cores {
            registers.push(core.local().registers)?;
        }
        let memory = Vec::from_slice(alloc, self.memory.as_slice())?;
        Ok(Outcome {
            registers: Items::of(registers),
            memory: Items::of(memory),
        })
    }

    /// One step, where it is possible.
    pub(crate) fn step(
        &mut self,
        program: &Program,
        fenced: &GapSet,
        model: Model,
        label: Label,
    ) -> Result<(), StepFault>
        requires fits { FitsProgram program.now self.old }
        requires direct { model ≡ models.Sequential → (t : ℕ) → (state_of self.old).buffers t ≡ [] }
        ensures ok { OnOk result (machine.step program.now (machine_of_model program.now fenced.now model) (state_of self.old) label ≡ Some (state_of self.new)) }
        ensures err { IfErr result (StepFaultIs program.now (machine_of_model program.now fenced.now model) (state_of self.old) label) }
        ensures fits { OnOk result (FitsProgram program.now self.new) }
    {
        match label {
            Label::Exec(t) => self.exec(program, fenced, model, t),
            Label::Flush(t) => self.flush(program, t),
        }
    }

    fn exec(
        &mut self,
        program: &Program,
        fenced: &GapSet,
        model: Model,
        t: u8,
    ) -> Result<(), StepFault>
        requires { FitsProgram program.now self.old }
        ensures ok { OnOk result (machine.step program.now (machine_of_model program.now fenced.now model) (state_of self.old) (event.Exec t) ≡ Some (state_of self.new)) }
        ensures err { IfErr result (StepFaultIs program.now (machine_of_model program.now fenced.now model) (state_of self.old) (event.Exec t)) }
        ensures fits { OnOk result (FitsProgram program.now self.new) }
    {
        let place = t as usize;
        if place >= self.cores.len() {
            return Err(StepFault::Refused(Cause::NoSuchThread));
        }
        let core = &mut self.cores[place];
        let local = core.local();
        let action = program.action(t, local);
        if is_stop(action) {
            return Err(StepFault::Refused(Cause::AtEnd));
        }
        let fenced_here = program.is_fenced(fenced, t, local.place);
        core.act(fenced_here, model, action, self.memory.as_mut_slice())
    }

    fn flush(&mut self, program: &Program, t: u8) -> Result<(), StepFault>
        requires { FitsProgram program.now self.old }
        ensures ok { OnOk result (machine.flushed (state_of self.old) t ((state_of self.old).buffers t) ≡ Some (state_of self.new)) }
        ensures err { (mode : Machine) → IfErr result (StepFaultIs program.now mode (state_of self.old) (event.Flush t)) }
        ensures fits { OnOk result (FitsProgram program.now self.new) }
    {
        let place = t as usize;
        if place >= program.threads().len() {
            return Err(StepFault::Refused(Cause::NoSuchThread));
        }
        match self.cores[place].take_oldest() {
            None => Err(StepFault::Refused(Cause::BufferEmpty)),
            Some(store) => {
                self.memory[store.location as usize] = store.value;
                Ok(())
            }
        }
    }
}

/// The gap that a thread passes by its next instruction, if it passes one.
fn gap_passed(program: &Program, t: u8, core: &Core) -> Option<u8>
    ensures value { result ≡ gap_passed_by program.now.threads t core.now }
    ensures below { IfSome result (λ gap. gap < MAX_GAPS) }
{
    if core.is_settled() {
        None
    } else {
        program.gap_number(t, core.local().place)
    }
}

/// Whether a thread is at its end, and none of its stores waits.
fn is_finished(program: &Program, t: u8, core: &Core) -> bool
    ensures { IsTrue result ↔ Finished program.now t core.now }
{
    core.is_settled() && is_stop(program.action(t, core.local()))
}

/// Whether a thread is at its end.
fn is_stop(action: Action) -> bool
    ensures { IsTrue result ↔ (action ≡ Stop) }
{
    matches!(action, Action::Stop)
}
