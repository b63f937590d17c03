//! A state of the sequential machine, and its steps.
ghost use Rattle.std.specs.Prelude.{◌≡◌, ◌<◌, ◌↔◌, length, IsTrue, IfOk, IfSome, MatchOption};
ghost use Rattle.tso_program.specs.Actions.{IsLocated};
ghost use Rattle.tso_program.specs.declared.action.Action.TheVariants.{Stop};
ghost use Rattle.sequential_states.specs.Internal.Snapshots.{first_shot, acted, FitsProgram, IsStep, IsLocal, HasLocalStep, HasNoStep, StandsAt};

use std::alloc::{AllocError, Global};
use std::marker::Model;
use tso_program::{Action, Local, Program};

/// What the threads and the locations hold.
#[derive(Drop)]
pub(crate) struct Snapshot {
    locals: Vec<Local>,
    memory: Vec<u32>,
}

impl Model for Snapshot {
    ghost use Rattle.sequential_states.specs.Internal.Snapshots.{Shot};

    ghost Value = { Shot };

    ghost view = { λ s. record { locals = s.locals.items; memory = s.memory.items } };
}

impl Snapshot {
    /// The state at the start of a program.
    pub(crate) fn start(alloc: Global, program: &Program) -> Result<Snapshot, AllocError>
        ensures { IfOk result (λ s. s ≡ first_shot program.now) }
    {
        let mut locals = Vec::new(alloc);
        for thread in program.threads() {
            locals.push(Local {
                place: 0,
                registers: thread.registers,
                flag: false,
            })?;
        }
        Ok(Snapshot {
            locals,
            memory: Vec::from_slice(alloc, program.memory())?,
        })
    }

    /// An equal state.
    pub(crate) fn copy(&self, alloc: Global) -> Result<Snapshot, AllocError>
        ensures { IfOk result (λ s. s ≡ self.now) }
    {
        Ok(Snapshot {
            locals: Vec::from_slice(alloc, self.locals.as_slice())?,
            memory: Vec::from_slice(alloc, self.memory.as_slice())?,
        })
    }

    /// Whether thread t's next instruction is instruction k.
    pub(crate) fn stands_at(&self, t: u8, k: u8) -> bool
        ensures { IsTrue result ↔ StandsAt self.now t k }
    {
        match self.locals.as_slice().get(t as usize) {
            Some(local) => local.place == k,
            None => false,
        }
    }

    /// The first thread whose step reads and writes no location.
    pub(crate) fn local_thread(&self, program: &Program) -> Option<u8>
        ensures { IfSome result (HasLocalStep program.now self.now) }
    {
        let threads = program.threads().len() as u8;
        for t in 0..threads {
            if self.has_local_step(program, t) {
                return Some(t);
            }
        }
        None
    }

    /// Whether thread t's step reads and writes no location.
    fn has_local_step(&self, program: &Program, t: u8) -> bool
        ensures { IsTrue result → HasLocalStep program.now self.now t }
    {
        match self.locals.as_slice().get(t as usize) {
            Some(local) => is_local(program.action(t, *local)),
            None => false,
        }
    }

    /// The state after thread t's next instruction, where it has one.
    pub(crate) fn after(
        &self,
        alloc: Global,
        program: &Program,
        t: u8,
    ) -> Result<Option<Snapshot>, AllocError>
        requires { FitsProgram program.now self.now }
        ensures { IfOk result (λ after. MatchOption after (HasNoStep program.now self.now t) (IsStep program.now self.now t)) }
    {
        let place = t as usize;
        if place >= self.locals.len() {
            return Ok(None);
        }
        let action = program.action(t, self.locals[place]);
        if is_stop(action) {
            return Ok(None);
        }
        let mut next = self.copy(alloc)?;
        next.act(place, action);
        Ok(Some(next))
    }

    /// An action of thread t.
    fn act(&mut self, t: usize, action: Action)
        requires there { t < length self.old.locals }
        requires located { IsLocated (length self.old.memory) action }
        ensures { self.new ≡ acted self.old t action }
    {
        match action {
            Action::Stop => {}
            Action::Go(next) | Action::Wait(next) => self.locals[t] = next,
            Action::Read(location, to, next) => {
                self.locals[t] = next.with(to, self.memory[location as usize]);
            }
            Action::Write(location, value, next) => {
                self.locals[t] = next;
                self.memory[location as usize] = value;
            }
            Action::Swap(location, value, to, next) => {
                self.locals[t] = next.with(to, self.memory[location as usize]);
                self.memory[location as usize] = value;
            }
        }
    }

    /// Whether the two are equal. They may be, too, where the answer is no.
    pub(crate) fn same(&self, other: &Snapshot) -> bool
        ensures { IsTrue result → self.now ≡ other.now }
    {
        same_locals(self.locals.as_slice(), other.locals.as_slice()) && self.memory == other.memory
    }

    /// A number that equal states share.
    pub(crate) fn fingerprint(&self) -> u64 {
        let mut print = 0;
        for local in &self.locals {
            print = local_print(print, *local);
        }
        for value in &self.memory {
            print = stirred(print, *value);
        }
        print
    }
}

/// Whether a thread is at its end.
fn is_stop(action: Action) -> bool
    ensures { IsTrue result ↔ (action ≡ Stop) }
{
    matches!(action, Action::Stop)
}

/// Whether an action leads its thread on and reads and writes no location.
fn is_local(action: Action) -> bool
    ensures { IsTrue result → IsLocal action }
{
    matches!(action, Action::Go(_) | Action::Wait(_))
}

/// Whether two threads are in one state.
fn same_local(local: Local, other: Local) -> bool
    ensures { IsTrue result → local ≡ other }
{
    local.place == other.place && local.flag == other.flag && local.registers == other.registers
}

/// Whether threads are in the same states, one by one.
fn same_locals(locals: &[Local], others: &[Local]) -> bool
    ensures { IsTrue result → locals.now ≡ others.now }
{
    if locals.len() != others.len() {
        return false;
    }
    for t in 0..locals.len() {
        if !same_local(locals[t], others[t]) {
            return false;
        }
    }
    true
}

/// A fingerprint with a thread's own state.
fn local_print(print: u64, local: Local) -> u64 {
    let mut next = stirred(print, local.place as u32);
    next = stirred(next, local.flag as u32);
    for value in &local.registers {
        next = stirred(next, *value);
    }
    next
}

/// A fingerprint with one more number.
fn stirred(print: u64, value: u32) -> u64 {
    let mixed = (print ^ value as u64).wrapping_mul(0x9e37_79b9_7f4a_7c15);
    mixed ^ (mixed >> 29)
}
