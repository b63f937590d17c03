//! One thread of the machine.
ghost use Rattle.std.specs.Prelude.{◌≡◌, ◌<◌, ℕ, length, OnOk, false, [], ◌++◌, ◌∷◌, option_to_list, ◌+◌, IfErr, IfNone, IfOk, Some, slice_index};
ghost use Rattle.tso_program.specs.Actions.{IsLocated};
ghost use Rattle.tso_program.specs.declared.action.Action.TheVariants.{Stop};
ghost use Rattle.tso_machine.specs.Machine as machine;
ghost use Rattle.tso_machine.specs.Internal.Cores.{after_buffered, after_direct, after_action, ExecFaultIs};
ghost use Rattle.tso_machine.specs.Faults.{waits as does_wait};

use crate::label::{Cause, Model, StepFault};
use crate::{Pending, ThreadState};
use std::alloc::{AllocError, Global};
use std::marker;
use tso_program::{Action, Items, Local};

/// A thread, and its stores that wait.
#[derive(Drop)]
pub(crate) struct Core {
    local: Local,
    buffer: Vec<Pending>,
}

impl marker::Model for Core {
    ghost use Rattle.tso_machine.specs.Internal.Cores as cores;

    ghost Value = { cores.Core };

    ghost view = { λ c. record { local = c.local; buffer = c.buffer.items } };
}

impl Core {
    /// A thread at its start.
    pub(crate) fn new(alloc: Global, registers: [u32; 6]) -> Self
        ensures { result ≡ record { local = record { place = 0; registers = registers; flag = false }; buffer = [] } }
    {
        let local = Local {
            place: 0,
            registers,
            flag: false,
        };
        Core {
            local,
            buffer: Vec::new(alloc),
        }
    }

    /// An equal thread, as it is shown.
    pub(crate) fn thread(&self, alloc: Global) -> Result<ThreadState, AllocError>
        ensures { IfOk result (λ thread. thread ≡ record { local = self.now.local; waiting = self.now.buffer }) }
    {
        let waiting = Vec::from_slice(alloc, self.buffer.as_slice())?;
        Ok(ThreadState {
            local: self.local,
            waiting: Items::of(waiting),
        })
    }

    pub(crate) fn local(&self) -> Local
        ensures { result ≡ self.now.local }
    {
        self.local
    }

    pub(crate) fn is_settled(&self) -> bool
        ensures { result ≡ machine.is_empty self.now.buffer }
    {
        self.buffer.is_empty()
    }

    /// What a load reads.
    fn seen(&self, memory: &[u32], location: u8) -> u32
        requires { location < length memory.now }
        ensures { result ≡ machine.found (machine.newest location self.now.buffer) (slice_index memory.now location) }
    {
        match newest(self.buffer.as_slice(), location) {
            Some(v) => v,
            None => memory[location as usize],
        }
    }

    /// An action where stores wait in the buffer.
    fn act_buffered(&mut self, action: Action, memory: &mut [u32]) -> Result<(), AllocError>
        requires going { action ≡ Stop → ⊥ }
        requires located { IsLocated (length memory.old) action }
        ensures { OnOk result (after_buffered action self.old memory.old ≡ Some (self.new, memory.new)) }
    {
        match action {
            Action::Stop => unreachable!(),
            Action::Go(next) | Action::Wait(next) => self.local = next,
            Action::Read(location, to, next) => {
                let v = self.seen(memory, location);
                self.local = next.with(to, v);
            }
            Action::Write(location, value, next) => {
                self.buffer.push(Pending { location, value })?;
                self.local = next;
            }
            Action::Swap(location, value, to, next) => {
                self.local = next.with(to, memory[location as usize]);
                memory[location as usize] = value;
            }
        }
        Ok(())
    }

    /// An action where a store writes memory at once.
    fn act_directly(&mut self, action: Action, memory: &mut [u32])
        requires going { action ≡ Stop → ⊥ }
        requires located { IsLocated (length memory.old) action }
        ensures { after_direct action self.old memory.old ≡ Some (self.new, memory.new) }
    {
        match action {
            Action::Stop => unreachable!(),
            Action::Go(next) | Action::Wait(next) => self.local = next,
            Action::Read(location, to, next) => {
                self.local = next.with(to, memory[location as usize]);
            }
            Action::Write(location, value, next) => {
                memory[location as usize] = value;
                self.local = next;
            }
            Action::Swap(location, value, to, next) => {
                self.local = next.with(to, memory[location as usize]);
                memory[location as usize] = value;
            }
        }
    }

    /// An action of either machine, where it needn't wait.
    pub(crate) fn act(
        &mut self,
        fenced_here: bool,
        model: Model,
        action: Action,
        memory: &mut [u32],
    ) -> Result<(), StepFault>
        requires going { action ≡ Stop → ⊥ }
        requires located { IsLocated (length memory.old) action }
        ensures ok { OnOk result (after_action fenced_here model action self.old memory.old ≡ Some (self.new, memory.new)) }
        ensures err { IfErr result (ExecFaultIs fenced_here model action self.old) }
    {
        match model {
            Model::Sequential => {
                self.act_directly(action, memory);
                Ok(())
            }
            Model::Buffered => {
                if !self.is_settled() && (waits(action) || fenced_here) {
                    return Err(StepFault::Refused(Cause::FenceWaits));
                }
                match self.act_buffered(action, memory) {
                    Ok(()) => Ok(()),
                    Err(_) => Err(StepFault::OutOfMemory),
                }
            }
        }
    }

    /// Takes the oldest waiting store out of the buffer.
    pub(crate) fn take_oldest(&mut self) -> Option<Pending>
        ensures taken { self.old.buffer ≡ option_to_list result ++ self.new.buffer }
        ensures none { IfNone result (self.old.buffer ≡ []) }
        ensures rest { self.new ≡ record self.old { buffer = self.new.buffer } }
    {
        if self.buffer.is_empty() {
            return None;
        }
        Some(self.buffer.remove(0))
    }
}

/// The newest waiting store to a location.
fn newest(stores: &[Pending], location: u8) -> Option<u32>
    ensures { result ≡ machine.newest location stores.now }
{
    let mut found = None;
    for store in stores {
        if store.location == location {
            found = Some(store.value);
        }
    }
    found
}

/// Whether an action waits for an empty buffer.
fn waits(action: Action) -> bool
    ensures { result ≡ does_wait action }
{
    matches!(action, Action::Wait(_) | Action::Swap(..))
}
