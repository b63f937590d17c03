//! The accesses of a run to memory, what they read from, and the order in which writes reach memory.

use crate::cells::{action_of, instruction_cell, push_value, written};
use litmus_text::Litmus;
use std::alloc::{AllocError, Global};
use tso_machine::Step;
use tso_program::{Action, Program};

/// An event of a candidate execution.
#[derive(Clone, Copy, PartialEq, Eq)]
pub enum RunEvent {
    /// The initial write of a location.
    Initial(usize),
    /// The access of a step, by the step's number.
    Access(usize),
}

/// An instruction that reads or writes memory. XCHG is one access, which does both.
#[derive(Drop)]
pub(crate) struct RunAccess {
    pub(crate) step: usize,
    pub(crate) thread: u8,
    /// The number of the instruction in its thread.
    pub(crate) instruction: u8,
    /// The instruction as it is written, what it reads and what it writes.
    pub(crate) text: Vec<u8>,
    /// The write that it reads from, if it reads.
    pub(crate) source: Option<RunEvent>,
}

/// A write of a step.
#[derive(Clone, Copy, PartialEq, Eq)]
pub(crate) struct Store {
    pub(crate) step: usize,
    thread: u8,
    pub(crate) location: usize,
}

/// The values that a step reads from a location and writes to it.
#[derive(Clone, Copy)]
struct Effect {
    location: usize,
    read: Option<u32>,
    write: Option<u32>,
}

/// What a step reads and writes, if it does.
fn effect_of(program: &Program, step: &Step) -> Option<Effect> {
    let found = step.after.local.registers;
    match action_of(program, step) {
        Action::Read(location, to, _) => Some(Effect {
            location: location as usize,
            read: Some(found[to.index()]),
            write: None,
        }),
        Action::Write(location, value, _) => Some(Effect {
            location: location as usize,
            read: None,
            write: Some(value),
        }),
        Action::Swap(location, value, to, _) => Some(Effect {
            location: location as usize,
            read: Some(found[to.index()]),
            write: Some(value),
        }),
        Action::Stop | Action::Go(_) | Action::Wait(_) => None,
    }
}

/// ` R x=1` and the like, if there is a value.
fn push_access(
    alloc: Global,
    out: &mut Vec<u8>,
    litmus: &Litmus<Program>,
    word: &[u8],
    location: usize,
    value: Option<u32>,
) -> Result<(), AllocError> {
    if let Some(value) = value {
        out.extend_from_slice(word)?;
        push_value(alloc, out, &litmus.names, location, value)?;
    }
    Ok(())
}

/// The instruction of a step as it is written, what it reads and what it writes, a line each.
fn access_text(
    alloc: Global,
    litmus: &Litmus<Program>,
    step: &Step,
    effect: Effect,
) -> Result<Vec<u8>, AllocError> {
    let location = effect.location;
    let mut out = instruction_cell(alloc, litmus, step)?;
    push_access(alloc, &mut out, litmus, b"\\nR ", location, effect.read)?;
    push_access(alloc, &mut out, litmus, b"\\nW ", location, effect.write)?;
    Ok(out)
}

/// The last of some writes to a location, or its initial write.
fn last_write(stores: &[Store], location: usize) -> RunEvent {
    let mut last = RunEvent::Initial(location);
    for store in stores {
        if store.location == location {
            last = RunEvent::Access(store.step);
        }
    }
    last
}

/// What the steps of a run have done.
#[derive(Drop)]
pub(crate) struct Execution {
    /// The accesses, in the order in which they are executed.
    pub(crate) accesses: Vec<RunAccess>,
    /// The writes, in the order in which they are executed.
    stores: Vec<Store>,
    /// The writes that are in memory, in the order in which they reached it.
    pub(crate) in_memory: Vec<Store>,
}

impl Execution {
    fn waits(&self, store: Store) -> bool {
        !self.in_memory.contains(&store)
    }

    /// The oldest write of a thread that waits.
    fn oldest_waiting(&self, thread: u8) -> Option<Store> {
        for store in &self.stores {
            if store.thread == thread && self.waits(*store) {
                return Some(*store);
            }
        }
        None
    }

    /// The newest write of a thread to a location that waits.
    fn newest_waiting(&self, thread: u8, location: usize) -> Option<Store> {
        let mut newest = None;
        for store in &self.stores {
            if store.thread == thread && store.location == location && self.waits(*store) {
                newest = Some(*store);
            }
        }
        newest
    }

    /// The write that a thread reads from.
    fn source(&self, thread: u8, location: usize) -> RunEvent {
        match self.newest_waiting(thread, location) {
            Some(store) => RunEvent::Access(store.step),
            None => last_write(&self.in_memory, location),
        }
    }

    /// Adds an access.
    fn add_access(
        &mut self,
        number: usize,
        step: &Step,
        effect: Effect,
        text: Vec<u8>,
    ) -> Result<(), AllocError> {
        let thread = step.label.thread();
        let location = effect.location;
        let source = match effect.read {
            Some(_) => Some(self.source(thread, location)),
            None => None,
        };
        self.accesses.push(RunAccess {
            step: number,
            thread,
            instruction: step.before.local.place,
            text,
            source,
        })?;
        if effect.write.is_some() {
            self.stores.push(Store {
                step: number,
                thread,
                location,
            })?;
        }
        Ok(())
    }

    /// Adds what a step does.
    fn add_step(
        &mut self,
        alloc: Global,
        litmus: &Litmus<Program>,
        number: usize,
        step: &Step,
    ) -> Result<(), AllocError> {
        let thread = step.label.thread();
        if let Some(effect) = effect_of(&litmus.program, step) {
            let text = access_text(alloc, litmus, step, effect)?;
            self.add_access(number, step, effect, text)?;
        }
        if written(&litmus.program, step).is_some() {
            if let Some(store) = self.oldest_waiting(thread) {
                self.in_memory.push(store)?;
            }
        }
        Ok(())
    }
}

/// What the steps of a run do.
pub(crate) fn execution_of(
    alloc: Global,
    litmus: &Litmus<Program>,
    steps: &[Step],
) -> Result<Execution, AllocError> {
    let mut execution = Execution {
        accesses: Vec::new(alloc),
        stores: Vec::new(alloc),
        in_memory: Vec::new(alloc),
    };
    for (number, step) in steps.iter().enumerate() {
        execution.add_step(alloc, litmus, number, step)?;
    }
    Ok(execution)
}

/// The write of the same location that reached memory last before a write, or the initial one.
pub(crate) fn write_before(in_memory: &[Store], store: Store) -> RunEvent {
    let mut last = RunEvent::Initial(store.location);
    for other in in_memory {
        if *other == store {
            return last;
        }
        if other.location == store.location {
            last = RunEvent::Access(other.step);
        }
    }
    last
}
