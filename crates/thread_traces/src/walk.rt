//! The walk of one thread under its given values, an instruction at a time.
ghost use Rattle.std.specs.Prelude.{◌≡◌, ◌<◌, ◌≤◌, ◌+◌, ℕ, [], length, Some, IfOk, IfSome};
ghost use Rattle.tso_program.specs.Actions.{IsLocated};
ghost use Rattle.candidate_executions.specs.declared.access.Access.{Access};
ghost use Rattle.candidate_executions.specs.Sketches as sketches;
ghost use Rattle.candidate_executions.specs.Traces.{entered, store_of};
ghost use Rattle.tso_machine.specs.Modes.{machine_of_mode};
ghost use Rattle.thread_traces.specs.ThreadTraces.{GoesOn, IsTraceSoFarOf, IsThreadTraceOf, first_local};

use crate::sections::ends_section;
use crate::thread_trace::{SharedTrace, ThreadTrace};
use candidate_executions::Access;
use std::alloc::{AllocError, Global};
use tso_machine::Mode;
use tso_program::{Action, Items, Local, Program, REGISTERS, Reg};

/// A thread on its way: the section that it is in, and how many given values its reads have taken.
#[derive(Drop)]
struct TraceSoFar {
    accesses: Items<Access>,
    last: Local,
    section: u8,
    taken: usize,
}

impl TraceSoFar {
    /// A thread at its start, with room for this many accesses.
    fn new(
        alloc: Global,
        registers: [u32; REGISTERS],
        accesses: usize,
    ) -> Result<TraceSoFar, AllocError>
        ensures start { IfOk result (λ walk. walk ≡ record { accesses = []; last = first_local registers; section = 0; taken = 0 }) }
        ensures six { length registers ≡ 6 }
    {
        let last = Local {
            place: 0,
            registers,
            flag: false,
        };
        Ok(TraceSoFar {
            accesses: Items::of(Vec::with_capacity(alloc, accesses)?),
            last,
            section: 0,
            taken: 0,
        })
    }

    /// A section ends where a fenced gap is met.
    fn enter(&mut self, fenced: bool)
        requires { self.old.section < 255 }
        ensures { self.new ≡ record self.old { section = entered fenced self.old.section } }
    {
        if fenced {
            self.section += 1;
        }
    }

    /// One instruction: whether the thread goes on after it.
    fn go_on(&mut self, action: Action, given: &[u32]) -> Result<bool, AllocError>
        requires { self.old.section < 255 }
        ensures goes { IfOk result (GoesOn self.old.section self.old self.new action given.now) }
        ensures section { IfOk result (λ on. self.new.section ≤ self.old.section + 1) }
    {
        match action {
            Action::Stop => Ok(false),
            Action::Go(next) => {
                self.last = next;
                Ok(true)
            }
            Action::Wait(next) => {
                self.section += 1;
                self.last = next;
                Ok(true)
            }
            Action::Write(location, value, next) => {
                self.accesses.push(store(self.section, location, value))?;
                self.last = next;
                Ok(true)
            }
            Action::Read(location, to, next) => self.load(location, to, next, given),
            Action::Swap(location, value, to, next) => {
                self.exchange(location, value, to, next, given)
            }
        }
    }

    /// A load takes the next given value, where there is one.
    fn load(
        &mut self,
        location: u8,
        to: Reg,
        next: Local,
        given: &[u32],
    ) -> Result<bool, AllocError>
        ensures goes { IfOk result (GoesOn self.old.section self.old self.new (Action.Read location to next) given.now) }
        ensures section { IfOk result (λ on. self.new.section ≡ self.old.section) }
    {
        let Some(value) = given.get(self.taken).copied() else {
            return Ok(false);
        };
        let load = Access {
            section: self.section,
            location,
            read: Some(value),
            written: None,
        };
        self.accesses.push(load)?;
        self.taken += 1;
        self.last = next.with(to, value);
        Ok(true)
    }

    /// An exchange takes the next given value, where there is one, and ends its section.
    fn exchange(
        &mut self,
        location: u8,
        written: u32,
        to: Reg,
        next: Local,
        given: &[u32],
    ) -> Result<bool, AllocError>
        requires { self.old.section < 255 }
        ensures goes { IfOk result (GoesOn self.old.section self.old self.new (Action.Swap location written to next) given.now) }
        ensures section { IfOk result (λ on. self.new.section ≤ self.old.section + 1) }
    {
        let Some(value) = given.get(self.taken).copied() else {
            return Ok(false);
        };
        let exchange = Access {
            section: self.section,
            location,
            read: Some(value),
            written: Some(written),
        };
        self.accesses.push(exchange)?;
        self.taken += 1;
        self.section += 1;
        self.last = next.with(to, value);
        Ok(true)
    }
}

fn store(section: u8, location: u8, value: u32) -> Access
    ensures { result ≡ store_of section location value }
{
    Access {
        section,
        location,
        read: None,
        written: Some(value),
    }
}

/// Thread t on its way to its end, or to its first read that has no value.
fn walked(
    alloc: Global,
    program: &Program,
    mode: Mode,
    t: u8,
    given: &[u32],
) -> Result<TraceSoFar, AllocError>
    requires { t < length program.now.threads }
    ensures { IfOk result (IsTraceSoFarOf program.now (machine_of_mode program.now mode) t given.now) }
{
    let thread = &program.threads()[t as usize];
    let mut walk = TraceSoFar::new(alloc, thread.registers, thread.code.len())?;
    for step in 0..thread.code.len() {
        let fenced = ends_section(program, mode, t, walk.last.place);
        let action = program.action(t, walk.last);
        walk.enter(fenced);
        if !walk.go_on(action, given)? {
            return Ok(walk);
        }
    }
    Ok(walk)
}

/// What thread t does under its given values.
pub fn thread_trace_of(
    alloc: Global,
    program: &Program,
    mode: Mode,
    t: u8,
    given: Items<u32>,
) -> Result<SharedTrace, AllocError>
    requires { t < length program.now.threads }
    ensures { IfOk result (IsThreadTraceOf program.now (machine_of_mode program.now mode) t given) }
{
    let walk = walked(alloc, program, mode, t, given.as_slice())?;
    let next = read_by(program.action(t, walk.last));
    let trace = ThreadTrace {
        given,
        accesses: walk.accesses,
        last: walk.last,
        next,
    };
    SharedTrace::new(alloc, trace)
}

/// The location that an action reads.
fn read_by(action: Action) -> Option<u8>
    ensures value { result ≡ sketches.read_by action }
    ensures located { (locations : ℕ) → IsLocated locations action → IfSome result (λ location. location < locations) }
{
    match action {
        Action::Read(location, _, _) | Action::Swap(location, _, _, _) => Some(location),
        _ => None,
    }
}
