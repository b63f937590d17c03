//! What a sketch tells of a formula's truth.
ghost use Rattle.std.specs.Prelude.{◌≡◌, ◌↔◌, ◌<◌, ◌==◌, ℕ, List, [], Some, IfOk, IsSome, IsTrue, false, length, slice_get};
ghost use Rattle.tso_program.specs.declared.atom.Atom.TheVariants as atom;
ghost use Rattle.tso_program.specs.declared.atom.Atom.{Atom as AtomValue};
ghost use Rattle.tso_program.specs.Nodes.{Half};
ghost use Rattle.tso_program.specs.Tree as tree;
ghost use Rattle.tso_program.specs.Tree.{Tree};
ghost use Rattle.tso_program.specs.Truth.{is_true_at, is_value};
ghost use Rattle.tso_program.specs.Instructions.{number};
ghost use Rattle.candidate_executions.specs.Sketches.{next_read};
ghost use Rattle.rowless_sketches.specs.Endings.{final_registers, MayBe, MayBeBy, IsOfThread};
ghost use Rattle.program_sketches.specs.Writes.{IsLastWith};
ghost use Rattle.program_sketches.specs.Known.{IsInitialWrite};
ghost use Rattle.rowless_sketches.specs.Internal.KnownWalk.{after_node, KnowsAll};
ghost use Rattle.program_sketches.specs.KnownTruths.{joined};
ghost use Rattle.rowless_sketches.specs.Knowledge.{Knows};
ghost use Rattle.program_sketches.specs.ProgramSketches.{mode_in, access_in};

use crate::parts::Parts;
use candidate_executions::{Access, Event};
use program_sketches::{Knowledge, Left, joined, negated, settled, unsettled};
use std::alloc::{AllocError, Global};
use thread_traces::thread_trace_at;
use tso_program::{Atom, Formula, FormulaNode, REGISTERS, Reg};

impl Parts<'_> {
    /// What is known of the formula's truth, whatever is chosen further. Only the left operands that wait for
    /// their right ones take memory.
    pub fn knows(&self, alloc: Global, formula: &Formula) -> Result<Knowledge, AllocError>
        ensures { IfOk result (Knows self.now formula.now) }
    {
        let mut value = settled(false);
        let mut waiting = Vec::new(alloc);
        let nodes = formula.nodes();
        for node in nodes {
            value = self.knows_more(*node, value, &mut waiting)?;
        }
        Ok(value)
    }

    /// What is known after one node more.
    fn knows_more(
        &self,
        node: FormulaNode,
        value: Knowledge,
        waiting: &mut Vec<Left>,
    ) -> Result<Knowledge, AllocError>
        ensures { (f : Tree AtomValue) (hs : List Half) → KnowsAll self.now (f, hs) value waiting.old.items
            → IfOk result (λ next. KnowsAll self.now (after_node node f hs) next waiting.new.items) }
    {
        match node {
            FormulaNode::Atom(atom) => Ok(self.knows_atom(atom)),
            FormulaNode::Const(constant) => Ok(settled(constant)),
            FormulaNode::Not => Ok(negated(value)),
            FormulaNode::And => {
                waiting.push(Left::OfAnd(value))?;
                Ok(value)
            }
            FormulaNode::Or => {
                waiting.push(Left::OfOr(value))?;
                Ok(value)
            }
            FormulaNode::End => match waiting.pop() {
                Some(left) => Ok(joined(left, value)),
                None => Ok(value),
            },
        }
    }

    fn knows_atom(&self, atom: Atom) -> Knowledge
        ensures { Knows self.now (tree.Atom atom) result }
    {
        match atom {
            Atom::Register {
                thread,
                register,
                value,
            } => self.knows_register(thread, register, value),
            Atom::Location { location, value } => self.knows_location(location, value),
        }
    }

    /// What is known of a register: its value where the thread stops, once each read of the thread has its
    /// value.
    fn knows_register(&self, thread: u32, register: Reg, value: u32) -> Knowledge
        ensures { Knows self.now (tree.Atom (atom.Register thread register value)) result }
    {
        if self.is_reading(thread) {
            unsettled()
        } else {
            settled(self.stops_with(thread, register, value))
        }
    }

    /// Whether a read of the thread has no value yet.
    fn is_reading(&self, thread: u32) -> bool
        ensures { IsTrue result ↔ IsSome (next_read self.now.program (mode_in self.now) self.now.chosen thread) }
    {
        match thread_trace_at(self.thread_traces, thread as usize) {
            Some(thread_trace) => thread_trace.next.is_some(),
            None => false,
        }
    }

    /// Whether the register has the value where the thread stops.
    fn stops_with(&self, thread: u32, register: Reg, value: u32) -> bool
        ensures { result ≡ is_true_at (record { registers = final_registers self.now; memory = [] }) (atom.Register thread register value) }
    {
        let threads = self.program.threads().len();
        if thread as usize >= threads {
            return false;
        }
        let held = self.last_registers(thread as usize);
        has_value(held, register, value)
    }

    /// What is known of a location: the value of the writes that may be its last, once each read has its value.
    fn knows_location(&self, location: u32, value: u32) -> Knowledge
        ensures { Knows self.now (tree.Atom (atom.Location location value)) result }
    {
        if (location as usize) >= self.program.memory().len() {
            return settled(false);
        }
        if !self.is_whole() {
            return unsettled();
        }
        Knowledge {
            is_true: !self.may_be(location, value, false),
            is_false: !self.may_be(location, value, true),
        }
    }

    /// Whether a write that may be the location's last writes a value that is this one, or is not.
    fn may_be(&self, location: u32, value: u32, is: bool) -> bool
        requires there { location < length self.now.program.memory }
        ensures { IsTrue result ↔ MayBe self.now location value is }
    {
        let threads = self.thread_traces.len() as u8;
        for t in 0..threads {
            if self.may_be_by(t, location, value, is) {
                return true;
            }
        }
        let initial = self.program.memory()[location as usize];
        is_so(initial, value, is) && !self.is_written(location as u8)
    }

    /// Whether a write of thread t that may be the location's last writes a value that is this one, or is not.
    fn may_be_by(&self, t: u8, location: u32, value: u32, is: bool) -> bool
        requires there { location < length self.now.program.memory }
        ensures { IsTrue result ↔ MayBeBy self.now location value is (IsOfThread t) }
    {
        for (i, access) in self.accesses_of(t).iter().enumerate() {
            if self.ends_so(Event::Access(t, i as u8), *access, location, value, is) {
                return true;
            }
        }
        false
    }

    /// Whether an access, which reads and writes as x, may be the location's last write, and writes a value that is this
    /// one, or is not.
    fn ends_so(&self, event: Event, x: Access, location: u32, value: u32, is: bool) -> bool
        requires access { access_in self.now event ≡ Some x }
        requires other { IsInitialWrite event → ⊥ }
        ensures { IsTrue result ↔ ((w : ℕ) × IsLastWith self.now location w event × ((w == value) ≡ is)) }
    {
        let Some(held) = x.written else {
            return false;
        };
        if x.location as u32 != location {
            return false;
        }
        if !is_so(held, value, is) {
            return false;
        }
        !self.has_later(event)
    }
}

/// Whether a value is this one, or is not.
fn is_so(held: u32, value: u32, is: bool) -> bool
    ensures { IsTrue result ↔ ((held == value) ≡ is) }
{
    (held == value) == is
}

/// Whether the register has the value.
fn has_value(held: [u32; REGISTERS], register: Reg, value: u32) -> bool
    ensures { result ≡ is_value (slice_get held (number register)) value }
{
    held[register.index()] == value
}
