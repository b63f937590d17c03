//! A program within the limits.
ghost use Rattle.std.specs.Prelude.{◌≡◌, ◌≤◌, ◌<◌, ◌↔◌, ℕ, IsTrue, None, Some, Err, OnOk, IsOkUnless, length, IfSome, IfOk, nat_lt};
ghost use Rattle.std.specs.FinSet as set;
ghost use Rattle.tso_program.specs.declared.limits.TheConstants.{MAX_LOCATIONS};
ghost use Rattle.gap_sets.specs.declared.gap_set.TheConstants.{MAX_GAPS};
ghost use Rattle.tso_program.specs.Limits.{IsWithinLimits, first_fault};
ghost use Rattle.tso_program.specs.Listings.{action, code_of, gap_count, gap_number, gap_place, instr_at};
ghost use Rattle.tso_program.specs.Fences.{gaps_in};
ghost use Rattle.tso_program.specs.Actions.{IsLocated};
ghost use Rattle.tso_program.specs.declared.limits.ProgramFault.{ProgramFault};
ghost use Rattle.tso_program.specs.declared.limits.ProgramFault.TheVariants.{OutOfMemory};

use crate::action::{Action, Local, act};
use crate::limits::{ProgramFault, all_gaps, broken_limit, gaps_of_thread};
use crate::{Instr, Items, Listing, Thread};
use gap_sets::GapSet;
use std::alloc::{AllocError, Global};
use std::marker::Model;
use std::sync::Arc;

/// A program within the limits. It never changes, and a copy shares it.
#[derive(Drop)]
pub struct Program {
    listing: Arc<Listing>,
}

impl Model for Program {
    ghost use Rattle.tso_program.specs.declared.listing.Listing.{Listing};
    ghost use Rattle.std.specs.Arc.{arc_value};
    ghost use Rattle.tso_program.specs.Limits.{IsWithinLimits};

    ghost Value = { Listing };

    ghost view = { λ p. arc_value p.listing };

    ghost invariant = { λ p. IsWithinLimits (arc_value p.listing).threads (arc_value p.listing).memory };
}

impl Program {
    /// The program of these threads and initial values, or the first limit that they break.
    pub fn new(
        alloc: Global,
        threads: Vec<Thread>,
        memory: Vec<u32>,
    ) -> Result<Program, ProgramFault>
        ensures value { IfOk result (λ program. program ≡ record { threads = threads.items; memory = memory.items }) }
        ensures limits { OnOk result (IsWithinLimits threads.items memory.items) }
        ensures within { first_fault threads.items memory.items ≡ None → IsOkUnless result OutOfMemory }
        ensures refused { (fault : ProgramFault) → first_fault threads.items memory.items ≡ Some fault → result ≡ Err fault }
    {
        if let Some(fault) = broken_limit(threads.as_slice(), memory.as_slice()) {
            return Err(fault);
        }
        let listing = Listing {
            threads: Items::of(threads),
            memory: Items::of(memory),
        };
        Ok(Program {
            listing: Arc::new(alloc, listing)?,
        })
    }

    /// The threads.
    pub fn threads(&self) -> &[Thread]
        ensures value { result.now ≡ self.now.threads }
        ensures within { IsWithinLimits self.now.threads self.now.memory }
    {
        self.listing.threads.as_slice()
    }

    /// For a proof alone: recalls what holds of every program.
    pub fn recall_facts(&self)
        ensures within { IsWithinLimits self.now.threads self.now.memory }
    {
        let _ = self.threads();
    }

    /// What the locations hold at first.
    pub fn memory(&self) -> &[u32]
        ensures value { result.now ≡ self.now.memory }
        ensures few { length result.now ≤ MAX_LOCATIONS }
    {
        self.listing.memory.as_slice()
    }

    /// How many gaps there are.
    pub fn gaps(&self) -> u8
        ensures value { result ≡ gap_count self.now.threads }
        ensures few { result ≤ MAX_GAPS }
    {
        all_gaps(self.threads()) as u8
    }

    /// The number of the gap before instruction k of thread t.
    pub fn gap_number(&self, t: u8, k: u8) -> Option<u8>
        ensures value { result ≡ gap_number self.now.threads t k }
        ensures below { IfSome result (λ gap. gap < MAX_GAPS) }
    {
        let threads = self.threads();
        let place = t as usize;
        if k < 1 || code_len(threads, place) <= k as usize {
            return None;
        }
        let before = all_gaps(&threads[..place]);
        Some((before + (k as usize - 1)) as u8)
    }

    /// The thread and the instruction before which the gap of this number lies.
    pub fn gap_place(&self, gap: u8) -> Option<(u8, u8)>
        ensures value { result ≡ gap_place self.now.threads gap }
        ensures number { IfSome result (λ place. gap_number self.now.threads place.0 place.1 ≡ Some gap) }
        ensures found { (t k : ℕ) → gap_number self.now.threads t k ≡ Some gap → result ≡ Some (t, k) }
    {
        let mut left = gap as usize;
        for (t, thread) in self.threads().iter().enumerate() {
            let gaps = gaps_of_thread(thread);
            if left < gaps {
                return Some((t as u8, (left + 1) as u8));
            }
            left -= gaps;
        }
        None
    }

    /// Whether the gap before instruction k of thread t is in the set.
    pub fn is_fenced(&self, gaps: &GapSet, t: u8, k: u8) -> bool
        ensures { result ≡ gaps_in self.now gaps.now t k }
    {
        match self.gap_number(t, k) {
            Some(gap) => gaps.has(gap),
            None => false,
        }
    }

    /// All gaps.
    pub fn all_gaps(&self) -> GapSet
        ensures { (gap : ℕ) → set.contains result gap ≡ nat_lt gap (gap_count self.now.threads) }
    {
        let mut gaps = GapSet::empty();
        for gap in 0..self.gaps() {
            gaps = gaps.with(gap);
        }
        gaps
    }

    /// What a thread does next. A thread that isn't there does nothing.
    pub fn action(&self, t: u8, local: Local) -> Action
        ensures value { result ≡ action self.now.threads t local }
        ensures located { IsLocated (length self.now.memory) result }
    {
        match instr_at(self.threads(), t as usize, local.place as usize) {
            Some(instr) => act(Some(instr), local),
            None => Action::Stop,
        }
    }

    /// Whether the two programs have the same threads and the same initial values. Takes no memory.
    pub fn same(&self, other: &Program) -> bool
        ensures { IsTrue result ↔ (self.now ≡ other.now) }
    {
        self.memory() == other.memory() && self.threads() == other.threads()
    }

    /// An equal program, which shares its parts with this one.
    pub fn copy(&self) -> Result<Program, AllocError>
        ensures { IfOk result (λ other. other ≡ self.now) }
    {
        Ok(Program {
            listing: Arc::try_clone(&self.listing)?,
        })
    }

    /// An equal program, which shares nothing with this one. Threads that count the uses of one program wait for one
    /// another.
    pub fn apart(&self, alloc: Global) -> Result<Program, AllocError>
        ensures { IfOk result (λ other. other ≡ self.now) }
    {
        let listing = Listing {
            threads: Items::of(threads_apart(alloc, self.threads())?),
            memory: self.listing.memory.copy(alloc)?,
        };
        Ok(Program {
            listing: Arc::new(alloc, listing)?,
        })
    }
}

/// Equal threads, which share nothing with these.
fn threads_apart(alloc: Global, threads: &[Thread]) -> Result<Vec<Thread>, AllocError>
    ensures { IfOk result (λ copies. copies.items ≡ threads.now) }
{
    let mut copies = Vec::with_capacity(alloc, threads.len())?;
    for thread in threads {
        copies.push(Thread {
            code: thread.code.copy(alloc)?,
            registers: thread.registers,
        })?;
    }
    Ok(copies)
}

/// Instruction k of thread t, if there is one.
fn instr_at(threads: &[Thread], t: usize, k: usize) -> Option<Instr>
    ensures { result ≡ instr_at threads.now t k }
{
    match threads.get(t) {
        Some(thread) => thread.code.as_slice().get(k).copied(),
        None => None,
    }
}

/// How many instructions thread t has, 0 where there is no such thread.
fn code_len(threads: &[Thread], t: usize) -> usize
    ensures { result ≡ length (code_of threads.now t) }
{
    match threads.get(t) {
        Some(thread) => thread.code.len(),
        None => 0,
    }
}
