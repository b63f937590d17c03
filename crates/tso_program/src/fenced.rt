//! Programs with an MFENCE in each gap of a set.
ghost use Rattle.std.specs.Prelude.{◌≡◌, ◌≤◌, ◌*◌, ◌++◌, ◌∷◌, [], ℕ, None, Some, Err, IfSome, IfOk, OnOk, IsOkUnless, length, All, if◌then◌else◌};
ghost use Rattle.tso_program.specs.Limits.{IsWithinLimits, IsWithinFencedLimits, first_fenced_fault};
ghost use Rattle.tso_program.specs.declared.limits.TheConstants.{MAX_LOCATIONS, MAX_INSTRUCTIONS};
ghost use Rattle.tso_program.specs.Instructions.{target_of};
ghost use Rattle.tso_program.specs.Fences.{gaps_in, place_of, moved, fenced_code, fenced_threads, fence, first_missing, FencingStaysWithinLimits};
ghost use Rattle.tso_program.specs.declared.instruction.Instr.TheVariants.{Fence};
ghost use Rattle.tso_program.specs.declared.limits.ProgramFault.{ProgramFault};
ghost use Rattle.tso_program.specs.declared.limits.ProgramFault.TheVariants as program_fault;
ghost use Rattle.tso_program.specs.declared.fenced.FenceFault.TheVariants.{OutOfMemory};

use crate::limits::{ProgramFault, broken_fenced_limit};
use crate::{Instr, Items, Listing, Program, Thread};
use gap_sets::GapSet;
use std::alloc::{AllocError, AllocFailed, Global};
use std::marker::Model;
use std::sync::Arc;
use thiserror::Error;

/// Why a program can't be fenced.
#[derive(Clone, Copy, Debug, Error)]
pub enum FenceFault {
    /// The least gap of the set that the program lacks, by its number from 0.
    #[error("the program lacks gap number {0}")]
    NoSuchGap(u8),
    #[error("out of memory")]
    OutOfMemory,
}

impl From<AllocError> for FenceFault {
    ghost from_gives = { λ _ e. e ≡ OutOfMemory };

    fn from(_e: AllocError) -> FenceFault {
        FenceFault::OutOfMemory
    }
}

impl<T: Drop> From<AllocFailed<T>> for FenceFault {
    ghost from_gives = { λ _ e. e ≡ OutOfMemory };

    fn from(_e: AllocFailed<T>) -> FenceFault {
        FenceFault::OutOfMemory
    }
}

/// A program with fences, within limits of its own: it may be longer than a [`Program`], and have
/// more gaps. It never changes, and a copy shares it.
#[derive(Drop)]
pub struct FencedProgram {
    listing: Arc<Listing>,
}

impl Model for FencedProgram {
    ghost use Rattle.tso_program.specs.declared.listing.Listing.{Listing};
    ghost use Rattle.std.specs.Arc.{arc_value};
    ghost use Rattle.tso_program.specs.Limits.{IsWithinFencedLimits};

    ghost Value = { Listing };

    ghost view = { λ p. arc_value p.listing };

    ghost invariant = { λ p. IsWithinFencedLimits (arc_value p.listing).threads (arc_value p.listing).memory };
}

impl FencedProgram {
    /// The fenced program of these threads and initial values, or the first limit that they break.
    /// For a text that has its fences already; [`Program::fenced`] puts them in.
    pub fn new(
        alloc: Global,
        threads: Vec<Thread>,
        memory: Vec<u32>,
    ) -> Result<FencedProgram, ProgramFault>
        ensures value { IfOk result (λ program. program ≡ record { threads = threads.items; memory = memory.items }) }
        ensures limits { OnOk result (IsWithinFencedLimits threads.items memory.items) }
        ensures within { first_fenced_fault threads.items memory.items ≡ None → IsOkUnless result program_fault.OutOfMemory }
        ensures refused { (fault : ProgramFault) → first_fenced_fault threads.items memory.items ≡ Some fault → result ≡ Err fault }
    {
        if let Some(fault) = broken_fenced_limit(threads.as_slice(), memory.as_slice()) {
            return Err(fault);
        }
        let listing = Listing {
            threads: Items::of(threads),
            memory: Items::of(memory),
        };
        Ok(FencedProgram {
            listing: Arc::new(alloc, listing)?,
        })
    }

    /// The threads, with their fences.
    pub fn threads(&self) -> &[Thread]
        ensures value { result.now ≡ self.now.threads }
        ensures within { IsWithinFencedLimits self.now.threads self.now.memory }
    {
        self.listing.threads.as_slice()
    }

    /// What the locations hold at first.
    pub fn memory(&self) -> &[u32]
        ensures value { result.now ≡ self.now.memory }
        ensures few { length result.now ≤ MAX_LOCATIONS }
    {
        self.listing.memory.as_slice()
    }

    /// An equal program, which shares its parts with this one.
    pub fn copy(&self) -> Result<FencedProgram, AllocError>
        ensures { IfOk result (λ other. other ≡ self.now) }
    {
        Ok(FencedProgram {
            listing: Arc::try_clone(&self.listing)?,
        })
    }
}

impl Program {
    /// The program with an MFENCE in each gap of the set. A jump to instruction k leads to the
    /// fence before k where there is one.
    pub fn fenced(&self, alloc: Global, gaps: &GapSet) -> Result<FencedProgram, FenceFault>
        ensures value { IfOk result (λ fenced. fenced ≡ fence (gaps_in self.now gaps.now) self.now) }
        ensures found { OnOk result (first_missing self.now gaps.now ≡ None) }
        ensures all { first_missing self.now gaps.now ≡ None → IsOkUnless result OutOfMemory }
        ensures missing { (gap : ℕ) → first_missing self.now gaps.now ≡ Some gap → result ≡ Err (FenceFault.NoSuchGap gap) }
    {
        if let Some(gap) = missing_gap(self, gaps) {
            return Err(FenceFault::NoSuchGap(gap));
        }
        let listing = Listing {
            threads: Items::of(fenced_threads(alloc, self, gaps)?),
            memory: Items::of(Vec::from_slice(alloc, self.memory())?),
        };
        Ok(FencedProgram {
            listing: Arc::new(alloc, listing)?,
        })
    }
}

/// The least gap of the set that the program lacks, by its number from 0.
fn missing_gap(program: &Program, gaps: &GapSet) -> Option<u8>
    ensures { result ≡ first_missing program.now gaps.now }
{
    let count = program.gaps();
    gaps.iter().find(|gap| count <= *gap)
}

fn fenced_threads(
    alloc: Global,
    program: &Program,
    gaps: &GapSet,
) -> Result<Vec<Thread>, AllocError>
    ensures value { IfOk result (λ fenced. fenced.items ≡ fenced_threads (gaps_in program.now gaps.now) 0 program.now.threads) }
    ensures within { IsWithinLimits program.now.threads program.now.memory }
{
    let mut fenced = Vec::new(alloc);
    for (t, thread) in program.threads().iter().enumerate() {
        fenced.push(fenced_thread(alloc, program, gaps, t as u8, thread)?)?;
    }
    Ok(fenced)
}

/// Thread t with its fences.
fn fenced_thread(
    alloc: Global,
    program: &Program,
    gaps: &GapSet,
    t: u8,
    thread: &Thread,
) -> Result<Thread, AllocError>
    requires short { length thread.now.code ≤ MAX_INSTRUCTIONS }
    requires inner { All (λ x. IfSome (target_of x) (λ k. k ≤ MAX_INSTRUCTIONS)) thread.now.code }
    ensures { IfOk result (λ fenced. fenced ≡ record { code = fenced_code (gaps_in program.now gaps.now t) 0 thread.now.code; registers = thread.now.registers }) }
{
    let code = thread.code.as_slice();
    let mut fenced = Items::of(Vec::new(alloc));
    for (k, instr) in code.iter().enumerate() {
        let is_fenced = program.is_fenced(gaps, t, k as u8);
        let moved = moved(program, gaps, t, *instr);
        push_fenced(&mut fenced, is_fenced, moved)?;
    }
    Ok(Thread {
        code: fenced,
        registers: thread.registers,
    })
}

/// Puts an instruction at the end, after an MFENCE if it is fenced.
fn push_fenced(code: &mut Items<Instr>, is_fenced: bool, instr: Instr) -> Result<(), AllocError>
    ensures { OnOk result (code.new ≡ code.old ++ ((if is_fenced then Fence ∷ [] else []) ++ instr ∷ [])) }
{
    if is_fenced {
        code.push(Instr::Fence)?;
    }
    code.push(instr)
}

/// The instruction, with its jump moved past the fences.
fn moved(program: &Program, gaps: &GapSet, t: u8, instr: Instr) -> Instr
    requires { IfSome (target_of instr) (λ k. k ≤ MAX_INSTRUCTIONS) }
    ensures { result ≡ moved (gaps_in program.now gaps.now t) instr }
{
    match instr {
        Instr::Je(k) => Instr::Je(fenced_place(program, gaps, t, k)),
        Instr::Jne(k) => Instr::Jne(fenced_place(program, gaps, t, k)),
        Instr::Jmp(k) => Instr::Jmp(fenced_place(program, gaps, t, k)),
        other => other,
    }
}

/// Where place k of thread t lies in the fenced thread.
fn fenced_place(program: &Program, gaps: &GapSet, t: u8, k: u8) -> u8
    requires { k ≤ MAX_INSTRUCTIONS }
    ensures value { result ≡ place_of (gaps_in program.now gaps.now t) k }
    ensures small { result ≤ 2 * k }
{
    let mut place = 0;
    for earlier in 0..k {
        place += if program.is_fenced(gaps, t, earlier) {
            2
        } else {
            1
        };
    }
    place
}

/// A program within its limits is, with its fences, within those of a fenced program.
pub fn fencing_stays_within_limits()
    ensures { FencingStaysWithinLimits }
{}
