//! The limits of a program, and of a search for its fences.
ghost use Rattle.std.specs.Prelude.{◌≡◌, ◌≤◌, ◌<◌, length, All, IfSome, sum_by};
ghost use Rattle.std.specs.List.{list_any};
ghost use Rattle.tso_program.specs.Listings.{accesses_of, gaps_of_thread, gap_count};
ghost use Rattle.tso_program.specs.declared.limits.TheConstants.{MAX_THREADS, MAX_INSTRUCTIONS, MAX_FENCED_INSTRUCTIONS};
ghost use Rattle.tso_program.specs.declared.limits.ProgramFault.TheVariants.{OutOfMemory};
ghost use Rattle.tso_program.specs.Limits.{shared_refusals, first_true, first_fault, first_fenced_fault, first_long, is_astray, some_astray, first_backward_in, first_past_end_in, first_found, ProgramLimitsAreTheRefusals, FencedLimitsAreTheRefusals};

use crate::Thread;
use gap_sets::MAX_GAPS;
use std::alloc::{AllocError, AllocFailed};
use thiserror::Error;

/// The most threads of a program.
pub const MAX_THREADS: usize = 8;
/// The most instructions of a thread of a program.
pub const MAX_INSTRUCTIONS: usize = 64;
/// The most instructions of a thread of a fenced program: `MAX_INSTRUCTIONS`, and a fence in each gap between them.
pub const MAX_FENCED_INSTRUCTIONS: usize = 2 * MAX_INSTRUCTIONS - 1;
/// The most locations of a program.
pub const MAX_LOCATIONS: usize = 8;
/// The most accesses of a program; an exchange is one.
pub const MAX_ACCESSES: usize = 32;
/// The most workers of a search.
pub const MAX_WORKERS: u8 = 32;

/// Why threads and initial values make no program: the first of these that applies.
#[derive(Clone, Copy, Debug, Error)]
pub enum ProgramFault {
    #[error("there is no thread")]
    NoThreads,
    #[error("there are more than 8 threads")]
    TooManyThreads,
    /// A thread, from 0, of more than `MAX_INSTRUCTIONS` instructions, or `MAX_FENCED_INSTRUCTIONS` in a fenced program.
    #[error("thread {0} has too many instructions")]
    TooLong(u8),
    /// More than `MAX_LOCATIONS` initial values, or an instruction that names a location without one.
    #[error("there are more than 8 locations, or one without an initial value")]
    Locations,
    #[error("there are more than 32 accesses to memory")]
    TooManyAccesses,
    /// A thread, and its instruction whose jump doesn't lead to a later place, both from 0.
    #[error("the jump of thread {0} at instruction {1} does not lead to a later place")]
    BackwardJump(u8, u8),
    /// A thread, and its instruction whose jump leads past the thread's end, both from 0.
    #[error("the jump of thread {0} at instruction {1} leads past the thread's end")]
    JumpPastEnd(u8, u8),
    /// Never of a fenced program.
    #[error("there are more than 128 gaps")]
    TooManyGaps,
    #[error("out of memory")]
    OutOfMemory,
}

impl From<AllocError> for ProgramFault {
    ghost from_gives = { λ _ e. e ≡ OutOfMemory };

    fn from(_e: AllocError) -> ProgramFault {
        ProgramFault::OutOfMemory
    }
}

impl<T: Drop> From<AllocFailed<T>> for ProgramFault {
    ghost from_gives = { λ _ e. e ≡ OutOfMemory };

    fn from(_e: AllocFailed<T>) -> ProgramFault {
        ProgramFault::OutOfMemory
    }
}

/// How many gaps a thread has.
pub(crate) fn gaps_of_thread(thread: &Thread) -> usize
    ensures { result ≡ gaps_of_thread thread.now }
{
    thread.code.len().saturating_sub(1)
}

/// How many accesses a thread has.
fn accesses_in(thread: &Thread) -> usize
    ensures { result ≡ accesses_of thread.now }
{
    thread
        .code
        .as_slice()
        .iter()
        .filter(|x| x.location().is_some())
        .count()
}

/// Whether an instruction of the thread names a location from this number on.
fn is_thread_astray(thread: &Thread, locations: usize) -> bool
    ensures { result ≡ list_any (is_astray locations) thread.now.code }
{
    thread.code.as_slice().iter().any(|x| match x.location() {
        Some(location) => locations <= location as usize,
        None => false,
    })
}

fn is_some_astray(threads: &[Thread], locations: usize) -> bool
    ensures { result ≡ some_astray locations threads.now }
{
    threads.iter().any(|t| is_thread_astray(t, locations))
}

fn first_long(threads: &[Thread], longest: usize) -> Option<usize>
    ensures { result ≡ first_long longest threads.now }
{
    threads.iter().position(|t| t.code.len() > longest)
}

fn backward_in(thread: &Thread) -> Option<usize>
    ensures value { result ≡ first_backward_in thread.now }
    ensures within { IfSome result (λ k. k < length thread.now.code) }
{
    thread.code.as_slice().iter().enumerate().position(|(k, x)| match x.target() {
        Some(target) => target as usize <= k,
        None => false,
    })
}

fn past_end_in(thread: &Thread) -> Option<usize>
    ensures value { result ≡ first_past_end_in thread.now }
    ensures within { IfSome result (λ k. k < length thread.now.code) }
{
    let len = thread.code.len();
    thread
        .code
        .as_slice()
        .iter()
        .position(|x| match x.target() {
            Some(target) => len < target as usize,
            None => false,
        })
}

/// The first jump, by thread and instruction, that doesn't lead to a later place.
fn first_backward(threads: &[Thread]) -> Option<(usize, usize)>
    requires { All (λ t. length t.code ≤ MAX_FENCED_INSTRUCTIONS) threads.now }
    ensures value { result ≡ first_found first_backward_in 0 threads.now }
    ensures within { IfSome result (λ p. (p.0 < length threads.now) × (p.1 < MAX_FENCED_INSTRUCTIONS)) }
{
    for (t, thread) in threads.iter().enumerate() {
        if let Some(k) = backward_in(thread) {
            return Some((t, k));
        }
    }
    None
}

/// The first jump, by thread and instruction, that leads past its thread's end.
fn first_past_end(threads: &[Thread]) -> Option<(usize, usize)>
    requires { All (λ t. length t.code ≤ MAX_FENCED_INSTRUCTIONS) threads.now }
    ensures value { result ≡ first_found first_past_end_in 0 threads.now }
    ensures within { IfSome result (λ p. (p.0 < length threads.now) × (p.1 < MAX_FENCED_INSTRUCTIONS)) }
{
    for (t, thread) in threads.iter().enumerate() {
        if let Some(k) = past_end_in(thread) {
            return Some((t, k));
        }
    }
    None
}

fn all_accesses(threads: &[Thread]) -> usize
    requires few { length threads.now ≤ MAX_THREADS }
    requires short { All (λ t. length t.code ≤ MAX_FENCED_INSTRUCTIONS) threads.now }
    ensures { result ≡ sum_by accesses_of threads.now }
{
    let mut total = 0;
    for thread in threads {
        total += accesses_in(thread);
    }
    total
}

/// How many gaps threads have.
pub(crate) fn all_gaps(threads: &[Thread]) -> usize
    requires few { length threads.now ≤ MAX_THREADS }
    requires short { All (λ t. length t.code ≤ MAX_INSTRUCTIONS) threads.now }
    ensures { result ≡ gap_count threads.now }
{
    let mut total = 0;
    for thread in threads {
        total += gaps_of_thread(thread);
    }
    total
}

/// The first limit that threads and initial values break, of those that programs and fenced
/// programs share.
fn broken_shared_limit(threads: &[Thread], memory: &[u32], longest: usize) -> Option<ProgramFault>
    requires { longest ≤ MAX_FENCED_INSTRUCTIONS }
    ensures { result ≡ first_true (shared_refusals longest threads.now memory.now) }
{
    if threads.is_empty() {
        return Some(ProgramFault::NoThreads);
    }
    if threads.len() > MAX_THREADS {
        return Some(ProgramFault::TooManyThreads);
    }
    if let Some(thread) = first_long(threads, longest) {
        return Some(ProgramFault::TooLong(thread as u8));
    }
    if memory.len() > MAX_LOCATIONS || is_some_astray(threads, memory.len()) {
        return Some(ProgramFault::Locations);
    }
    if all_accesses(threads) > MAX_ACCESSES {
        return Some(ProgramFault::TooManyAccesses);
    }
    if let Some((thread, k)) = first_backward(threads) {
        return Some(ProgramFault::BackwardJump(thread as u8, k as u8));
    }
    if let Some((thread, k)) = first_past_end(threads) {
        return Some(ProgramFault::JumpPastEnd(thread as u8, k as u8));
    }
    None
}

/// The first limit of a program that threads and initial values break.
pub(crate) fn broken_limit(threads: &[Thread], memory: &[u32]) -> Option<ProgramFault>
    ensures { result ≡ first_fault threads.now memory.now }
{
    if let Some(fault) = broken_shared_limit(threads, memory, MAX_INSTRUCTIONS) {
        return Some(fault);
    }
    if all_gaps(threads) > MAX_GAPS as usize {
        return Some(ProgramFault::TooManyGaps);
    }
    None
}

/// The first limit of a fenced program that threads and initial values break.
pub(crate) fn broken_fenced_limit(threads: &[Thread], memory: &[u32]) -> Option<ProgramFault>
    ensures { result ≡ first_fenced_fault threads.now memory.now }
{
    broken_shared_limit(threads, memory, MAX_FENCED_INSTRUCTIONS)
}

/// No refusal applies exactly where threads and initial values are within the limits.
pub fn limits_are_the_refusals()
    ensures program { ProgramLimitsAreTheRefusals }
    ensures fenced { FencedLimitsAreTheRefusals }
{}
