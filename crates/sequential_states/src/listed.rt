//! States that are listed, each with a step that leads to it.
ghost use Rattle.std.specs.Prelude.{◌≡◌, ◌<◌, ℕ, length, slice_get, Some, IfOk, IfSome, IfNone, IsTrue};
ghost use Rattle.tso_program.specs.Listings.{code_of};
ghost use Rattle.sequential_states.specs.Internal.Lists.{ArrivalsLeadBack, HasEach, HasFirst, IsPlaceAt, IsWalkTo, LeadTo};

use crate::snapshot::Snapshot;
use crate::walk::Walk;
use std::alloc::{AllocError, Global};
use tso_machine::Label;
use tso_program::{Items, Program};

/// A step from an earlier state of the list: its place in the list, and the thread that makes the step.
#[derive(Clone, Copy)]
pub(crate) struct Arrival {
    pub(crate) from: usize,
    pub(crate) thread: u8,
}

/// A state, and a step that leads to it; none leads to the first.
#[derive(Drop)]
pub(crate) struct Listed {
    pub(crate) state: Snapshot,
    pub(crate) arrival: Option<Arrival>,
}

/// The first listed state at which instruction k is thread t's next.
pub(crate) fn place_at(listed: &[Listed], t: u8, k: u8) -> Option<usize>
    ensures found { IfSome result (λ place. IsPlaceAt listed.now t k place) }
    ensures none { IfNone result ((place : ℕ) → IsPlaceAt listed.now t k place → ⊥) }
{
    for (place, entry) in listed.iter().enumerate() {
        if entry.state.stands_at(t, k) {
            return Some(place);
        }
    }
    None
}

/// How many instructions thread t has.
fn code_len(program: &Program, t: u8) -> u8
    ensures { result ≡ length (code_of program.now.threads t) }
{
    match program.threads().get(t as usize) {
        Some(thread) => thread.code.len() as u8,
        None => 0,
    }
}

/// Whether the first instructions of thread t, so many, are each its next one at some state.
fn has_first(listed: &[Listed], t: u8, count: u8) -> bool
    ensures { IsTrue result → HasFirst listed.now t count }
{
    for k in 0..count {
        if place_at(listed, t, k).is_none() {
            return false;
        }
    }
    true
}

/// Whether each instruction is its thread's next one at some state.
pub(crate) fn has_each(program: &Program, listed: &[Listed]) -> bool
    ensures { IsTrue result → HasEach program.now listed.now }
{
    let threads = program.threads().len() as u8;
    for t in 0..threads {
        if !has_first(listed, t, code_len(program, t)) {
            return false;
        }
    }
    true
}

/// Steps that lead to a listed state.
pub(crate) fn walk_to(alloc: Global, listed: &[Listed], place: usize) -> Result<Walk, AllocError>
    requires there { place < length listed.now }
    requires back { ArrivalsLeadBack listed.now }
    ensures { IfOk result (IsWalkTo listed.now place) }
{
    Ok(Walk {
        labels: labels_to(alloc, listed, place)?,
        state: state_at(alloc, listed, place)?,
    })
}

/// An equal state to the one at a place.
fn state_at(alloc: Global, listed: &[Listed], place: usize) -> Result<Snapshot, AllocError>
    requires { place < length listed.now }
    ensures { IfOk result (λ state. (entry : Listed) → slice_get listed.now place ≡ Some entry → state ≡ entry.state) }
{
    listed[place].state.copy(alloc)
}

/// The step that leads to the state at a place.
fn arrival_at(listed: &[Listed], place: usize) -> Option<Arrival>
    requires { place < length listed.now }
    ensures { (entry : Listed) → slice_get listed.now place ≡ Some entry → result ≡ entry.arrival }
{
    listed[place].arrival
}

/// The labels of steps that lead to a listed state.
fn labels_to(alloc: Global, listed: &[Listed], place: usize) -> Result<Items<Label>, AllocError>
    requires there { place < length listed.now }
    requires back { ArrivalsLeadBack listed.now }
    ensures { IfOk result (LeadTo listed.now place) }
{
    let mut labels = Vec::new(alloc);
    let mut at = place;
    while let Some(arrival) = arrival_at(listed, at) {
        labels.push(Label::Exec(arrival.thread))?;
        at = arrival.from;
    }
    labels.reverse();
    Ok(Items::of(labels))
}
