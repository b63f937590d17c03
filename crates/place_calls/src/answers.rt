//! The answers to the calls.

use crate::gates::push_gated;
use crate::lacking::push_lacking;
use crate::placing::{PlacerCall, push_hunted_with, push_placed};
use crate::refusal::PlaceRefusal;
use crate::sharing::push_shared;
use crate::verdicts::Verdicts;
use cover_solver::{SeqTable, Solver};
use hunt_calls::{HuntCall, Inquiry};
use std::alloc::Global;
use std::sync::Wait;
use std::thread::Threads;

/// A call with the sequential outcomes, by its name.
#[derive(Clone, Copy)]
pub enum PlaceCall {
    Place,
    HuntWith,
    Gated(PlacerCall),
    Shared(PlacerCall),
    Lacking(PlacerCall),
}

/// The answer to a call with the sequential outcomes, by a solver of them.
fn push_by_solver<R: Threads + Wait + Sync>(
    rt: &R,
    inquiry: &Inquiry<'_, Solver>,
    call: PlaceCall,
    words: &[&[u8]],
    printed: &mut String,
) -> Result<(), PlaceRefusal> {
    match call {
        PlaceCall::Place => push_placed(rt, inquiry, words, printed),
        PlaceCall::HuntWith => push_hunted_with(rt, inquiry, words, printed),
        PlaceCall::Gated(call) => push_gated(rt, inquiry, call, words, printed),
        PlaceCall::Shared(call) => push_shared(rt, inquiry, call, words, printed),
        PlaceCall::Lacking(call) => push_lacking(rt, inquiry, call, words, printed),
    }
}

/// The answer to a call with the sequential outcomes.
pub fn push_of_place<R: Threads + Wait + Sync>(
    rt: &R,
    alloc: Global,
    call: PlaceCall,
    words: &[&[u8]],
    table: &SeqTable,
    printed: &mut String,
) -> Result<(), PlaceRefusal> {
    let solver = Solver::new(alloc, table.program(), table)?;
    let inquiry = Inquiry {
        alloc,
        table,
        oracle: &solver,
    };
    let pushed = push_by_solver(rt, &inquiry, call, words, printed);
    drop(solver);
    pushed
}

/// The answer to a call of a search or a hunt, which asks a solver.
pub fn push_of_hunt<W: Wait>(
    wait: &W,
    alloc: Global,
    call: HuntCall,
    words: &[&[u8]],
    table: &SeqTable,
    printed: &mut String,
) -> Result<(), PlaceRefusal> {
    let verdicts = Verdicts::new(alloc, table);
    let inquiry = verdicts.inquiry();
    Ok(hunt_calls::push_of_hunt(wait, call, words, &inquiry, printed)?)
}
