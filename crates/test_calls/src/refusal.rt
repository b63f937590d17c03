//! Why a call has no other answer.

use litmus_text::ReadFault;
use place_calls::PlaceRefusal;
use solver_calls::SolverRefusal;
use std::alloc::AllocError;
use text_calls::TextRefusal;
use thiserror::Error;

/// A refusal by the call, or `Call`, where the first line is not a call.
#[derive(Clone, Copy, Debug, Error)]
pub enum CallRefusal {
    #[error("call")]
    Call,
    #[error("memory")]
    Memory(#[from(alloc)] AllocError),
    #[error("litmus {0:?}")]
    Litmus(#[from] ReadFault),
    #[error("{0}")]
    Text(#[from] TextRefusal),
    #[error("{0}")]
    Solver(#[from] SolverRefusal),
    #[error("{0}")]
    Place(#[from] PlaceRefusal),
}
