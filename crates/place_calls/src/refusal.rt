//! Why a call has no other answer.

use cover_solver::{ForeignFault, SolveFault};
use fence_place::PlaceFault;
use gap_sets::CostFault;
use hunt_calls::HuntRefusal;
use litmus_text::ReadFault;
use std::alloc::AllocError;
use text_calls::TextRefusal;
use thiserror::Error;

/// A refusal by the call, or `Call`, where a script leaves no receipt.
#[derive(Clone, Copy, Debug, Error)]
pub enum PlaceRefusal {
    #[error("call")]
    Call,
    #[error("memory")]
    Memory(#[from(alloc)] AllocError),
    #[error("{0}")]
    Text(#[from] TextRefusal),
    #[error("{0}")]
    Hunt(#[from] HuntRefusal),
    #[error("litmus {0:?}")]
    Litmus(#[from] ReadFault),
    #[error("costs {0:?}")]
    Costs(#[from] CostFault),
    #[error("solve {0:?}")]
    Solve(#[from] SolveFault),
    #[error("foreign {0:?}")]
    Foreign(#[from] ForeignFault),
    #[error("place {0:?}")]
    Place(#[from] PlaceFault),
}
