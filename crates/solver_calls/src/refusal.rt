//! Why a call has no other answer.

use cover_solver::{ForeignFault, SolveFault};
use exec_axioms::SketchFault;
use run_maker::MakeFault;
use std::alloc::AllocError;
use text_calls::TextRefusal;
use thiserror::Error;
use tso_machine::ReplayFault;

/// A refusal by the call.
#[derive(Clone, Copy, Debug, Error)]
pub enum SolverRefusal {
    #[error("memory")]
    Memory(#[from(alloc)] AllocError),
    #[error("{0}")]
    Text(#[from] TextRefusal),
    #[error("sketch {0:?}")]
    Sketch(#[from] SketchFault),
    #[error("make {0:?}")]
    Make(#[from] MakeFault),
    #[error("replay {0:?}")]
    Replay(#[from] ReplayFault),
    #[error("solve {0:?}")]
    Solve(#[from] SolveFault),
    #[error("foreign {0:?}")]
    Foreign(#[from] ForeignFault),
}
