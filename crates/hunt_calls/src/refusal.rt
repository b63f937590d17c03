//! Why a call has no other answer.

use hunt_board::CloseFault;
use oracle::{ForeignFault, SolveFault};
use search_core::TreeFault;
use std::alloc::AllocError;
use text_calls::TextRefusal;
use thiserror::Error;

/// A refusal by the call, or `Call`, where a word of the script is not one of its calls.
#[derive(Clone, Copy, Debug, Error)]
pub enum HuntRefusal {
    #[error("call")]
    Call,
    #[error("memory")]
    Memory(#[from(alloc)] AllocError),
    #[error("{0}")]
    Text(#[from] TextRefusal),
    #[error("solve {0:?}")]
    Solve(#[from] SolveFault),
    #[error("foreign {0:?}")]
    Foreign(#[from] ForeignFault),
    #[error("tree {0:?}")]
    Tree(#[from] TreeFault),
    #[error("close {0:?}")]
    Close(#[from] CloseFault),
}
