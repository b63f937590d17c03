//! Why a hunt doesn't end with an answer.
ghost use Rattle.std.specs.Prelude.{◌≡◌};
ghost use Rattle.hunt_board.specs.declared.fault.CloseFault.TheVariants.{OutOfMemory};

use std::alloc::{AllocError, AllocFailed};
use thiserror::Error;

/// Why a hunt doesn't end with an answer.
#[derive(Clone, Copy, Debug, Error)]
pub enum CloseFault {
    /// Some node is open or held.
    #[error("some node is open or held")]
    NotDone,
    /// The receipt of this number, from 0, is the first that isn't in the record or is of the same node as an
    /// earlier one.
    #[error("receipt number {0} is not in the record, or an earlier one is of the same node")]
    Receipt(usize),
    /// Each receipt is in the record, no two are of one node, and there are fewer than settled nodes.
    #[error("there are not as many receipts as settled nodes")]
    Count,
    #[error("out of memory")]
    OutOfMemory,
}

impl From<AllocError> for CloseFault {
    ghost from_gives = { λ _ fault. fault ≡ OutOfMemory };

    fn from(_error: AllocError) -> CloseFault {
        CloseFault::OutOfMemory
    }
}

impl<T: Drop> From<AllocFailed<T>> for CloseFault {
    ghost from_gives = { λ _ fault. fault ≡ OutOfMemory };

    fn from(_error: AllocFailed<T>) -> CloseFault {
        CloseFault::OutOfMemory
    }
}
