//! Why nothing is placed.
ghost use Rattle.std.specs.Prelude.{◌≡◌};
ghost use Rattle.fence_place.specs.declared.fault.PlaceFault.TheVariants.{OutOfMemory};

use std::alloc::{AllocError, AllocFailed};
use thiserror::Error;

/// Why nothing is placed, or a hunt finds nothing. [`crate::place`] answers neither `NotCertified` nor `Board`.
#[derive(Clone, Copy, Debug, Error)]
pub enum PlaceFault {
    /// There are no workers, or more than `MAX_WORKERS`.
    #[error("the number of workers is not from 1 to 32")]
    Workers,
    /// There isn't one cost for each gap, or a tie reaches past the gaps.
    #[error("there is not one cost for each gap")]
    Costs,
    /// The oracle lacks a run, as it says that it may.
    #[error("the oracle lacks a run")]
    NotCertified,
    /// The record of the hunt doesn't close.
    #[error("the record of the search does not close")]
    Board,
    #[error("out of memory")]
    OutOfMemory,
}

impl From<AllocError> for PlaceFault {
    ghost from_gives = { λ _ fault. fault ≡ OutOfMemory };

    fn from(_error: AllocError) -> PlaceFault {
        PlaceFault::OutOfMemory
    }
}

impl<T: Drop> From<AllocFailed<T>> for PlaceFault {
    ghost from_gives = { λ _ fault. fault ≡ OutOfMemory };

    fn from(_error: AllocFailed<T>) -> PlaceFault {
        PlaceFault::OutOfMemory
    }
}
