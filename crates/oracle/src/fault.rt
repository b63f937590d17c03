//! Why there is no answer.
ghost use Rattle.std.specs.Prelude.{◌≡◌};
ghost use Rattle.oracle.specs.declared.fault.SolveFault.TheVariants as solve;
ghost use Rattle.oracle.specs.declared.fault.ForeignFault.TheVariants as foreign;

use std::alloc::{AllocError, AllocFailed};
use thiserror::Error;
use tso_machine::ReplayFault;

/// Why a search has no answer.
#[derive(Clone, Copy, Debug, Error)]
pub enum SolveFault {
    /// The oracle has no run for the set, and does not know that it serves. No call of `cover_solver` answers this.
    #[error("the oracle has no run for the set")]
    NoRun,
    #[error("out of memory")]
    OutOfMemory,
}

impl From<AllocError> for SolveFault {
    ghost from_gives = { λ _ fault. fault ≡ solve.OutOfMemory };

    fn from(_error: AllocError) -> SolveFault {
        SolveFault::OutOfMemory
    }
}

impl<T: Drop> From<AllocFailed<T>> for SolveFault {
    ghost from_gives = { λ _ fault. fault ≡ solve.OutOfMemory };

    fn from(_error: AllocFailed<T>) -> SolveFault {
        SolveFault::OutOfMemory
    }
}

/// Why labels are no foreign run.
#[derive(Clone, Copy, Debug, Error)]
pub enum ForeignFault {
    /// They are no run of the store buffer machine with no gap fenced.
    #[error("the labels are not a run: {0}")]
    Replay(ReplayFault),
    /// The outcome is sequential.
    #[error("a sequential run has the same outcome")]
    Sequential,
    #[error("out of memory")]
    OutOfMemory,
}

impl From<AllocError> for ForeignFault {
    ghost from_gives = { λ _ fault. fault ≡ foreign.OutOfMemory };

    fn from(_error: AllocError) -> ForeignFault {
        ForeignFault::OutOfMemory
    }
}

impl<T: Drop> From<AllocFailed<T>> for ForeignFault {
    ghost from_gives = { λ _ fault. fault ≡ foreign.OutOfMemory };

    fn from(_error: AllocFailed<T>) -> ForeignFault {
        ForeignFault::OutOfMemory
    }
}
