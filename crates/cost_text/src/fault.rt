//! Why a text of costs could not be read.
ghost use Rattle.std.specs.Prelude.{◌≡◌};
ghost use Rattle.cost_text.specs.declared.fault.CostTextFault.TheVariants.{OutOfMemory};

use gap_sets::CostFault;
use std::alloc::{AllocError, AllocFailed};
use thiserror::Error;

/// Why a text of costs could not be read, with the number of the line where it shows.
#[derive(Clone, Copy, Debug, Error)]
pub enum CostTextFault {
    /// The line with this number, from 1, is neither blank nor places `t:k`, spaces or tabs after each, and a cost.
    #[error("line {0} is neither blank nor a gap with its cost")]
    Line(usize),
    /// The line with this number, from 1, names a gap that the program lacks.
    #[error("line {0} names a gap that the program lacks")]
    NoSuchGap(usize),
    /// The line with this number, from 1, names a gap that an earlier line names, or one twice.
    #[error("line {0} names a gap that an earlier line names")]
    Repeated(usize),
    /// The line with this number, from 1, gives its gap a cost that no gap may have.
    #[error("line {0}: {1}")]
    Cost(usize, CostFault),
    #[error("out of memory")]
    OutOfMemory,
}

impl From<AllocError> for CostTextFault {
    ghost from_gives = { λ _ e. e ≡ OutOfMemory };

    fn from(_e: AllocError) -> CostTextFault {
        CostTextFault::OutOfMemory
    }
}

impl<T: Drop> From<AllocFailed<T>> for CostTextFault {
    ghost from_gives = { λ _ e. e ≡ OutOfMemory };

    fn from(_e: AllocFailed<T>) -> CostTextFault {
        CostTextFault::OutOfMemory
    }
}
