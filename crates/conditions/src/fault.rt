//! Why tokens could not be read.
ghost use Rattle.std.specs.Prelude.{◌≡◌};
ghost use Rattle.conditions.specs.declared.fault.FormulaFault.TheVariants.{OutOfMemory};

use std::alloc::{AllocError, AllocFailed};
use thiserror::Error;

/// Why tokens could not be read as a formula.
#[derive(Clone, Copy, Debug, Error)]
pub enum FormulaFault {
    /// No formula begins with the tokens up to and with the one of this index, from 0. It is the number of tokens where all of
    /// them begin a formula and more are needed.
    #[error("no formula begins with the tokens up to number {0}")]
    Refused(usize),
    #[error("out of memory")]
    OutOfMemory,
}

impl From<AllocError> for FormulaFault {
    ghost from_gives = { λ _ e. e ≡ OutOfMemory };

    fn from(_e: AllocError) -> FormulaFault {
        FormulaFault::OutOfMemory
    }
}

impl<T: Drop> From<AllocFailed<T>> for FormulaFault {
    ghost from_gives = { λ _ e. e ≡ OutOfMemory };

    fn from(_e: AllocFailed<T>) -> FormulaFault {
        FormulaFault::OutOfMemory
    }
}
