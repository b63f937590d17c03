//! Why a choice is refused.
ghost use Rattle.std.specs.Prelude.{◌≡◌};
ghost use Rattle.program_sketches.specs.declared.fault.SketchFault.TheVariants.{OutOfMemory};

use std::alloc::{AllocError, AllocFailed};
use thiserror::Error;

/// Why a sketch refuses a call. Of several causes the first in the order `NotWhole`,
/// `NotSameLocation`, `NotASource`, `AlreadyChosen` is reported.
#[derive(Clone, Copy, Debug, Error)]
pub enum SketchFault {
    /// Some read has no value yet.
    #[error("some read has no value yet")]
    NotWhole,
    /// The read has a source, or the two writes are in order, one way or the other.
    #[error("the source or the order is chosen already")]
    AlreadyChosen,
    /// They aren't two different writes to one location, none of them initial.
    #[error("these are not two different writes to one location, neither of them initial")]
    NotSameLocation,
    /// The event isn't a read, or the source isn't one of its sources.
    #[error("the event is not a read, or the source is not one of its sources")]
    NotASource,
    #[error("out of memory")]
    OutOfMemory,
}

impl From<AllocError> for SketchFault {
    ghost from_gives = { λ _ e. e ≡ OutOfMemory };

    fn from(_e: AllocError) -> SketchFault {
        SketchFault::OutOfMemory
    }
}

impl<T: Drop> From<AllocFailed<T>> for SketchFault {
    ghost from_gives = { λ _ e. e ≡ OutOfMemory };

    fn from(_e: AllocFailed<T>) -> SketchFault {
        SketchFault::OutOfMemory
    }
}
