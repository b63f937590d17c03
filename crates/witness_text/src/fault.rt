//! Why no run is shown.

ghost use Rattle.std.specs.Prelude.{◌≡◌};
ghost use Rattle.witness_text.specs.declared.fault.WitnessFault.TheVariants.{OutOfMemory, Read};

use cover_solver::SolveFault;
use litmus_text::ReadFault;
use std::alloc::AllocError;
use thiserror::Error;

/// Why no run of a litmus text's program is shown.
#[derive(Clone, Copy, Debug, Error)]
pub enum WitnessFault {
    /// The text isn't a litmus text.
    #[error("{0}")]
    Read(ReadFault),
    /// The program has no gap at this place: before this instruction of this thread.
    #[error("the program has no gap {0}:{1}")]
    NoSuchGap(u8, u8),
    #[error("out of memory")]
    OutOfMemory,
}

impl From<ReadFault> for WitnessFault {
    ghost from_gives = { λ fault why. why ≡ Read fault };

    fn from(fault: ReadFault) -> WitnessFault {
        WitnessFault::Read(fault)
    }
}

impl From<AllocError> for WitnessFault {
    ghost from_gives = { λ _ why. why ≡ OutOfMemory };

    fn from(_fault: AllocError) -> WitnessFault {
        WitnessFault::OutOfMemory
    }
}

impl From<SolveFault> for WitnessFault {
    ghost from_gives = { λ _ why. why ≡ OutOfMemory };

    fn from(_fault: SolveFault) -> WitnessFault {
        WitnessFault::OutOfMemory
    }
}
