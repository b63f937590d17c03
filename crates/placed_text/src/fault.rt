//! Why nothing is placed in the program of a text.

ghost use Rattle.std.specs.Prelude.{◌≡◌};
ghost use Rattle.placed_text.specs.declared.fault.TextFault.TheVariants.{OutOfMemory};

use cover_solver::SolveFault;
use litmus_text::{CostTextFault, ReadFault};
use std::alloc::AllocError;
use thiserror::Error;

/// Why nothing is placed in the program of a text. Where memory runs out, that is `OutOfMemory`, and no inner
/// fault.
#[derive(Clone, Copy, Debug, Error)]
pub enum TextFault {
    /// The text isn't a litmus text.
    #[error("the litmus text: {0}")]
    Read(ReadFault),
    /// The text of costs isn't one for the program.
    #[error("the costs: {0}")]
    CostText(CostTextFault),
    /// There are no workers, or more than `MAX_WORKERS`.
    #[error("the number of workers is not from 1 to 32")]
    Workers,
    #[error("out of memory")]
    OutOfMemory,
}

impl From<AllocError> for TextFault {
    ghost from_gives = { λ _ why. why ≡ OutOfMemory };

    fn from(_fault: AllocError) -> TextFault {
        TextFault::OutOfMemory
    }
}

impl From<SolveFault> for TextFault {
    ghost from_gives = { λ _ why. why ≡ OutOfMemory };

    fn from(_fault: SolveFault) -> TextFault {
        TextFault::OutOfMemory
    }
}
