//! Why tokens could not be read.

ghost use Rattle.std.specs.Prelude.{◌≡◌};
ghost use Rattle.litmus_syntax.specs.declared.fault.SyntaxFault.TheVariants.{Refused, OutOfMemory};

use std::alloc::{AllocError, AllocFailed};
use thiserror::Error;

/// The part of a text in which a token cannot stand, or what is wrong with the token itself.
#[derive(Clone, Copy, Debug)]
pub enum Part {
    /// What stands before the initial values, or the header row.
    Header,
    /// The initial values.
    Initial,
    /// A row with another number of cells than the header row.
    Row,
    /// A word that is not a mnemonic, or something after a whole instruction.
    Instruction,
    /// An operand.
    Operand,
    /// A label.
    Label,
    /// The condition.
    Condition,
    /// A number is wanted, and what stands there is too large, negative, or followed by a letter.
    Number,
    /// The tokens end where more are needed.
    Ended,
}

/// The first token that cannot stand where it does.
#[derive(Clone, Copy, Debug)]
pub struct Refusal {
    pub part: Part,
    /// How many tokens are left there, the refused one included; 0 at the end of the tokens.
    pub left: usize,
}

/// Why tokens could not be read.
#[derive(Clone, Copy, Debug, Error)]
pub enum SyntaxFault {
    #[error("the tokens are refused: {0:?}")]
    Refused(Refusal),
    #[error("out of memory")]
    OutOfMemory,
}

impl From<Refusal> for SyntaxFault {
    ghost from_gives = { λ r e. e ≡ Refused r };

    fn from(refusal: Refusal) -> SyntaxFault {
        SyntaxFault::Refused(refusal)
    }
}

impl From<AllocError> for SyntaxFault {
    ghost from_gives = { λ _ e. e ≡ OutOfMemory };

    fn from(_e: AllocError) -> SyntaxFault {
        SyntaxFault::OutOfMemory
    }
}

impl<T: Drop> From<AllocFailed<T>> for SyntaxFault {
    ghost from_gives = { λ _ e. e ≡ OutOfMemory };

    fn from(_e: AllocFailed<T>) -> SyntaxFault {
        SyntaxFault::OutOfMemory
    }
}
