//! Why a litmus text could not be read.
ghost use Rattle.std.specs.Prelude.{◌≡◌};
ghost use Rattle.litmus_reader.specs.declared.fault.ReadFault.TheVariants.{OutOfMemory};
ghost use Rattle.litmus_reader.specs.Faults.{of_lines};

use litmus_lines::LineFault;
use std::alloc::{AllocError, AllocFailed};
use thiserror::Error;
use tso_program::ProgramFault;

/// Why a litmus text could not be read, with the line where it shows.
#[derive(Clone, Copy, Debug, Error)]
pub enum ReadFault {
    /// The first byte that is no UTF-8 stands on this line, as each line here counted from 1.
    #[error("line {0} has a byte that is not UTF-8")]
    NotUtf8(u32),
    /// In the first line, in the lines before `{`, or in the header row.
    #[error("line {0} is not the header that must stand there")]
    Header(u32),
    /// In the initial values.
    #[error("line {0}: this is not an initial value, or names something twice")]
    Initial(u32),
    /// A row with another number of cells than the header row.
    #[error("line {0}: the row has another number of cells than the header row")]
    Row(u32),
    /// A word that is not a mnemonic, or something after a whole instruction.
    #[error("line {0}: a word is not a mnemonic, or something follows an instruction")]
    Instruction(u32),
    /// An operand of a wrong kind, or a missing one.
    #[error("line {0}: an operand is missing or of a wrong kind")]
    Operand(u32),
    /// A label that may not stand where it does, or a jump to a name that is no label of its thread.
    #[error("line {0}: a label can't stand there, or a jump leads to no label of its thread")]
    Label(u32),
    /// In the condition.
    #[error("line {0}: this is not a condition")]
    Condition(u32),
    /// A number past 4294967295, or what begins like a number and is not one.
    #[error("line {0}: a number is too large, negative, or not decimal")]
    Number(u32),
    /// The text stops on this line, and more is needed.
    #[error("the text ends on line {0} and more is needed")]
    Ended(u32),
    /// The program breaks a limit; its header row stands on this line.
    #[error("line {0}: {1}")]
    Program(u32, ProgramFault),
    #[error("out of memory")]
    OutOfMemory,
}

impl From<LineFault> for ReadFault {
    ghost from_gives = { λ fault e. e ≡ of_lines fault };

    fn from(fault: LineFault) -> ReadFault {
        match fault {
            LineFault::Header(line) => ReadFault::Header(line),
            LineFault::Ended(line) => ReadFault::Ended(line),
        }
    }
}

impl From<AllocError> for ReadFault {
    ghost from_gives = { λ _ e. e ≡ OutOfMemory };

    fn from(_e: AllocError) -> ReadFault {
        ReadFault::OutOfMemory
    }
}

impl<T: Drop> From<AllocFailed<T>> for ReadFault {
    ghost from_gives = { λ _ e. e ≡ OutOfMemory };

    fn from(_e: AllocFailed<T>) -> ReadFault {
        ReadFault::OutOfMemory
    }
}
