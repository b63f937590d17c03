//! The steps of a run, and the two machines.
ghost use Rattle.std.specs.Prelude.{◌≡◌};
ghost use Rattle.tso_machine.specs.Faults.{thread_of};

/// One step of a run.
#[derive(Clone, Copy, PartialEq, Eq, Debug)]
pub enum Label {
    /// The next instruction of a thread.
    Exec(u8),
    /// The oldest waiting store of a thread goes to memory.
    Flush(u8),
}

impl Label {
    /// The thread of the step.
    pub fn thread(self) -> u8
        ensures { result ≡ thread_of self }
    {
        match self {
            Label::Exec(t) | Label::Flush(t) => t,
        }
    }
}

/// Which machine runs a program.
#[derive(Clone, Copy)]
pub enum Model {
    /// Stores take effect at once.
    Sequential,
    /// Stores wait in their thread's buffer.
    Buffered,
}

/// Why a step isn't possible.
#[derive(Clone, Copy)]
pub enum Cause {
    NoSuchThread,
    AtEnd,
    BufferEmpty,
    FenceWaits,
}

/// Why a step wasn't made.
#[derive(Clone, Copy, Drop)]
pub(crate) enum StepFault {
    Refused(Cause),
    OutOfMemory,
}

/// A store that waits in a buffer.
#[derive(Clone, Copy)]
pub struct Pending {
    pub location: u8,
    pub value: u32,
}
