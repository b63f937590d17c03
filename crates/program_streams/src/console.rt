//! Standard output, with standard error beside it.

ghost use Rattle.std.specs.Prelude.{◌≡◌};
ghost use Rattle.program_streams.specs.Streams.{IsMade, Prints};

use crate::output::print;
use crate::progress::Progress;
use crate::streams::write_bytes;
use std::alloc::AllocError;
use std::io::{self, Write};

/// A writer of answers that has a second writer beside it, for messages to people.
pub trait Console: Write {
    /// Writes a message to the second writer, and ignores where that fails. A message that could not be made is left
    /// out. What the writer of answers holds stays as it is.
    fn tell(&mut self, message: Result<Vec<u8>, AllocError>)
        ensures { Self.contents self.new ≡ Self.contents self.old };

    /// Where it is reported how far a search is.
    fn progress(&self) -> Progress;
}

/// A writer of answers, one of messages, and where it is reported how far a search is.
#[derive(Drop)]
pub struct Outputs<W, E> {
    answers: W,
    messages: E,
    progress: Progress,
}

impl<W, E> Outputs<W, E> {
    /// A console of these two writers.
    pub fn new(answers: W, messages: E, progress: Progress) -> Self {
        Outputs {
            answers,
            messages,
            progress,
        }
    }
}

impl<W: Write, E> Write for Outputs<W, E> {
    ghost contents = { λ outputs. W.contents outputs.answers };

    fn write(&mut self, bytes: &[u8]) -> io::Result<usize> {
        self.answers.write(bytes)
    }

    fn flush(&mut self) -> io::Result<()> {
        self.answers.flush()
    }
}

impl<W: Write, E: Write> Console for Outputs<W, E> {
    fn tell(&mut self, message: Result<Vec<u8>, AllocError>) {
        if let Ok(message) = message {
            let _ = write_bytes(&mut self.messages, &message);
        }
    }

    fn progress(&self) -> Progress {
        self.progress
    }
}

/// Prints the line of a refusal as [`print`] does, then tells its message, and returns the status, which is 1.
pub fn refuse<W: Console>(
    output: &mut W,
    line: Result<Vec<u8>, AllocError>,
    message: Result<Vec<u8>, AllocError>,
) -> u8
    ensures { Prints (IsMade line 1) (W.contents output.old) (W.contents output.new) result }
{
    let status = print(output, line, 1);
    output.tell(message);
    status
}
