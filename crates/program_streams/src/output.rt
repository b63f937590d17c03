//! Answers and their status.

ghost use Rattle.std.specs.Prelude.{◌≡◌, IfOk};
ghost use Rattle.program_streams.specs.Streams.{IsMade, Prints};
ghost use Rattle.program_streams.specs.Words.{utf8_line, IsUtf8Refusal};

use crate::streams::write_bytes;
use std::alloc::{AllocError, Global};
use std::io::Write;

/// Writes a text that could be made, and answers the status: the given one, and 1 where the writer fails. A text that
/// could not be made is not told, and the status is 1.
pub fn print<W: Write>(output: &mut W, text: Result<Vec<u8>, AllocError>, status: u8) -> u8
    ensures { Prints (IsMade text status) (W.contents output.old) (W.contents output.new) result }
{
    match text {
        Ok(text) => match write_bytes(output, &text) {
            Ok(()) => status,
            Err(_) => 1,
        },
        Err(_) => 1,
    }
}

/// Why the arguments of a command line aren't read: they are not UTF-8.
fn utf8_line(alloc: Global) -> Result<Vec<u8>, AllocError>
    ensures { IfOk result (λ line. line.items ≡ utf8_line) }
{
    Vec::from_slice(alloc, b"error: the command line is not UTF-8\n")
}

/// Tells that the command line is not UTF-8, and answers the status.
pub fn refuse_words<W: Write>(alloc: Global, output: &mut W) -> u8
    ensures { Prints IsUtf8Refusal (W.contents output.old) (W.contents output.new) result }
{
    print(output, utf8_line(alloc), 2)
}
