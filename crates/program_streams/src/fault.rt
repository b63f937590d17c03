//! Why a file could not be used, and the line that says it.

ghost use Rattle.std.specs.Prelude.{◌≡◌, IfOk};
ghost use Rattle.program_streams.specs.FileLines.{file_line};

use std::alloc::{AllocError, Global};

/// Why a file could not be used.
#[derive(Clone, Copy)]
pub enum FileFault {
    /// It can't be opened, a read fails, or there is no memory for its bytes.
    Read,
    /// It can't be made, or a write fails.
    Write,
    /// It has more bytes than the limit.
    TooLong,
}

/// A file that could not be read, where `-` is the input.
#[derive(Clone, Copy)]
pub struct UnreadFile<'a> {
    pub name: &'a str,
    /// The most bytes that are read of it.
    pub limit: usize,
    pub fault: FileFault,
}

/// The line of why a file could not be used.
pub fn file_line(alloc: Global, fault: FileFault) -> Result<Vec<u8>, AllocError>
    ensures { IfOk result (λ line. line.items ≡ file_line fault) }
{
    match fault {
        FileFault::Read => Vec::from_slice(alloc, b"refused file 1 Read\n"),
        FileFault::Write => Vec::from_slice(alloc, b"refused file 2 Write\n"),
        FileFault::TooLong => Vec::from_slice(alloc, b"refused file 3 TooLong\n"),
    }
}
