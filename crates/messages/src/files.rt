//! Files that can't be read or written.

use crate::message::{Message, STDIN};
use program_streams::{FileFault, Obstacle, UnreadFile};
use std::alloc::{AllocError, Global};

/// Why a file could not be read, with what stands in the way.
pub fn unread_message(
    alloc: Global,
    file: UnreadFile<'_>,
    obstacle: Obstacle,
) -> Result<Message, AllocError> {
    let limit = file.limit;
    match file.fault {
        FileFault::TooLong => {
            let text = format!(in alloc; "has more than {limit} bytes, the most that are read")?;
            Message::of_file(alloc, file.name, text.as_str())
        }
        _ => Message::of_file(alloc, file.name, obstacle_text(file.name, obstacle)),
    }
}

/// That a file could not be written.
pub fn unwritten_message(alloc: Global, name: &str) -> Result<Message, AllocError> {
    Message::of_file(alloc, name, "cannot be written")
}

/// What stands in the way of reading a file; of the input nothing is known.
fn obstacle_text(name: &str, obstacle: Obstacle) -> &'static str {
    if name == STDIN {
        return "cannot be read";
    }
    match obstacle {
        Obstacle::Missing => "no such file",
        Obstacle::Forbidden => "permission denied",
        Obstacle::Directory => "is a directory",
        Obstacle::Unknown => "cannot be read",
    }
}
