//! What is said to people of texts of which no run is shown, on standard error.

use messages::{Message, Source, fence_message, litmus_message};
use std::alloc::{AllocError, Global};
use witness_text::WitnessFault;

/// Why no run of the program of a litmus text, of a file of this name, is shown.
pub(crate) fn witness_advice(
    alloc: Global,
    name: &str,
    text: &[u8],
    why: WitnessFault,
) -> Result<Message, AllocError> {
    match why {
        WitnessFault::Read(fault) => litmus_message(alloc, Source::new(name, text), fault),
        WitnessFault::NoSuchGap(thread, instruction) => {
            fence_message(alloc, name, (thread, instruction), text)
        }
        WitnessFault::OutOfMemory => {
            let text = format!(in alloc; "{why}")?;
            Message::of_file(alloc, name, text.as_str())
        }
    }
}
