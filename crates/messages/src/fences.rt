//! Fences that can't be placed.

use crate::costs::missing_gap;
use crate::message::Message;
use std::alloc::{AllocError, Global};

/// Why no fence can stand at a place: the program of a litmus text, in a file of this name, has no gap there.
pub fn fence_message(
    alloc: Global,
    name: &str,
    place: (u8, u8),
    litmus: &[u8],
) -> Result<Message, AllocError> {
    let (thread, instruction) = place;
    let word = format!(in alloc; "{thread}:{instruction}")?;
    let message = Message::of_word(alloc, name, word.as_bytes())?;
    missing_gap(alloc, message, litmus)
}
