//! Words of a text, as messages show them.

use std::alloc::{AllocError, Global};

/// The most bytes of a word that a message shows.
const WORD_LIMIT: usize = 40;

/// The first bytes of a word, or of two, with `\xHH` for those that are not printable ASCII.
pub fn shown_word(alloc: Global, word: &[u8]) -> Result<String, AllocError> {
    let mut shown = String::new(alloc);
    push_shown_word(&mut shown, word)?;
    Ok(shown)
}

/// Puts the first bytes of a word, or of two, into an empty text, with `\xHH` for those that are not printable ASCII.
pub fn push_shown_word(shown: &mut String, word: &[u8]) -> Result<(), AllocError> {
    for byte in word.iter().take(WORD_LIMIT) {
        if *byte == b' ' && shown.is_empty() {
            shown.push_str("\\x20")?;
        } else {
            push_shown_byte(shown, *byte)?;
        }
    }
    if word.len() > WORD_LIMIT {
        shown.push_str("..")?;
    }
    Ok(())
}

/// Whether a byte is shown as itself.
pub(crate) fn is_shown(byte: u8) -> bool {
    byte.is_ascii_graphic() || byte == b' '
}

/// Puts a byte at the end of a text, as `\xHH` where it is not printable ASCII.
pub(crate) fn push_shown_byte(shown: &mut String, byte: u8) -> Result<(), AllocError> {
    if is_shown(byte) {
        shown.push(char::from(byte))
    } else {
        write!(shown, "\\x{byte:02x}")
    }
}
