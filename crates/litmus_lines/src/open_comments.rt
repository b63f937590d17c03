//! Comments that do not end.

use crate::lines::line_len;
use crate::offsets::bytes_from;
use text_tokens::{after_space, is_white_space};

/// The text after the white space and the comments at its front, up to a comment that does not end.
pub(crate) fn without_space(text: &[u8]) -> &[u8] {
    match after_space(text) {
        Some(rest) => rest,
        None => {
            let rest = bytes_from(text, ended_len(text));
            let len = rest
                .iter()
                .take_while(|byte| is_white_space(**byte))
                .count();
            bytes_from(rest, len)
        }
    }
}

/// Where the last comment ends of a text that is white space and comments, but for one that does not end.
fn ended_len(text: &[u8]) -> usize {
    let mut depth = 0usize;
    let mut before = b' ';
    let mut len = 0usize;
    for (offset, byte) in text.iter().enumerate() {
        let pair = (before, *byte);
        before = b' ';
        if pair == (b'(', b'*') {
            depth = depth.saturating_add(1);
        } else if pair == (b'*', b')') {
            depth = depth.saturating_sub(1);
            if depth == 0 {
                len = offset.saturating_add(1);
            }
        } else {
            before = *byte;
        }
    }
    len
}

/// The text from the comment on that does not end, if one of the lines has it before the initial values.
pub fn open_comment(lines: &[u8]) -> Option<&[u8]> {
    let mut rest = lines;
    for _ in 0..lines.len() {
        match after_space(rest) {
            Some(text) => rest = bytes_from(text, line_len(text).saturating_add(1)),
            None => return Some(without_space(rest)),
        }
    }
    None
}
