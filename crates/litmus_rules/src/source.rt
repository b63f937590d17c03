//! Texts, and the places in them.

use litmus_lines::{between, bytes_from};
use text_tokens::is_white_space;

/// A text with the name of its file, and with the number of its first line.
#[derive(Clone, Copy)]
pub struct Source<'a> {
    pub name: &'a str,
    pub text: &'a [u8],
    pub first_line: usize,
}

impl<'a> Source<'a> {
    /// The whole text of a file.
    pub fn new(name: &'a str, text: &'a [u8]) -> Self {
        let first_line = 1;
        Source {
            name,
            text,
            first_line,
        }
    }

    /// A text that follows other lines of its file.
    pub fn after(name: &'a str, before: &[u8], text: &'a [u8]) -> Self {
        let first_line = position_after(before, 1).line;
        Source {
            name,
            text,
            first_line,
        }
    }

    /// Where the byte at an offset stands.
    pub fn position(&self, offset: usize) -> Position {
        position_after(between(self.text, 0, offset), self.first_line)
    }

    /// The bytes from an offset on, up to white space.
    pub fn piece(&self, offset: usize) -> &'a [u8] {
        piece_of(bytes_from(self.text, offset))
    }
}

/// A line and a column, both from 1. A column is a character of UTF-8.
#[derive(Clone, Copy)]
pub struct Position {
    pub line: usize,
    pub column: usize,
}

/// Whether the byte is a later one of a character of UTF-8.
pub(crate) fn continues_character(byte: u8) -> bool {
    0x80 <= byte && byte < 0xc0
}

/// Where a text goes on after these bytes, the first of which begins the line of this number.
fn position_after(before: &[u8], first_line: usize) -> Position {
    let mut line = first_line;
    let mut column = 1usize;
    for byte in before {
        if *byte == b'\n' {
            line = line.saturating_add(1);
            column = 1;
        } else if !continues_character(*byte) {
            column = column.saturating_add(1);
        }
    }
    Position { line, column }
}

/// The bytes up to white space.
fn piece_of(text: &[u8]) -> &[u8] {
    let len = text
        .iter()
        .take_while(|byte| !is_white_space(**byte))
        .count();
    text.split_at(len.min(text.len())).0
}

/// The bytes up to a line feed.
pub fn line_of(text: &[u8]) -> &[u8] {
    let len = text.iter().take_while(|byte| **byte != b'\n').count();
    text.split_at(len.min(text.len())).0
}

/// Where the line of this number begins, from 1.
pub fn line_start(text: &[u8], number: usize) -> usize {
    let mut line = 1usize;
    for (offset, byte) in text.iter().enumerate() {
        if line >= number {
            return offset;
        }
        if *byte == b'\n' {
            line = line.saturating_add(1);
        }
    }
    text.len()
}
