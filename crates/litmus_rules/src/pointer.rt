//! The line of a text with a `^` below a word of it, as a terminal shows it.

use crate::shown::{is_shown, push_shown_byte};
use crate::source::line_of;
use litmus_lines::{between, bytes_from, line_begin};
use std::alloc::AllocError;

/// The most bytes of a line that is shown.
const LINE_LIMIT: usize = 120;

/// Puts at the end of another text the line in which an offset of a text lies, and below it a `^` at the offset; nothing of
/// a longer line.
pub fn push_pointed_line(
    pointed: &mut String,
    text: &[u8],
    offset: usize,
) -> Result<(), AllocError> {
    let start = line_begin(text, offset);
    let line = line_of(bytes_from(text, start));
    let before = between(line, 0, offset.saturating_sub(start));
    if line.len() <= LINE_LIMIT {
        push_shown(pointed, line)?;
        pointed.push('\n')?;
        push_blanks(pointed, before)?;
        pointed.push_str("^\n")?;
    }
    Ok(())
}

/// Puts a line at the end of a text, with a space for a tab, and `\xHH` for each other byte that is not printable ASCII.
fn push_shown(shown: &mut String, line: &[u8]) -> Result<(), AllocError> {
    for byte in line {
        push_shown_byte(shown, if *byte == b'\t' { b' ' } else { *byte })?;
    }
    Ok(())
}

/// Puts as many spaces at the end of a text as a line takes that is shown.
fn push_blanks(shown: &mut String, line: &[u8]) -> Result<(), AllocError> {
    for byte in line {
        let blanks = if is_shown(*byte) || *byte == b'\t' {
            " "
        } else {
            "    "
        };
        shown.push_str(blanks)?;
    }
    Ok(())
}
