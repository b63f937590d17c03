//! Drawing rows of cells below one another.

use crate::row_marks::RowMark;
use litmus_lines::between;
use std::alloc::AllocError;

/// Where the next mark of a row is drawn: in the columns of a line of the text, after the one at this offset; or after a
/// space.
#[derive(Clone, Copy)]
pub(crate) enum Pen {
    At(usize),
    Anywhere,
}

/// Adds a blank for each character, a tab for a tab.
fn push_blanks(out: &mut Vec<u8>, bytes: &[u8]) -> Result<(), AllocError> {
    for byte in bytes {
        if *byte == b'\t' {
            out.push(b'\t')?;
        } else if *byte < 0x80 || *byte >= 0xc0 {
            out.push(b' ')?;
        }
    }
    Ok(())
}

/// Adds blanks up to the column of an offset.
pub(crate) fn push_indent(
    out: &mut Vec<u8>,
    text: &[u8],
    pen: Pen,
    offset: usize,
) -> Result<(), AllocError> {
    match pen {
        Pen::At(from) => push_blanks(out, between(text, from, offset)),
        Pen::Anywhere => Ok(()),
    }
}

/// Adds a mark.
fn push_mark(out: &mut Vec<u8>, text: &[u8], pen: Pen, mark: RowMark) -> Result<Pen, AllocError> {
    push_indent(out, text, pen, mark.offset)?;
    out.extend_from_slice(mark.word)?;
    match pen {
        Pen::At(_) => Ok(Pen::At(mark.offset.saturating_add(mark.word.len()))),
        Pen::Anywhere => {
            out.push(b' ')?;
            Ok(Pen::Anywhere)
        }
    }
}

/// Adds those of the marks that stand from an offset on and before another.
pub(crate) fn push_marks(
    out: &mut Vec<u8>,
    text: &[u8],
    pen: Pen,
    marks: &[RowMark],
    range: (usize, usize),
) -> Result<Pen, AllocError> {
    let mut pen = pen;
    for mark in marks {
        if range.0 <= mark.offset && mark.offset < range.1 {
            pen = push_mark(out, text, pen, *mark)?;
        }
    }
    Ok(pen)
}

/// Ends a line of the text, as the one before an offset ends.
pub(crate) fn push_line_end(
    out: &mut Vec<u8>,
    text: &[u8],
    pen: Pen,
    begin: usize,
) -> Result<(), AllocError> {
    match pen {
        Pen::At(_) => {
            if between(text, 0, begin).ends_with(b"\r\n") {
                out.push(b'\r')?;
            }
            out.push(b'\n')?;
            Ok(())
        }
        Pen::Anywhere => Ok(()),
    }
}
