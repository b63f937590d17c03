//! The text with its fences.

use crate::drawing::{Pen, push_indent, push_line_end, push_marks};
use crate::row_marks::{RowMark, RowMarks, row_marks};
use gap_sets::GapSet;
use litmus_lines::{PlacedTokens, between, line_begin};
use litmus_syntax::{Body, SyntaxFault, read_body};
use std::alloc::{AllocError, Global};
use text_tokens::is_white_space;
use tso_program::Program;

/// A text that is written again up to an offset.
#[derive(Drop)]
struct Transcript<'a> {
    text: &'a [u8],
    done: usize,
    out: Vec<u8>,
}

impl<'a> Transcript<'a> {
    /// Goes on up to an offset.
    fn go_to(&mut self, offset: usize) -> Result<(), AllocError> {
        let bytes = between(self.text, self.done, offset);
        self.done = self.done.max(offset);
        self.out.extend_from_slice(bytes)
    }
}

/// How a row above another is drawn: in its columns, where that one stands on a line and nothing before it there.
fn pen_of(text: &[u8], marks: &RowMarks) -> Pen {
    let begin = line_begin(text, marks.first);
    let before = between(text, begin, marks.first);
    let within = between(text, marks.first, marks.end());
    if before.iter().all(|byte| is_white_space(*byte)) && !within.contains(&b'\n') {
        Pen::At(begin)
    } else {
        Pen::Anywhere
    }
}

/// Where a row above another goes: before its line, or before its first token.
fn place_above(pen: Pen, marks: &RowMarks) -> usize {
    match pen {
        Pen::At(begin) => begin,
        Pen::Anywhere => marks.first,
    }
}

/// Puts a row of fences above a row.
fn insert_above(copy: &mut Transcript<'_>, pen: Pen, marks: &RowMarks) -> Result<(), AllocError> {
    let place = place_above(pen, marks);
    let text = copy.text;
    copy.go_to(place)?;
    push_marks(&mut copy.out, text, pen, &marks.above, (0, text.len()))?;
    push_line_end(&mut copy.out, text, pen, place)
}

/// Puts a fence between the labels of an instruction and itself. The row goes on below it.
fn insert_at(
    copy: &mut Transcript<'_>,
    pen: Pen,
    marks: &RowMarks,
    offset: usize,
) -> Result<(), AllocError> {
    let text = copy.text;
    let begin = place_above(pen, marks);
    let fence = RowMark {
        offset,
        word: b"MFENCE",
    };
    let here = match pen {
        Pen::At(_) => Pen::At(offset),
        Pen::Anywhere => Pen::Anywhere,
    };
    copy.go_to(offset)?;
    let after = push_marks(&mut copy.out, text, here, &[fence], (0, text.len()))?;
    push_marks(
        &mut copy.out,
        text,
        after,
        &marks.ends,
        (offset, text.len()),
    )?;
    push_line_end(&mut copy.out, text, pen, begin)?;
    let below = push_marks(&mut copy.out, text, pen, &marks.ends, (0, offset))?;
    push_indent(&mut copy.out, text, below, offset)
}

/// Puts the fences of a row in.
fn insert_row(copy: &mut Transcript<'_>, marks: &RowMarks) -> Result<(), AllocError> {
    if !marks.has_fence() {
        return Ok(());
    }
    let pen = pen_of(copy.text, marks);
    if marks.has_row_above() {
        insert_above(copy, pen, marks)?;
    }
    for offset in marks.labelled.as_slice() {
        insert_at(copy, pen, marks, *offset)?;
    }
    Ok(())
}

/// Puts the fences of a body's rows in.
fn insert_rows(
    alloc: Global,
    copy: &mut Transcript<'_>,
    tokens: &PlacedTokens<'_>,
    body: &Body<'_>,
    program: &Program,
    gaps: &GapSet,
) -> Result<(), AllocError> {
    let mut counts = vec![in alloc; 0u8; body.threads]?;
    for row in body.rows.as_slice() {
        let marks = row_marks(alloc, tokens, program, gaps, &mut counts, row.as_slice())?;
        insert_row(copy, &marks)?;
    }
    Ok(())
}

/// Puts the fences of the rows in that are read of tokens; none where they are not read.
fn insert_fences(
    alloc: Global,
    copy: &mut Transcript<'_>,
    tokens: &PlacedTokens<'_>,
    program: &Program,
    gaps: &GapSet,
) -> Result<(), AllocError> {
    match read_body(alloc, tokens.as_slice()) {
        Ok((body, _)) => insert_rows(alloc, copy, tokens, &body, program, gaps),
        Err(SyntaxFault::Refused(_)) => Ok(()),
        Err(SyntaxFault::OutOfMemory) => Err(AllocError),
    }
}

/// The text of a program with an MFENCE in each gap of the set.
pub(crate) fn with_fences(
    alloc: Global,
    text: &[u8],
    program: &Program,
    gaps: &GapSet,
) -> Result<Vec<u8>, AllocError> {
    let tokens = PlacedTokens::of(alloc, text)?;
    let mut copy = Transcript {
        text,
        done: 0,
        out: Vec::new(alloc),
    };
    insert_fences(alloc, &mut copy, &tokens, program, gaps)?;
    copy.go_to(text.len())?;
    Ok(copy.out)
}
