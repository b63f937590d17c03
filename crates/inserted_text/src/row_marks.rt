//! The marks of a row, and where fences stand among them.

use gap_sets::GapSet;
use litmus_lines::PlacedTokens;
use litmus_syntax::Cell;
use std::alloc::{AllocError, Global};
use text_tokens::{Mark, Token};
use tso_program::Program;

/// A mark of a row: one that stands in the text, or a fence above an instruction that begins there.
#[derive(Clone, Copy)]
pub(crate) struct RowMark {
    pub(crate) offset: usize,
    pub(crate) word: &'static [u8],
}

/// The marks of a row.
#[derive(Drop)]
pub(crate) struct RowMarks {
    /// The offset of its first token.
    pub(crate) first: usize,
    /// Its bars and its `;`, from left to right.
    pub(crate) ends: Vec<RowMark>,
    /// Of the row that is put in above it: its bars, its `;`, and the fences of the cells without a label.
    pub(crate) above: Vec<RowMark>,
    /// The offsets of the fenced instructions that have one.
    pub(crate) labelled: Vec<usize>,
}

impl RowMarks {
    /// Those of no cells, of a row whose first token has this offset.
    fn new(alloc: Global, first: usize) -> RowMarks {
        RowMarks {
            first,
            ends: Vec::new(alloc),
            above: Vec::new(alloc),
            labelled: Vec::new(alloc),
        }
    }

    /// Adds a bar or a `;`.
    fn push_end(&mut self, offset: usize, word: &'static [u8]) -> Result<(), AllocError> {
        self.ends.push(RowMark { offset, word })?;
        self.above.push(RowMark { offset, word })?;
        Ok(())
    }

    /// Adds the fence before an instruction.
    fn push_fence(&mut self, offset: usize, is_labelled: bool) -> Result<(), AllocError> {
        if is_labelled {
            self.labelled.push(offset)?;
        } else {
            let word = b"MFENCE";
            self.above.push(RowMark { offset, word })?;
        }
        Ok(())
    }

    /// Whether a fence stands in a row above it.
    pub(crate) fn has_row_above(&self) -> bool {
        self.above.len() > self.ends.len()
    }

    /// Whether one of its instructions is fenced.
    pub(crate) fn has_fence(&self) -> bool {
        self.has_row_above() || !self.labelled.is_empty()
    }

    /// The offset of its `;`.
    pub(crate) fn end(&self) -> usize {
        match self.ends.last() {
            Some(mark) => mark.offset,
            None => self.first,
        }
    }
}

/// The index of a cell's token after its labels, and that of its first token.
fn cell_indices(tokens: &PlacedTokens<'_>, cell: &Cell<'_>) -> (usize, usize) {
    let code = tokens.index(cell.left);
    (
        code,
        code.saturating_sub(cell.labels.len().saturating_mul(2)),
    )
}

/// The index of the first token of a row.
fn first_index(tokens: &PlacedTokens<'_>, row: &[Cell<'_>]) -> usize {
    match row.first() {
        Some(cell) => cell_indices(tokens, cell).1,
        None => 0,
    }
}

/// The index of the first `;` from the token with this index on.
fn semicolon(tokens: &[Token], index: usize) -> usize {
    let rest = tokens.split_at(index.min(tokens.len())).1;
    let before = rest.iter().take_while(|token| !is_semicolon(token)).count();
    index.saturating_add(before)
}

fn is_semicolon(token: &Token) -> bool {
    matches!(token, Token::Mark(Mark::Semicolon))
}

/// Whether the gap before a cell's instruction is fenced. The counts are those of each thread's instructions before it.
fn is_fenced(
    program: &Program,
    gaps: &GapSet,
    counts: &mut [u8],
    thread: usize,
    cell: &Cell<'_>,
) -> bool {
    if cell.code.is_none() {
        return false;
    }
    let Some(count) = counts.get_mut(thread) else {
        return false;
    };
    let instruction = *count;
    *count = instruction.saturating_add(1);
    program.is_fenced(gaps, thread.min(255) as u8, instruction)
}

/// The marks of a row of cells.
pub(crate) fn row_marks(
    alloc: Global,
    tokens: &PlacedTokens<'_>,
    program: &Program,
    gaps: &GapSet,
    counts: &mut [u8],
    row: &[Cell<'_>],
) -> Result<RowMarks, AllocError> {
    let first = first_index(tokens, row);
    let mut marks = RowMarks::new(alloc, tokens.offset(first));
    let mut last = first;
    for (thread, cell) in row.iter().enumerate() {
        let (code, begin) = cell_indices(tokens, cell);
        if thread > 0 {
            marks.push_end(tokens.offset(begin.saturating_sub(1)), b"|")?;
        }
        if is_fenced(program, gaps, counts, thread, cell) {
            marks.push_fence(tokens.offset(code), !cell.labels.is_empty())?;
        }
        last = code;
    }
    marks.push_end(tokens.offset(semicolon(tokens.as_slice(), last)), b";")?;
    Ok(marks)
}
