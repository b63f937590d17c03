//! Rows without their `;` or `|`, and those with too few or too many cells.

use crate::cell_rules::MNEMONICS;
use crate::text_end::is_mark;
use crate::tokens::Spot;
use litmus_lines::PlacedTokens;
use litmus_syntax::Part;
use text_tokens::{Mark, Token};

/// The words and the sign with which begins what follows the rows.
const AFTER_ROWS: &[&str] = &["exists", "forall", "locations", "~"];

/// How many cells a row has, and how many threads the header row names.
#[derive(Clone, Copy)]
pub struct Cells {
    pub row: usize,
    pub threads: usize,
}

/// What is wrong with a row, or with initial values, at a token that is refused there.
#[derive(Clone, Copy)]
pub enum RowFault {
    /// The token ends a row of so many cells. The header row has the line of this number.
    Cells(Cells, u32),
    /// A line ends at this offset, and lacks its `;`; the row that it ends, if it is one.
    NoEnd(usize, Option<Cells>),
    /// A `|` is missing before the token, in a row of so many cells.
    NoBar(Cells),
}

/// What is wrong with the row in which a refused token stands, where so many tokens are left.
pub fn row_fault(tokens: &PlacedTokens<'_>, left: usize, spot: &Spot<'_>) -> Option<RowFault> {
    let header_line = tokens.line(header_at(tokens.as_slice()));
    let index = tokens.index(left);
    let tokens = tokens.as_slice();
    let cells = cells_of(tokens, index);
    match spot.part {
        Part::Row => Some(RowFault::Cells(cells, header_line)),
        part => match spot.line_end {
            Some(end) if lacks_end(part, spot) => Some(RowFault::NoEnd(end, row_of(part, cells))),
            _ => missing_bar(spot, whole_row(tokens, index, cells)),
        },
    }
}

/// The cells of a row, where the token is of one.
fn row_of(part: Part, cells: Cells) -> Option<Cells> {
    match part {
        Part::Instruction => Some(cells),
        _ => None,
    }
}

/// That a `|` is missing before a token, where it is.
fn missing_bar(spot: &Spot<'_>, row: Cells) -> Option<RowFault> {
    match spot.part {
        Part::Instruction if lacks_bar(spot, row) => Some(RowFault::NoBar(row)),
        _ => None,
    }
}

/// Whether a `|` is missing before a token that begins an instruction: its row has too few cells.
fn lacks_bar(spot: &Spot<'_>, row: Cells) -> bool {
    row.row < row.threads && !begins_cell(spot) && begins_instruction(spot)
}

/// Whether a token begins a cell, or stands after a label there.
fn begins_cell(spot: &Spot<'_>) -> bool {
    [b"|", b";", b":"]
        .iter()
        .any(|mark| spot.before == mark.as_slice())
}

/// Whether an instruction that is read begins with the token.
fn begins_instruction(spot: &Spot<'_>) -> bool {
    MNEMONICS
        .iter()
        .any(|word| word.as_bytes().eq_ignore_ascii_case(spot.word))
}

/// Whether a `;` is missing before a token that begins a line.
fn lacks_end(part: Part, spot: &Spot<'_>) -> bool {
    match part {
        Part::Instruction => {
            !begins_cell(spot) || (spot.before != b";".as_slice() && follows_rows(spot))
        }
        Part::Header => spot.before.starts_with(b"P"),
        Part::Initial => spot.before.iter().take(1).any(|byte| byte.is_ascii_digit()),
        _ => false,
    }
}

/// Whether a token begins what follows the rows.
fn follows_rows(spot: &Spot<'_>) -> bool {
    AFTER_ROWS.iter().any(|word| word.as_bytes() == spot.word)
}

/// The cells of the row in which the token with this index stands, up to it.
fn cells_of(tokens: &[Token], index: usize) -> Cells {
    let mut row = 1usize;
    for token in tokens.iter().take(index) {
        if is_mark(token, Mark::Semicolon) {
            row = 1;
        } else if is_mark(token, Mark::Bar) {
            row = row.saturating_add(1);
        }
    }
    let threads = threads_of(tokens);
    Cells { row, threads }
}

/// The cells of a row with these up to the token with this index, up to its `;`.
fn whole_row(tokens: &[Token], index: usize, cells: Cells) -> Cells {
    let Cells { mut row, threads } = cells;
    for token in tokens.iter().skip(index) {
        if is_mark(token, Mark::Semicolon) {
            break;
        }
        if is_mark(token, Mark::Bar) {
            row = row.saturating_add(1);
        }
    }
    Cells { row, threads }
}

/// The index of the first token of the header row, which follows `}`.
fn header_at(tokens: &[Token]) -> usize {
    let end = tokens
        .iter()
        .position(|token| is_mark(token, Mark::CloseBrace));
    end.unwrap_or(0).saturating_add(1)
}

/// How many threads the header row names.
fn threads_of(tokens: &[Token]) -> usize {
    let mut threads = 1usize;
    for token in tokens.iter().skip(header_at(tokens)) {
        if is_mark(token, Mark::Semicolon) {
            return threads;
        }
        if is_mark(token, Mark::Bar) {
            threads = threads.saturating_add(1);
        }
    }
    threads
}
