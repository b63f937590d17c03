//! What is said of rows without their `;` or `|`, and of those with too few or too many cells.

use crate::message::Message;
use litmus_rules::{Cells, RowFault, Source, Spot};
use std::alloc::{AllocError, Global};

/// What is said of a row that has enough cells, and of initial values, where a line ends without `;`.
const NO_END: &str = "stands where `;` is missing";

/// What is said of a row at a token.
pub(crate) fn row_message(
    alloc: Global,
    source: Source<'_>,
    spot: &Spot<'_>,
    fault: RowFault,
) -> Result<Message, AllocError> {
    let said = said_of_row(alloc, fault)?;
    let (offset, word) = match fault {
        RowFault::NoEnd(end, _) => (end, b"\n".as_slice()),
        _ => (spot.offset, spot.shown),
    };
    Message::at_word(alloc, source, offset, word, said.as_str())
}

/// What is said of the fault of a row, after the word at which it is.
fn said_of_row(alloc: Global, fault: RowFault) -> Result<String, AllocError> {
    match fault {
        RowFault::Cells(cells, header_line) => said_of_cells(alloc, cells, header_line),
        RowFault::NoEnd(_, row) => said_of_end(alloc, row),
        RowFault::NoBar(cells) => {
            let counts = counts_of(alloc, cells)?;
            format!(in alloc; "stands where `|` is missing: the row has {counts}")
        }
    }
}

/// What is said where a line ends without `;`, after this row if it is one.
fn said_of_end(alloc: Global, row: Option<Cells>) -> Result<String, AllocError> {
    match row {
        Some(cells) if cells.row != cells.threads => {
            let counts = counts_of(alloc, cells)?;
            format!(in alloc; "{NO_END}, after {counts}")
        }
        _ => String::from_str(alloc, NO_END),
    }
}

/// What is said of the end of a row with another number of cells than there are threads, which the header row in this line
/// names.
fn said_of_cells(alloc: Global, cells: Cells, header_line: u32) -> Result<String, AllocError> {
    let counts = counts_of(alloc, cells)?;
    if cells.row < cells.threads {
        format!(in alloc;
            "ends a row with {counts}; an empty cell keeps its `|` (`MOV [x],$1 | ;`), and a second instruction of a thread stands in the next row"
        )
    } else {
        format!(in alloc;
            "ends a row with {counts}; each row has one cell for each thread that line {header_line} names"
        )
    }
}

/// Both numbers.
fn counts_of(alloc: Global, cells: Cells) -> Result<String, AllocError> {
    let Cells { row, threads } = cells;
    let ending = ending_of(row);
    let of_threads = ending_of(threads);
    format!(in alloc; "{row} cell{ending} for {threads} thread{of_threads}")
}

/// The ending of a noun of so many.
fn ending_of(count: usize) -> &'static str {
    if count == 1 { "" } else { "s" }
}
