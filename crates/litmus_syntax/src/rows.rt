//! The rows of instructions.

ghost use Rattle.std.specs.Prelude.{◌<◌, ◌≡◌, ◌++◌, length, IfOk, map};
ghost use Rattle.text_tokens.specs.Tokens.{toks};
ghost use Rattle.litmus_syntax.specs.Grammar.{IsRow, IsRowList, IsRows, ends_rows, row_labels, labels_in_rows};
ghost use Rattle.litmus_syntax.specs.Views.{row_view, label_view};
ghost use Rattle.litmus_syntax.specs.Exact.{Reads};

use crate::cell::{Cell, read_cell, read_next_cell};
use crate::fault::{Part, Refusal, SyntaxFault};
use crate::label::{LabelAt, repeated};
use crate::parts::{mark, refused};
use crate::place::opens_condition;
use std::alloc::Global;
use text_tokens::{Mark, Token, begins};

/// Whether the part after the rows begins here.
fn ends_rows(tokens: &[Token]) -> bool
    ensures { result ≡ ends_rows (toks tokens.now) }
{
    match text_tokens::word(tokens) {
        Some((word, _)) => opens_condition(word),
        None => begins(tokens, Mark::Tilde),
    }
}

/// A row: a cell for each thread, with `|` between them, and `;`. Its labels are added to those before them.
fn read_row<'t>(
    alloc: Global,
    threads: usize,
    tokens: &'t [Token],
    labels: &mut Vec<LabelAt<'t>>,
) -> Result<(Vec<Cell<'t>>, &'t [Token]), SyntaxFault>
    ensures reads { Reads (IsRow threads) (λ x. row_view x.0) (λ x. toks x.1.now) result (toks tokens.now) }
    ensures labels { IfOk result (λ x. map label_view labels.new.items ≡ map label_view labels.old.items ++ row_labels (row_view x.0)) }
    ensures shorter { IfOk result (λ x. length x.1.now < length tokens.now) }
{
    let mut cells = Vec::with_capacity(alloc, threads)?;
    let (first, mut rest) = read_cell(alloc, 0, tokens, labels)?;
    cells.push(first)?;
    while begins(rest, Mark::Bar) {
        let (cell, after) = read_next_cell(alloc, cells.len(), rest, labels)?;
        cells.push(cell)?;
        rest = after;
    }
    if cells.len() != threads {
        return Err(SyntaxFault::Refused(refused(rest, Part::Row)));
    }
    let end = mark(rest, Mark::Semicolon, Part::Row)?;
    Ok((cells, end))
}

/// The rows, up to the part after them. Their labels are added to those before them.
fn read_row_list<'t>(
    alloc: Global,
    threads: usize,
    tokens: &'t [Token],
    labels: &mut Vec<LabelAt<'t>>,
) -> Result<(Vec<Vec<Cell<'t>>>, &'t [Token]), SyntaxFault>
    ensures reads { Reads (IsRowList threads) (λ x. map row_view x.0.items) (λ x. toks x.1.now) result (toks tokens.now) }
    ensures labels { IfOk result (λ x. map label_view labels.new.items ≡ map label_view labels.old.items ++ labels_in_rows (map row_view x.0.items)) }
{
    let mut rows = Vec::new(alloc);
    let mut rest = tokens;
    while !ends_rows(rest) {
        let (row, after) = read_row(alloc, threads, rest, labels)?;
        rows.push(row)?;
        rest = after;
    }
    Ok((rows, rest))
}

/// The rows, up to the part after them. A label that stands in its thread already is refused at its word,
/// before whatever is refused after it.
pub(crate) fn read_rows<'t>(
    alloc: Global,
    threads: usize,
    tokens: &'t [Token],
) -> Result<(Vec<Vec<Cell<'t>>>, &'t [Token]), SyntaxFault>
    ensures { Reads (IsRows threads) (λ x. map row_view x.0.items) (λ x. toks x.1.now) result (toks tokens.now) }
{
    let mut labels = Vec::new(alloc);
    match read_row_list(alloc, threads, tokens, &mut labels) {
        Ok(read) => match repeated(alloc, labels.as_slice())? {
            Some(left) => Err(SyntaxFault::Refused(twice(left))),
            None => Ok(read),
        },
        Err(SyntaxFault::Refused(refusal)) => match repeated(alloc, labels.as_slice())? {
            Some(left) => Err(SyntaxFault::Refused(twice(left))),
            None => Err(SyntaxFault::Refused(refusal)),
        },
        Err(SyntaxFault::OutOfMemory) => Err(SyntaxFault::OutOfMemory),
    }
}

/// The refusal of a label that stands already, where so many tokens are left.
fn twice(left: usize) -> Refusal {
    let part = Part::Label;
    Refusal { part, left }
}
