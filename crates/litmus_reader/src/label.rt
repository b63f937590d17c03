//! The labels of a text.
ghost use Rattle.std.specs.Prelude.{◌≡◌, ◌≤◌, ◌++◌, IfOk, OnOk, map, option_map, slice_get};
ghost use Rattle.litmus_syntax.specs.Views.{cell_view, row_view, body_view};
ghost use Rattle.litmus_reader.specs.Labels.{size, thread_labels, all_labels};

use litmus_syntax::{Body, Cell};
use std::alloc::{AllocError, Global};
use tso_program::Items;

/// A label of a thread.
#[derive(Drop)]
pub struct CodeLabel {
    pub name: Items<u8>,
    /// The number of the instruction that it stands before, in its thread; how many there are, if it stands at the end.
    pub position: usize,
}

/// Adds the labels of a cell, which stand at this position.
fn push_labels(
    alloc: Global,
    labels: &mut Vec<CodeLabel>,
    names: &[&[u8]],
    position: usize,
) -> Result<(), AllocError>
    ensures { OnOk result (labels.new.items ≡ labels.old.items ++ map (λ name. record { name = name.now; position = position }) names.now) }
{
    for name in names {
        let name = Items::of(Vec::from_slice(alloc, name)?);
        labels.push(CodeLabel { name, position })?;
    }
    Ok(())
}

/// How many instructions a cell has.
fn size(cell: &Cell<'_>) -> usize
    ensures value { result ≡ size (cell_view cell.now) }
    ensures small { result ≤ 1 }
{
    match cell.code {
        Some(_) => 1,
        None => 0,
    }
}

/// A thread's cell in a row.
pub(crate) fn cell_at<'r, 't>(row: &'r [Cell<'t>], thread: usize) -> Option<&'r Cell<'t>>
    ensures { option_map (λ cell. cell_view cell.now) result ≡ slice_get (map cell_view row.now) thread }
{
    row.get(thread)
}

/// The labels of a thread, in text order.
fn thread_labels(
    alloc: Global,
    rows: &[Vec<Cell<'_>>],
    thread: usize,
) -> Result<Vec<CodeLabel>, AllocError>
    ensures { IfOk result (λ labels. labels.items ≡ thread_labels (map row_view rows.now) thread) }
{
    let mut labels = Vec::new(alloc);
    let mut position: usize = 0;
    for row in rows {
        if let Some(cell) = cell_at(row.as_slice(), thread) {
            push_labels(alloc, &mut labels, cell.labels.as_slice(), position)?;
            position += size(cell);
        }
    }
    Ok(labels)
}

/// Each thread's labels, in text order.
pub(crate) fn all_labels(
    alloc: Global,
    body: &Body<'_>,
) -> Result<Vec<Items<CodeLabel>>, AllocError>
    ensures { IfOk result (λ labels. labels.items ≡ all_labels (body_view body.now)) }
{
    let mut labels = Vec::new(alloc);
    for thread in 0..body.threads {
        let own = thread_labels(alloc, body.rows.as_slice(), thread)?;
        labels.push(Items::of(own))?;
    }
    Ok(labels)
}
