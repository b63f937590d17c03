//! The table of a run.
ghost use Rattle.std.specs.Prelude.{◌≡◌, ◌++◌, IfOk, OnOk, length, replicate};
ghost use Rattle.run_views.specs.Tables.{cell_at, cells_of, columns, headings, line_of, lines_of, or_dash, padding, rows_of, table_text, width, widths};

use crate::cells::{
    effect_cell, instruction_cell, label_cell, memory_cell, thread_cell, waiting_cell,
};
use litmus_text::Litmus;
use std::alloc::{AllocError, Global};
use std::marker::Model;
use tso_machine::Step;
use tso_program::Program;

/// How many columns the table has.
const COLUMNS: usize = 6;

/// A line of the table: what stands in each of its columns.
#[derive(Drop)]
struct Row {
    cells: Vec<Vec<u8>>,
}

impl Model for Row {
    ghost use Rattle.std.specs.Prelude.{map};
    ghost use Rattle.run_views.specs.Tables.{Cells};

    ghost Value = { Cells };

    ghost view = { λ row. map (λ cell. cell.items) row.cells.items };
}

impl Row {
    /// What stands in a column.
    fn cell(&self, column: usize) -> &[u8]
        ensures { result.now ≡ cell_at self.now column }
    {
        match self.cells.get(column) {
            Some(cell) => cell,
            None => b"",
        }
    }
}

/// The line of headings.
fn heading(alloc: Global) -> Result<Row, AllocError>
    ensures { IfOk result (λ row. row ≡ headings) }
{
    let mut cells = Vec::new(alloc);
    cells.push(Vec::from_slice(alloc, b"step")?)?;
    cells.push(Vec::from_slice(alloc, b"thread")?)?;
    cells.push(Vec::from_slice(alloc, b"instruction")?)?;
    cells.push(Vec::from_slice(alloc, b"reads and stores")?)?;
    cells.push(Vec::from_slice(alloc, b"still waits")?)?;
    cells.push(Vec::from_slice(alloc, b"reaches memory")?)?;
    Ok(Row { cells })
}

/// The cell, or `-` in place of one that is empty.
fn or_dash(alloc: Global, cell: Vec<u8>) -> Result<Vec<u8>, AllocError>
    ensures { IfOk result (λ text. text.items ≡ or_dash cell.items) }
{
    if cell.is_empty() {
        Vec::from_slice(alloc, b"-")
    } else {
        Ok(cell)
    }
}

/// The line of a step.
fn row_of(alloc: Global, litmus: &Litmus<Program>, step: &Step) -> Result<Row, AllocError>
    ensures { IfOk result (λ row. row ≡ cells_of litmus.now step.now) }
{
    let mut cells = Vec::new(alloc);
    cells.push(label_cell(alloc, step)?)?;
    cells.push(thread_cell(alloc, step)?)?;
    cells.push(or_dash(alloc, instruction_cell(alloc, litmus, step)?)?)?;
    cells.push(or_dash(alloc, effect_cell(alloc, litmus, step)?)?)?;
    cells.push(or_dash(alloc, waiting_cell(alloc, &litmus.names, step)?)?)?;
    cells.push(or_dash(alloc, memory_cell(alloc, litmus, step)?)?)?;
    Ok(Row { cells })
}

/// The line of headings, and a line of each step.
fn rows_of(alloc: Global, litmus: &Litmus<Program>, steps: &[Step]) -> Result<Vec<Row>, AllocError>
    ensures { IfOk result (λ rows. rows.items ≡ rows_of litmus.now steps.now) }
{
    let mut rows = Vec::new(alloc);
    rows.push(heading(alloc)?)?;
    for step in steps {
        rows.push(row_of(alloc, litmus, step)?)?;
    }
    Ok(rows)
}

/// How many bytes the longest cell of a column has.
fn width(rows: &[Row], column: usize) -> usize
    ensures { result ≡ width rows.now column }
{
    let mut most = 0;
    for row in rows {
        most = most.max(row.cell(column).len());
    }
    most
}

/// The widths of the columns.
fn widths(alloc: Global, rows: &[Row]) -> Result<Vec<usize>, AllocError>
    ensures { IfOk result (λ all. all.items ≡ widths rows.now) }
{
    let mut all = Vec::new(alloc);
    for column in 0..COLUMNS {
        all.push(width(rows, column))?;
    }
    Ok(all)
}

fn push_spaces(out: &mut Vec<u8>, count: usize) -> Result<(), AllocError>
    ensures { OnOk result (out.new.items ≡ out.old.items ++ replicate count 32) }
{
    for _ in 0..count {
        out.push(b' ')?;
    }
    Ok(())
}

/// A cell, and after it two spaces more than its column's longest cell needs; the last one has none after it.
fn push_cell(out: &mut Vec<u8>, cell: &[u8], width: usize, is_last: bool) -> Result<(), AllocError>
    ensures { OnOk result (out.new.items ≡ out.old.items ++ cell.now ++ padding width cell.now is_last) }
{
    out.extend_from_slice(cell)?;
    if !is_last {
        push_spaces(out, width.saturating_sub(cell.len()))?;
        out.extend_from_slice(b"  ")?;
    }
    Ok(())
}

/// The cells, each in its column.
fn push_row(out: &mut Vec<u8>, row: &Row, widths: &[usize]) -> Result<(), AllocError>
    requires { length widths.now ≡ columns }
    ensures { OnOk result (out.new.items ≡ out.old.items ++ line_of widths.now row.now) }
{
    for column in 0..COLUMNS {
        push_cell(out, row.cell(column), widths[column], column + 1 == COLUMNS)?;
    }
    out.push(b'\n')?;
    Ok(())
}

/// The lines, their cells in columns.
fn lines_of(alloc: Global, rows: &[Row]) -> Result<Vec<u8>, AllocError>
    ensures { IfOk result (λ lines. lines.items ≡ lines_of rows.now) }
{
    let widths = widths(alloc, rows)?;
    let mut out = Vec::new(alloc);
    for row in rows {
        push_row(&mut out, row, widths.as_slice())?;
    }
    Ok(out)
}

/// The table of the steps of a run of a litmus text's program: a line of headings, and a line a step, with its label, its
/// thread, the instruction as it is written, what it reads and from where and what it stores, what then still waits in the
/// thread's buffer, and what reaches memory. `-` stands where there is nothing.
pub fn run_table(
    alloc: Global,
    litmus: &Litmus<Program>,
    steps: &[Step],
) -> Result<Vec<u8>, AllocError>
    ensures { IfOk result (λ table. table.items ≡ table_text litmus.now steps.now) }
{
    let rows = rows_of(alloc, litmus, steps)?;
    lines_of(alloc, rows.as_slice())
}
