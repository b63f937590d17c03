//! The table of a run, in which the line of the step that passes a gap is marked.
ghost use Rattle.std.specs.Prelude.{◌≡◌, ◌++◌, IfOk, OnOk, position, string_bytes};
ghost use Rattle.placed_text.specs.MarkedTables.{gap_mark, mark_line, marked_table, passes_gap};

use std::alloc::{AllocError, Global};
use tso_machine::{Label, Step};
use tso_program::Program;

/// Whether a step executes the instruction after a gap while a store of its thread waits.
fn passes_gap(program: &Program, gap: u8, step: &Step) -> bool
    ensures { result ≡ passes_gap program.now.threads gap step.now }
{
    match step.label {
        Label::Exec(thread) => {
            let after = program.gap_number(thread, step.before.local.place);
            after.is_some_and(|number| number == gap) && !step.before.waiting.as_slice().is_empty()
        }
        Label::Flush(_) => false,
    }
}

/// The number of the first step that passes a gap.
fn passing_step(program: &Program, gap: u8, steps: &[Step]) -> Option<usize>
    ensures { result ≡ position (passes_gap program.now.threads gap) steps.now }
{
    steps.iter().position(|step| passes_gap(program, gap, step))
}

/// The text with a mark at the end of a line, by how many lines stand before it.
fn mark_line(alloc: Global, before: usize, mark: &[u8], text: &[u8]) -> Result<Vec<u8>, AllocError>
    ensures { IfOk result (λ marked. marked.items ≡ mark_line before mark.now text.now) }
{
    let mut marked = Vec::new(alloc);
    let mut left = before;
    for (at, byte) in text.iter().enumerate() {
        if *byte == b'\n' && left == 0 {
            marked.extend_from_slice(mark)?;
            marked.extend_from_slice(&text[at..])?;
            return Ok(marked);
        }
        if *byte == b'\n' {
            left -= 1;
        }
        marked.push(*byte)?;
    }
    Ok(marked)
}

/// What marks the step that passes a gap.
fn gap_mark(alloc: Global, program: &Program, gap: u8) -> Result<String, AllocError>
    ensures { IfOk result (λ mark. string_bytes mark ≡ gap_mark program.now.threads gap) }
{
    let mut mark = String::new(alloc);
    mark.push_str("  <-")?;
    if let Some((thread, k)) = program.gap_place(gap) {
        write!(mark, " {thread}:{k}")?;
    }
    Ok(mark)
}

/// The table of a run's steps, with a gap's mark at the end of the line of the first step that passes the gap.
pub(crate) fn marked_table(
    alloc: Global,
    program: &Program,
    gap: u8,
    steps: &[Step],
    table: &[u8],
) -> Result<Vec<u8>, AllocError>
    ensures { IfOk result (λ marked. marked.items ≡ marked_table program.now.threads gap steps.now table.now) }
{
    let Some(earlier) = passing_step(program, gap, steps) else {
        return Vec::from_slice(alloc, table);
    };
    let mark = gap_mark(alloc, program, gap)?;
    mark_line(alloc, earlier + 1, mark.as_bytes(), table)
}
