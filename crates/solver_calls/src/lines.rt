//! The lines of the solver's answers.

use cert_forest::{CoverTree, Runs};
use cover_solver::{ForeignRun, SeqTable};
use litmus_text::NameTable;
use report::{outcome_line, passed_line};
use std::alloc::{AllocError, Global};
use text_calls::{push_bytes, push_run};

/// A tree as its derived `Debug` writes it.
fn push_tree(tree: &CoverTree, printed: &mut String) -> Result<(), AllocError> {
    write!(printed, "tree {tree:?}\n")
}

fn push_runs(alloc: Global, runs: &Runs, printed: &mut String) -> Result<(), AllocError> {
    for run in runs {
        push_run(alloc, run, printed)?;
    }
    Ok(())
}

/// How many outcomes there are, and each of them.
fn push_outcomes(
    alloc: Global,
    names: &NameTable,
    table: &SeqTable,
    printed: &mut String,
) -> Result<(), AllocError> {
    write!(printed, "outcomes {}\n", table.outcomes().len())?;
    for outcome in table.outcomes() {
        push_bytes(
            printed,
            &outcome_line(alloc, names, &table.question().shown, outcome)?,
        )?;
    }
    Ok(())
}

/// The sequential outcomes, a run of each, and the tree.
pub fn push_table(
    alloc: Global,
    names: &NameTable,
    table: &SeqTable,
    printed: &mut String,
) -> Result<(), AllocError> {
    push_outcomes(alloc, names, table, printed)?;
    push_runs(alloc, table.runs(), printed)?;
    push_tree(table.tree(), printed)
}

/// What a foreign run leaves, the gaps that it passes, and its steps.
pub fn push_foreign_run(
    alloc: Global,
    names: &NameTable,
    run: &ForeignRun,
    printed: &mut String,
) -> Result<(), AllocError> {
    printed.push_str("foreign\n")?;
    push_bytes(
        printed,
        &outcome_line(alloc, names, &run.question().shown, run.outcome())?,
    )?;
    push_bytes(printed, &passed_line(alloc, run.program(), &run.passed())?)?;
    push_run(alloc, run.labels(), printed)
}

/// That a set serves, and the tree that shows it.
pub fn push_serving(tree: &CoverTree, printed: &mut String) -> Result<(), AllocError> {
    printed.push_str("serves\n")?;
    push_tree(tree, printed)
}
