//! Calls of `cover_solver`.

use crate::lines::{push_foreign_run, push_serving, push_table};
use crate::refusal::SolverRefusal;
use cover_solver::{ForeignRun, Oracle, SeqTable, Solver, Verdict, sequential};
use litmus_text::{Litmus, NameTable};
use std::alloc::{AllocError, Global};
use text_calls::{gaps_of, labels_from, set_in};
use tso_program::{Program, ShownKind};

/// A call with the sequential outcomes, by its name.
#[derive(Clone, Copy)]
pub enum SolverCall {
    Sequential,
    Ask,
    Foreign,
}

/// What the solver says of the gaps that words name.
fn verdict(alloc: Global, table: &SeqTable, words: &[&[u8]]) -> Result<Verdict, SolverRefusal> {
    let program = table.program();
    let set = set_in(program, gaps_of(program, words))?;
    let solver = Solver::new(alloc, program, table)?;
    solver.ask(&set).map_err(SolverRefusal::from)
}

fn push_verdict(
    alloc: Global,
    names: &NameTable,
    verdict: &Verdict,
    printed: &mut String,
) -> Result<(), AllocError> {
    match verdict {
        Verdict::Foreign(run) => push_foreign_run(alloc, names, run, printed),
        Verdict::Serves(served) => push_serving(served.tree(), printed),
    }
}

/// Whether a set serves: a tree that shows it, or a foreign run.
fn push_asked(
    alloc: Global,
    names: &NameTable,
    table: &SeqTable,
    words: &[&[u8]],
    printed: &mut String,
) -> Result<(), SolverRefusal> {
    let verdict = verdict(alloc, table, words)?;
    let pushed = push_verdict(alloc, names, &verdict, printed);
    drop(verdict);
    Ok(pushed?)
}

/// The foreign run of the labels that words spell.
fn foreign(alloc: Global, table: &SeqTable, words: &[&[u8]]) -> Result<ForeignRun, SolverRefusal> {
    let labels = labels_from(alloc, words, 0)?;
    Ok(ForeignRun::new(alloc, table, labels.as_slice())?)
}

fn push_foreign(
    alloc: Global,
    names: &NameTable,
    table: &SeqTable,
    words: &[&[u8]],
    printed: &mut String,
) -> Result<(), SolverRefusal> {
    let run = foreign(alloc, table, words)?;
    let pushed = push_foreign_run(alloc, names, &run, printed);
    drop(run);
    Ok(pushed?)
}

/// The answer to a call with the sequential outcomes.
pub fn push_of_solver(
    alloc: Global,
    call: SolverCall,
    words: &[&[u8]],
    names: &NameTable,
    table: &SeqTable,
    printed: &mut String,
) -> Result<(), SolverRefusal> {
    match call {
        SolverCall::Sequential => Ok(push_table(alloc, names, table, printed)?),
        SolverCall::Ask => push_asked(alloc, names, table, words, printed),
        SolverCall::Foreign => push_foreign(alloc, names, table, words, printed),
    }
}

/// What is shown of outcomes, which `--observed` or `--condition` says, and the words after it.
pub fn options<'w, 'i>(words: &'w [&'i [u8]]) -> (ShownKind, &'w [&'i [u8]]) {
    match words.split_first() {
        Some((option, rest)) if *option == b"--observed".as_slice() => (ShownKind::Observed, rest),
        Some((option, rest)) if *option == b"--condition".as_slice() => {
            (ShownKind::Condition, rest)
        }
        _ => (ShownKind::Whole, words),
    }
}

/// The sequential outcomes of a test, as far as they are shown.
pub fn table_of(
    alloc: Global,
    litmus: &Litmus<Program>,
    kind: ShownKind,
) -> Result<SeqTable, SolverRefusal> {
    let shown = litmus.shown_as(kind)?;
    Ok(sequential(alloc, &litmus.program, &shown)?)
}
