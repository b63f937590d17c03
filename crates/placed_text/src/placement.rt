//! From a placement problem to the certificate of its answer: its sequential outcomes, a solver of them, and the hunt.
ghost use Rattle.std.specs.Prelude.{◌≡◌, ◌≤◌, IfErr, IfOk, OnOk, length};
ghost use Rattle.tso_program.specs.Listings.{gap_count};
ghost use Rattle.fence_place.specs.Faults.{AreTooFewOrMany};
ghost use Rattle.fence_place.specs.Placements.{IsPlacement};
ghost use Rattle.placed_text.specs.Problems.{question_in};
ghost use Rattle.placed_text.specs.TextFaults.{HasNoPlacement};

use crate::TextFault;
use crate::problem::Problem;
use crate::watched::{Watched, report_outcomes};
use cert_forest::Certificate;
use certificate_proposals::SearchWatch;
use cover_solver::{SeqTable, SolveFault, Solver, sequential};
use fence_place::{Oracles, PlaceFault, place};
use search_effort::{Effort, report_ahead};
use std::alloc::Global;
use std::sync::Wait;
use std::thread::Threads;

/// The certificate of a problem's answer: the best set of its program's gaps that serves, by a search over whole trees. It
/// reports how far it is.
pub(crate) fn placement_of<R: Threads + Wait + Sync>(
    rt: &R,
    alloc: Global,
    problem: &Problem,
    effort: Effort,
) -> Result<Certificate, TextFault>
    requires one_each { length problem.now.costs.costs ≡ gap_count problem.now.litmus.program.threads }
    requires ties { length problem.now.costs.ties ≤ gap_count problem.now.litmus.program.threads }
    ensures placement { IfOk result (IsPlacement (question_in problem.now) problem.now.costs.costs) }
    ensures workers { OnOk result (¬ AreTooFewOrMany effort.workers) }
    ensures fault { IfErr result (HasNoPlacement effort.workers) }
{
    let program = &problem.litmus.program;
    let progress = report_ahead(alloc, program, effort.progress);
    let watch = SearchWatch::new(rt, alloc, progress);
    let table = table_of(alloc, problem)?;
    report_outcomes(alloc, progress, table.outcomes().len());
    let solver = Solver::new(alloc, program, &table)?;
    let watched = Watched {
        solver: &solver,
        costs: &problem.costs.costs,
        alloc,
        effort: Effort { progress, ..effort },
        watch,
    };
    certificate_by(rt, &watched, &table)
}

/// The sequential outcomes of a problem's program, for the question in which the problem's ties go together.
fn table_of(alloc: Global, problem: &Problem) -> Result<SeqTable, SolveFault>
    ensures { IfOk result (λ table. table.question ≡ question_in problem.now) }
{
    let table = sequential(alloc, &problem.litmus.program, &problem.shown)?;
    let ties = problem.costs.ties.copy()?;
    Ok(table.with_ties(ties))
}

/// The certificate of the best set of gaps that serves, by a solver that reports how many sets it is asked about.
fn certificate_by<R: Threads + Wait + Sync>(
    rt: &R,
    watched: &Watched<'_>,
    table: &SeqTable,
) -> Result<Certificate, TextFault>
    requires question { watched.now.solver.now.question ≡ table.now.question }
    requires one_each { length watched.now.costs.now ≡ gap_count table.now.question.program.threads }
    requires ties { length table.now.question.ties ≤ gap_count table.now.question.program.threads }
    ensures placed { IfOk result (IsPlacement table.now.question watched.now.costs.now) }
    ensures workers { OnOk result (¬ AreTooFewOrMany watched.now.effort.workers) }
    ensures fault { IfErr result (HasNoPlacement watched.now.effort.workers) }
{
    let oracles = Oracles {
        first: watched,
        again: watched.solver,
    };
    match place(
        rt,
        watched.alloc,
        oracles,
        table,
        watched.costs,
        watched.effort.workers,
    ) {
        Ok(certificate) => Ok(certificate),
        Err(PlaceFault::OutOfMemory) => Err(TextFault::OutOfMemory),
        Err(PlaceFault::Workers) => Err(TextFault::Workers),
        Err(PlaceFault::Costs | PlaceFault::NotCertified | PlaceFault::Board) => unreachable!(),
    }
}
