//! The certificate of a problem's answer. For a program of many combinations of traces a search proposes it, and the checker
//! judges what is proposed.
ghost use Rattle.std.specs.Prelude.{◌≡◌, ◌≤◌, IfErr, IfOk, IfSome, OnOk, length};
ghost use Rattle.tso_program.specs.Listings.{gap_count};
ghost use Rattle.fence_place.specs.Faults.{AreTooFewOrMany};
ghost use Rattle.fence_place.specs.Placements.{IsPlacement};
ghost use Rattle.placed_text.specs.Problems.{question_in};
ghost use Rattle.placed_text.specs.TextFaults.{HasNoPlacement};

use crate::TextFault;
use crate::placement::placement_of;
use crate::problem::Problem;
use crate::watched::report_outcomes;
use cert_forest::{Certificate, Rule};
use certificate_proposals::{SearchPlan, SearchWatch, propose, proposed_rule};
use fence_place::accepted_proposal;
use search_effort::{Effort, report_ahead, warn_of_minutes};
use std::alloc::{AllocError, Global};
use std::sync::Wait;
use std::thread::Threads;
use tso_program::MAX_WORKERS;

/// The certificate of a problem's answer: the one that is proposed, or else that of the problem's placement.
pub(crate) fn certificate_of<R: Threads + Wait + Sync>(
    rt: &R,
    alloc: Global,
    problem: &Problem,
    effort: Effort,
) -> Result<Certificate, TextFault>
    requires one_each { length problem.now.costs.costs ≡ gap_count problem.now.litmus.program.threads }
    requires ties { length problem.now.costs.ties ≤ gap_count problem.now.litmus.program.threads }
    ensures placement { IfOk result (IsPlacement (question_in problem.now) problem.now.costs.costs) }
    ensures workers { OnOk result (¬ AreTooFewOrMany effort.workers) }
    ensures fault { IfErr result (HasNoPlacement effort.workers) }
{
    judge_workers(effort.workers)?;
    if effort.warns {
        warn_of_minutes(alloc, &problem.litmus.program, effort.progress);
    }
    match proposed(rt, alloc, problem, effort)? {
        Some(certificate) => Ok(certificate),
        None => placement_of(rt, alloc, problem, effort),
    }
}

/// Refuses a number of workers that can't be.
fn judge_workers(workers: u8) -> Result<(), TextFault>
    ensures workers { OnOk result (¬ AreTooFewOrMany workers) }
    ensures fault { IfErr result (HasNoPlacement workers) }
{
    if workers == 0 || workers > MAX_WORKERS {
        return Err(TextFault::Workers);
    }
    Ok(())
}

/// The text of a certificate that a search proposes by a plan. Where it gives up whole trees, and none were asked for, it proposes
/// early ones.
fn proposal<R: Threads + Sync>(
    rt: &R,
    alloc: Global,
    problem: &Problem,
    plan: SearchPlan<'_>,
    trees: Option<Rule>,
) -> Result<Option<Vec<u8>>, AllocError> {
    let Problem {
        litmus,
        shown,
        costs,
        ..
    } = problem;
    let first = propose(rt, alloc, plan, &litmus.program, shown, costs)?;
    match (first, plan.rule, trees) {
        (None, Rule::Whole, None) => {
            let early = SearchPlan {
                rule: Rule::Early,
                ..plan
            };
            propose(rt, alloc, early, &litmus.program, shown, costs)
        }
        (found, ..) => Ok(found),
    }
}

/// The certificate that a search proposes, where one is asked of it and the checker accepts it.
fn proposed<R: Threads + Sync>(
    rt: &R,
    alloc: Global,
    problem: &Problem,
    effort: Effort,
) -> Result<Option<Certificate>, AllocError>
    ensures { IfOk result (λ found. IfSome found (IsPlacement (question_in problem.now) problem.now.costs.costs)) }
{
    let program = &problem.litmus.program;
    let Some(rule) = proposed_rule(alloc, program, effort.trees)? else {
        return Ok(None);
    };
    let progress = match rule {
        Rule::Whole => report_ahead(alloc, program, effort.progress),
        Rule::Early => effort.progress,
    };
    let watch = SearchWatch::new(rt, alloc, progress);
    let plan = SearchPlan {
        rule,
        workers: effort.workers,
        watch: &watch,
    };
    let Some(text) = proposal(rt, alloc, problem, plan, effort.trees)? else {
        return Ok(None);
    };
    watch.judge();
    let found = accepted_proposal(alloc, program, &problem.shown, &problem.costs, &text)?;
    if let Some(certificate) = &found {
        report_outcomes(alloc, progress, certificate.seq_runs.len());
    }
    Ok(found)
}
