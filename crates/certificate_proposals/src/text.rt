//! The text of a certificate.
use crate::cover_text::push_cover;
use crate::foreign_runs::{ForeignRuns, ServedSet};
use crate::gap_text::gap_words;
use candidate_search::{ProposedOutcomes, ProposingSearch, SearchPlan};
use cert_forest::{Rule, Runs, Shows};
use cert_pages::{push_head, push_number, push_run, push_set};
use gap_sets::TiedCosts;
use live_registers::without_dead_loads;
use std::alloc::{AllocError, Global};
use std::thread::Threads;
use tso_machine::Mode;
use tso_program::{Program, Shown};

/// The text of a certificate for a program, what is shown of its outcomes and the costs of its gaps with their ties, which
/// nobody vouches for. Whole trees are those of a certificate of version 1 or 2, early ones of version 4. `None` where the search gives
/// up. Threads share a long search, and the text does not depend on how many there are.
pub fn propose<R: Threads + Sync>(
    rt: &R,
    alloc: Global,
    plan: SearchPlan<'_>,
    program: &Program,
    shown: &Shown,
    costs: &TiedCosts,
) -> Result<Option<Vec<u8>>, AllocError> {
    match plan.rule {
        Rule::Whole => text_over(rt, alloc, plan, program, shown, costs),
        Rule::Early => {
            let slim = without_dead_loads(alloc, program, shown)?;
            text_over(rt, alloc, plan, &slim, shown, costs)
        }
    }
}

/// The text of a certificate whose trees are those of this program. Without its dead loads a program has the same runs,
/// label by label.
fn text_over<R: Threads + Sync>(
    rt: &R,
    alloc: Global,
    plan: SearchPlan<'_>,
    program: &Program,
    shown: &Shown,
    costs: &TiedCosts,
) -> Result<Option<Vec<u8>>, AllocError> {
    let search = ProposingSearch::new(alloc, plan, program, shown)?;
    let mut known = ForeignRuns {
        alloc,
        rule: plan.rule,
        program,
        shown,
        costs,
        runs: Runs::new(alloc),
        passed: Vec::new(alloc),
    };
    match search.outcomes_by_threads(rt, Mode::Sequential)? {
        Some(sequential) => text_of(rt, &search, &mut known, &sequential),
        None => Ok(None),
    }
}

/// The text for a program's sequential outcomes. Foreign runs that a search finds are added to those that are known.
fn text_of<R: Threads + Sync>(
    rt: &R,
    search: &ProposingSearch<'_>,
    known: &mut ForeignRuns<'_>,
    sequential: &ProposedOutcomes,
) -> Result<Option<Vec<u8>>, AllocError> {
    let Some(served) = known.served(rt, search, &sequential.outcomes)? else {
        return Ok(None);
    };
    if let Rule::Whole = known.rule {
        known.learn_needed(rt, search, &sequential.outcomes, &served.set)?;
    }
    text_by(known, sequential, &served)
}

/// The text of a certificate of a set that serves, by known foreign runs. `None` if no gap tree is found.
fn text_by(
    known: &ForeignRuns<'_>,
    sequential: &ProposedOutcomes,
    served: &ServedSet,
) -> Result<Option<Vec<u8>>, AllocError> {
    let Some(gaps) = gap_words(known, &served.set)? else {
        return Ok(None);
    };
    let mut out = Vec::new(known.alloc);
    push_front(&mut out, known, sequential, served)?;
    push_gaps(&mut out, &gaps)?;
    Ok(Some(out))
}

/// The lines before that of the gap tree.
fn push_front(
    out: &mut Vec<u8>,
    known: &ForeignRuns<'_>,
    sequential: &ProposedOutcomes,
    served: &ServedSet,
) -> Result<(), AllocError> {
    push_head(out, known.rule, &Shows::of(known.shown))?;
    let gaps = known.costs.ties.spread(&served.set);
    push_set(out, gaps, known.costs.costs.total(&served.set))?;
    push_runs(out, b"seq", &sequential.runs)?;
    push_cover(out, b"tree", &sequential.nodes)?;
    push_runs(out, b"runs", &known.runs)?;
    push_cover(out, b"fenced", &served.nodes)
}

/// The line of the gap tree.
fn push_gaps(out: &mut Vec<u8>, words: &[u8]) -> Result<(), AllocError> {
    out.extend_from_slice(b"gaps")?;
    out.extend_from_slice(words)?;
    out.push(b'\n')?;
    Ok(())
}

/// A line with the number of runs, and a line for each.
fn push_runs(out: &mut Vec<u8>, name: &[u8], runs: &Runs) -> Result<(), AllocError> {
    out.extend_from_slice(name)?;
    push_number(out, runs.len() as u64)?;
    out.push(b'\n')?;
    for labels in runs.iter() {
        push_run(out, labels)?;
    }
    Ok(())
}
