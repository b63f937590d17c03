//! How far a placement is, reported to people. No clause rests on it.
ghost use Rattle.std.specs.Prelude.{false};

use certificate_proposals::SearchWatch;
use cover_solver::{Oracle, SolveFault, Solver, Verdict};
use gap_sets::{Costs, GapSet};
use program_streams::{Progress, grouped};
use search_effort::Effort;
use std::alloc::{AllocError, Global};

/// A solver that reports how many sets it is asked about.
#[derive(Drop)]
pub(crate) struct Watched<'a> {
    pub(crate) solver: &'a Solver,
    pub(crate) costs: &'a Costs,
    pub(crate) alloc: Global,
    pub(crate) effort: Effort,
    pub(crate) watch: SearchWatch,
}

impl Watched<'_> {
    /// Reports that a set is asked about, if so many sets were asked about that their number is a power of two. One worker asks
    /// about the sets in ascending order of their costs.
    fn report(&self, set: &GapSet) {
        let Some(before) = self.watch.ask() else {
            return;
        };
        let asked = before.wrapping_add(1);
        if asked & before == 0 {
            let cost = self.costs.total(set);
            self.effort
                .progress
                .report(asked_line(self.alloc, asked, cost, self.effort.workers));
        }
    }
}

impl Oracle for Watched<'_> {
    ghost question = { λ watched. watched.solver.now.question };

    ghost may_lack_runs = { λ watched. false };

    ghost may_be_asked = { λ watched. Unit {0} };

    fn ask(&self, set: &GapSet) -> Result<Verdict, SolveFault> {
        self.report(set);
        self.solver.ask(set)
    }
}

/// That so many sets were asked about, the last of them of this cost.
fn asked_line(alloc: Global, asked: u64, cost: u64, workers: u8) -> Result<Vec<u8>, AllocError> {
    let asked = grouped(alloc, asked)?;
    let line = if workers == 1 {
        let cost = grouped(alloc, cost)?;
        format!(in alloc; "fencer: sets asked: {asked}; the answer costs at least {cost}\n")?
    } else {
        format!(in alloc; "fencer: sets asked: {asked}\n")?
    };
    Ok(line.into_bytes())
}

/// Reports how many outcomes the program has under sequential consistency.
pub(crate) fn report_outcomes(alloc: Global, progress: Progress, count: usize) {
    if progress.is_shown() {
        progress.report(outcomes_line(alloc, count));
    }
}

fn outcomes_line(alloc: Global, count: usize) -> Result<Vec<u8>, AllocError> {
    let count = grouped(alloc, count as u64)?;
    Ok(format!(in alloc; "fencer: sequential outcomes: {count}\n")?.into_bytes())
}
