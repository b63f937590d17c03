//! A search made again, once all of its runs are known.
//!
//! A hunt learns its runs one by one, so it splits nodes by runs that it would not choose if it knew all of
//! them. A search that knows them from the beginning mostly has far fewer nodes, and so has the gap tree of
//! its certificate. It asks whether the answer serves, and nothing else. How many nodes it has no clause says.
ghost use Rattle.std.specs.Prelude.{◌≡◌, true, IfOk, OnOk, length};
ghost use Rattle.tso_program.specs.declared.question.Question.{Question};
ghost use Rattle.tso_program.specs.Listings.{gap_count};
ghost use Rattle.oracle.specs.Facts.{AreOf};
ghost use Rattle.fence_place.specs.Internal.Searches.{IsOfQuestion, IsSearchFor};

use crate::searching::search;
use gap_sets::{Costs, GapSet};
use oracle::{ForeignRun, Oracle, SeqTable, Served, SolveFault, Verdict};
use search_core::{Finished, SettledEvent};
use std::alloc::{AllocError, Global};

/// Of one set it knows that it serves, and it has no run.
#[derive(Drop)]
struct Answered<'a> {
    served: &'a Served,
}

impl Oracle for Answered<'_> {
    ghost question = { λ answered. answered.served.now.question };

    ghost may_lack_runs = { λ answered. true };

    ghost may_be_asked = { λ answered. Unit {0} };

    fn ask(&self, set: &GapSet) -> Result<Verdict, SolveFault> {
        if !self.served.set().same(set) {
            return Err(SolveFault::NoRun);
        }
        Ok(Verdict::Serves(self.served.copy()?))
    }
}

/// The search with fewer nodes: the one that is given, or one that knows its runs from the beginning. Where
/// there is no memory for another, it is the one that is given.
pub(crate) fn retraced(
    alloc: Global,
    table: &SeqTable,
    costs: &Costs,
    finished: Finished,
) -> Finished
    requires search { IsSearchFor table.now.question costs.now finished }
    requires one_each { length costs.now ≡ gap_count table.now.question.program.threads }
    ensures { IsSearchFor table.now.question costs.now result }
{
    let Ok(other) = search_by_its_runs(alloc, table, costs, &finished) else {
        return finished;
    };
    if other.nodes() < finished.nodes() {
        drop(finished);
        other
    } else {
        drop(other);
        finished
    }
}

/// A search that knows the runs of another one from the beginning, and its answer.
fn search_by_its_runs(
    alloc: Global,
    table: &SeqTable,
    costs: &Costs,
    finished: &Finished,
) -> Result<Finished, SolveFault>
    requires of_question { finished.now.question ≡ table.now.question }
    requires one_each { length costs.now ≡ gap_count table.now.question.program.threads }
    ensures { IfOk result (IsSearchFor table.now.question costs.now) }
{
    let runs = runs_of(alloc, finished)?;
    let answered = Answered {
        served: finished.served(),
    };
    search(alloc, &answered, table, costs, runs)
}

/// Copies of the runs that split nodes; of those that pass the same gaps, one.
fn runs_of(alloc: Global, finished: &Finished) -> Result<Vec<ForeignRun>, AllocError>
    ensures { IfOk result (λ runs. AreOf finished.now.question runs.items) }
{
    finished.recall_facts();
    let mut runs = Vec::new(alloc);
    for number in 0..finished.nodes() {
        if let Some(settled) = finished.settled(number) {
            add_run(alloc, &mut runs, settled.event)?;
        }
    }
    Ok(runs)
}

/// Adds a copy of the run of a split, where none of the runs passes the same gaps.
fn add_run(
    alloc: Global,
    runs: &mut Vec<ForeignRun>,
    event: SettledEvent<'_>,
) -> Result<(), AllocError>
    ensures { OnOk result ((q : Question) → IsOfQuestion q event.entry → AreOf q runs.old.items → AreOf q runs.new.items) }
{
    let SettledEvent::Split(run) = event else {
        return Ok(());
    };
    if is_one_like(runs, run) {
        return Ok(());
    }
    runs.push(run.copy(alloc)?)?;
    Ok(())
}

/// Whether one of the runs passes the same gaps.
fn is_one_like(runs: &[ForeignRun], run: &ForeignRun) -> bool {
    for other in runs {
        if other.passed().same(&run.passed()) {
            return true;
        }
    }
    false
}
