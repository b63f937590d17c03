//! Placing fences by a solver that has two runs at hand.
ghost use Rattle.std.specs.Prelude.{◌≡◌, false, IfOk, IfSome};
ghost use Rattle.oracle.specs.Verdicts.{IsVerdictOf};
ghost use Rattle.std.specs.Coded.{codes};
ghost use Rattle.tso_program.specs.contracts.shown.Names as names;
ghost use Rattle.tso_program.specs.Nodes.{tree_code};

use crate::placing::{PlacerCall, push_set, run_after_first, set_by};
use crate::refusal::PlaceRefusal;
use cover_solver::{ForeignRun, Oracle, SolveFault, Solver, Verdict};
use gap_sets::GapSet;
use hunt_calls::Inquiry;
use std::alloc::{AllocError, Global};
use std::sync::Wait;
use std::sync::atomic::{AtomicU64, Ordering};
use std::thread::Threads;
use text_calls::{passes_none, place_of_then};

/// A solver, two runs by which it answers where they pass no gap of the set, and how many questions each answered.
#[derive(Drop)]
struct TwoRuns<'a> {
    alloc: Global,
    solver: &'a Solver,
    first: ForeignRun,
    second: ForeignRun,
    by_first: AtomicU64,
    by_second: AtomicU64,
    ghost first_question: { first.question ≡ solver.now.question } by { Prim.hlevel (codes, names.the_row.coded, tree_code) },
    ghost second_question: { second.question ≡ solver.now.question } by { Prim.hlevel (codes, names.the_row.coded, tree_code) },
}

/// That the set doesn't serve, by the run, where it passes no gap of the set.
fn verdict_by(alloc: Global, run: &ForeignRun, set: &GapSet) -> Result<Option<Verdict>, AllocError>
    ensures { IfOk result (λ found. IfSome found (IsVerdictOf run.now.question set.now)) }
{
    run.recall_facts();
    if !passes_none(run, set) {
        return Ok(None);
    }
    let copy = run.copy(alloc)?;
    Ok(Some(Verdict::Foreign(copy)))
}

impl Oracle for TwoRuns<'_> {
    ghost question = { λ runs. runs.solver.now.question };

    ghost may_lack_runs = { λ runs. false };

    ghost may_be_asked = { λ runs. Unit {0} };

    fn ask(&self, set: &GapSet) -> Result<Verdict, SolveFault> {
        if let Some(verdict) = verdict_by(self.alloc, &self.first, set)? {
            self.by_first.fetch_add(1, Ordering::SeqCst);
            return Ok(verdict);
        }
        if let Some(verdict) = verdict_by(self.alloc, &self.second, set)? {
            self.by_second.fetch_add(1, Ordering::SeqCst);
            return Ok(verdict);
        }
        self.solver.ask(set)
    }
}

/// The two runs of the labels that come after the first word of each of the lists before and after `then`.
fn new_runs<'a>(inquiry: &Inquiry<'a, Solver>, words: &[&[u8]]) -> Result<TwoRuns<'a>, PlaceRefusal>
    ensures { IfOk result (λ runs. runs.solver.now.question ≡ inquiry.now.table.now.question) }
{
    let (first, second) = words.split_at(place_of_then(words)?);
    let first = run_after_first(inquiry, first)?;
    match run_after_first(inquiry, second) {
        Ok(second) => Ok(TwoRuns {
            alloc: inquiry.alloc,
            solver: inquiry.oracle,
            first,
            second,
            by_first: AtomicU64::new(0),
            by_second: AtomicU64::new(0),
        }),
        Err(refusal) => {
            drop(first);
            Err(refusal)
        }
    }
}

/// The set that a number of workers find, where the solver has these two runs at hand, and how many questions each of them
/// answered.
pub fn push_shared<R: Threads + Wait + Sync>(
    rt: &R,
    inquiry: &Inquiry<'_, Solver>,
    call: PlacerCall,
    words: &[&[u8]],
    printed: &mut String,
) -> Result<(), PlaceRefusal> {
    let runs = new_runs(inquiry, words)?;
    let set = set_by(rt, inquiry, call, &runs, words);
    let by_first = runs.by_first.load(Ordering::SeqCst);
    let by_second = runs.by_second.load(Ordering::SeqCst);
    drop(runs);
    push_set(&set?, printed)?;
    Ok(write!(printed, "first {by_first}\nsecond {by_second}\n")?)
}
