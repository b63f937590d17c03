//! Placing fences by a solver that counts what it is asked.
ghost use Rattle.std.specs.Prelude.{◌≡◌, false, IfOk};

use crate::refusal::PlaceRefusal;
use cert_forest::Certificate;
use cover_solver::{ForeignRun, Oracle, SeqTable, SolveFault, Solver, Verdict};
use fence_place::{Oracles, PlaceFault, hunt_with, place};
use gap_sets::{Costs, GapSet};
use hunt_calls::Inquiry;
use std::alloc::Global;
use std::sync::Wait;
use std::sync::atomic::{AtomicU64, Ordering};
use std::thread::Threads;
use text_calls::{byte_at, equal_costs, labels_from, number_of, push_gaps_after};

/// A solver, how many sets it was asked about, and how many of them serve.
#[derive(Drop)]
struct Counting<'a> {
    solver: &'a Solver,
    asked: AtomicU64,
    serve: AtomicU64,
}

impl Oracle for Counting<'_> {
    ghost question = { λ c. c.solver.now.question };

    ghost may_lack_runs = { λ c. false };

    ghost may_be_asked = { λ c. Unit {0} };

    fn ask(&self, set: &GapSet) -> Result<Verdict, SolveFault> {
        self.asked.fetch_add(1, Ordering::SeqCst);
        let verdict = self.solver.ask(set)?;
        if let Verdict::Serves(_) = &verdict {
            self.serve.fetch_add(1, Ordering::SeqCst);
        }
        Ok(verdict)
    }
}

/// Which call finds the set.
#[derive(Clone, Copy)]
pub enum PlacerCall {
    Place,
    Hunt,
}

/// The set that is placed.
fn placed_set<R: Threads + Wait + Sync, O: Oracle>(
    rt: &R,
    inquiry: &Inquiry<'_, Solver>,
    oracle: &O,
    costs: &Costs,
    workers: u8,
) -> Result<GapSet, PlaceFault>
    requires question { O.question oracle.now ≡ inquiry.now.table.now.question }
    requires may { O.may_be_asked oracle.now }
{
    let oracles = Oracles {
        first: oracle,
        again: inquiry.oracle,
    };
    let certificate = place(rt, inquiry.alloc, oracles, inquiry.table, costs, workers)?;
    let set = certificate.set;
    drop(certificate);
    Ok(set)
}

/// The set that one hunt finds, without another search where it does not close.
fn hunted_set<R: Threads + Wait + Sync, O: Oracle>(
    rt: &R,
    inquiry: &Inquiry<'_, Solver>,
    oracle: &O,
    costs: &Costs,
    workers: u8,
) -> Result<GapSet, PlaceFault>
    requires question { O.question oracle.now ≡ inquiry.now.table.now.question }
    requires may { O.may_be_asked oracle.now }
{
    let finished = hunt_with(rt, inquiry.alloc, oracle, inquiry.table, costs, workers)?;
    let set = finished.served().set();
    drop(finished);
    Ok(set)
}

/// The best set of gaps, each of which costs 1, as workers find it: the first word is their number.
pub fn set_by<R: Threads + Wait + Sync, O: Oracle>(
    rt: &R,
    inquiry: &Inquiry<'_, Solver>,
    call: PlacerCall,
    oracle: &O,
    words: &[&[u8]],
) -> Result<GapSet, PlaceRefusal>
    requires question { O.question oracle.now ≡ inquiry.now.table.now.question }
    requires may { O.may_be_asked oracle.now }
{
    let workers = byte_at(words, 0)?;
    let costs = equal_costs(inquiry.alloc, inquiry.table)?;
    let set = match call {
        PlacerCall::Place => placed_set(rt, inquiry, oracle, &costs, workers),
        PlacerCall::Hunt => hunted_set(rt, inquiry, oracle, &costs, workers),
    };
    drop(costs);
    Ok(set?)
}

pub fn push_set(set: &GapSet, printed: &mut String) -> Result<(), PlaceRefusal> {
    push_gaps_after("set", set, printed)?;
    Ok(printed.push('\n')?)
}

/// The run of the labels that come after the first word.
pub fn run_after_first(
    inquiry: &Inquiry<'_, Solver>,
    words: &[&[u8]],
) -> Result<ForeignRun, PlaceRefusal>
    ensures { IfOk result (λ run. run.question ≡ inquiry.now.table.now.question) }
{
    let labels = labels_from(inquiry.alloc, words, 1)?;
    let labels = labels.as_slice();
    Ok(ForeignRun::new(inquiry.alloc, inquiry.table, labels)?)
}

/// The costs that the words after the first spell, or 1 for each gap where no word comes after it.
fn costs_of(alloc: Global, table: &SeqTable, words: &[&[u8]]) -> Result<Costs, PlaceRefusal> {
    if words.len() < 2 {
        return Ok(equal_costs(alloc, table)?);
    }
    let mut list = Vec::new(alloc);
    for word in words.iter().skip(1) {
        list.push(number_of(word)?)?;
    }
    Ok(Costs::new(alloc, &list)?)
}

/// The certificate of what is placed: the first word is the number of workers, and the costs of the gaps may follow.
fn placed_by<R: Threads + Wait + Sync>(
    rt: &R,
    inquiry: &Inquiry<'_, Solver>,
    counting: &Counting<'_>,
    words: &[&[u8]],
) -> Result<Certificate, PlaceRefusal>
    requires { counting.now.solver.now.question ≡ inquiry.now.table.now.question }
{
    let workers = byte_at(words, 0)?;
    let costs = costs_of(inquiry.alloc, inquiry.table, words)?;
    let oracles = Oracles {
        first: counting,
        again: inquiry.oracle,
    };
    let placed = place(rt, inquiry.alloc, oracles, inquiry.table, &costs, workers);
    drop(costs);
    Ok(placed?)
}

/// The set that is placed and its cost, then how many sets the solver was asked about.
pub fn push_placed<R: Threads + Wait + Sync>(
    rt: &R,
    inquiry: &Inquiry<'_, Solver>,
    words: &[&[u8]],
    printed: &mut String,
) -> Result<(), PlaceRefusal> {
    let counting = Counting {
        solver: inquiry.oracle,
        asked: AtomicU64::new(0),
        serve: AtomicU64::new(0),
    };
    let certificate = placed_by(rt, inquiry, &counting, words)?;
    let (set, cost) = (certificate.set, certificate.cost);
    drop(certificate);
    let serve = counting.serve.load(Ordering::SeqCst);
    let asks = counting.asked.load(Ordering::SeqCst);
    push_set(&set, printed)?;
    Ok(write!(printed, "cost {cost}\nserve {serve}\nasks {asks}\n")?)
}

/// The set that one hunt finds: the first word is the number of workers, and the costs of the gaps may follow.
pub fn push_hunted_with<R: Threads + Wait + Sync>(
    rt: &R,
    inquiry: &Inquiry<'_, Solver>,
    words: &[&[u8]],
    printed: &mut String,
) -> Result<(), PlaceRefusal> {
    let workers = byte_at(words, 0)?;
    let costs = costs_of(inquiry.alloc, inquiry.table, words)?;
    let set = hunted_set(rt, inquiry, inquiry.oracle, &costs, workers);
    drop(costs);
    push_set(&set?, printed)
}
