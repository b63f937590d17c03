//! Placing fences by a solver that holds its second question until the third has begun, so that it takes two threads.
ghost use Rattle.std.specs.Prelude.{◌≡◌, false, IfOk};
ghost use Rattle.std.specs.Coded.{codes};
ghost use Rattle.tso_program.specs.contracts.shown.Names as names;
ghost use Rattle.tso_program.specs.Nodes.{tree_code};

use crate::placing::{PlacerCall, push_set, run_after_first, set_by};
use crate::refusal::PlaceRefusal;
use cover_solver::{ForeignRun, Oracle, SolveFault, Solver, Verdict};
use gap_sets::GapSet;
use hunt_calls::Inquiry;
use std::alloc::Global;
use std::sync::Wait;
use std::sync::atomic::{AtomicBool, AtomicU64, Ordering};
use std::thread::Threads;

/// How many times the second question looks whether the third has begun.
const MOST_LOOKS: u64 = 1_000_000_000;

/// A solver, the run by which the first question is answered, how many questions there were, whether the third of them has begun,
/// and whether the second waited for it in vain.
#[derive(Drop)]
struct Gate<'a> {
    alloc: Global,
    solver: &'a Solver,
    first: ForeignRun,
    asked: AtomicU64,
    has_third: AtomicBool,
    is_late: AtomicBool,
    ghost one_question: { first.question ≡ solver.now.question } by { Prim.hlevel (codes, names.the_row.coded, tree_code) },
}

impl Gate<'_> {
    /// Waits until the third question has begun, or for as many looks as it may take.
    fn hold(&self) {
        for _ in 0..MOST_LOOKS {
            if self.has_third.load(Ordering::SeqCst) {
                return;
            }
        }
        self.is_late.store(true, Ordering::SeqCst);
    }
}

impl Oracle for Gate<'_> {
    ghost question = { λ gate. gate.solver.now.question };

    ghost may_lack_runs = { λ gate. false };

    ghost may_be_asked = { λ gate. Unit {0} };

    fn ask(&self, set: &GapSet) -> Result<Verdict, SolveFault> {
        match self.asked.fetch_add(1, Ordering::SeqCst) {
            0 if !self.first.passed().meets(set) => {
                return Ok(Verdict::Foreign(self.first.copy(self.alloc)?));
            }
            1 => self.hold(),
            _ => self.has_third.store(true, Ordering::SeqCst),
        }
        self.solver.ask(set)
    }
}

fn new_gate<'a>(inquiry: &Inquiry<'a, Solver>, words: &[&[u8]]) -> Result<Gate<'a>, PlaceRefusal>
    ensures { IfOk result (λ gate. gate.solver.now.question ≡ inquiry.now.table.now.question) }
{
    let first = run_after_first(inquiry, words)?;
    Ok(Gate {
        alloc: inquiry.alloc,
        solver: inquiry.oracle,
        first,
        asked: AtomicU64::new(0),
        has_third: AtomicBool::new(false),
        is_late: AtomicBool::new(false),
    })
}

/// The set that a number of workers find, where the solver answers its first question by a run of these labels, and whether a
/// third question began while the second was held.
pub fn push_gated<R: Threads + Wait + Sync>(
    rt: &R,
    inquiry: &Inquiry<'_, Solver>,
    call: PlacerCall,
    words: &[&[u8]],
    printed: &mut String,
) -> Result<(), PlaceRefusal> {
    let gate = new_gate(inquiry, words)?;
    let set = set_by(rt, inquiry, call, &gate, words);
    let has_third = gate.has_third.load(Ordering::SeqCst);
    let is_late = gate.is_late.load(Ordering::SeqCst);
    drop(gate);
    push_set(&set?, printed)?;
    Ok(write!(printed, "third {has_third}\nlate {is_late}\n")?)
}
