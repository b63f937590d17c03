//! Placing fences by a solver that has no answer to some of its questions.
ghost use Rattle.std.specs.Prelude.{◌≡◌, true};

use crate::placing::{PlacerCall, push_set, set_by};
use crate::refusal::PlaceRefusal;
use cover_solver::{Oracle, SolveFault, Solver, Verdict};
use gap_sets::GapSet;
use hunt_calls::Inquiry;
use std::alloc::Global;
use std::sync::Wait;
use std::sync::atomic::{AtomicUsize, Ordering};
use std::thread::Threads;
use text_calls::named;

/// What becomes of a question, by its name.
const ANSWERS: [(&[u8], Option<SolveFault>); 3] = [
    (b"solve", None),
    (b"run", Some(SolveFault::NoRun)),
    (b"memory", Some(SolveFault::OutOfMemory)),
];

/// A solver, what becomes of its first questions, and how many questions there were.
#[derive(Drop)]
struct Lacking<'a> {
    solver: &'a Solver,
    faults: Vec<Option<SolveFault>>,
    asked: AtomicUsize,
}

impl Oracle for Lacking<'_> {
    ghost question = { λ lacking. lacking.solver.now.question };

    ghost may_lack_runs = { λ lacking. true };

    ghost may_be_asked = { λ lacking. Unit {0} };

    fn ask(&self, set: &GapSet) -> Result<Verdict, SolveFault> {
        let number = self.asked.fetch_add(1, Ordering::SeqCst);
        match self.faults.get(number) {
            Some(Some(fault)) => Err(*fault),
            _ => self.solver.ask(set),
        }
    }
}

/// The answers that the words after the first name.
fn faults_of(alloc: Global, words: &[&[u8]]) -> Result<Vec<Option<SolveFault>>, PlaceRefusal> {
    let mut faults = Vec::new(alloc);
    for word in words.iter().skip(1) {
        faults.push(named(&ANSWERS, word)?)?;
    }
    Ok(faults)
}

/// The set that a number of workers find, where the solver has no answer to some of its first questions.
pub fn push_lacking<R: Threads + Wait + Sync>(
    rt: &R,
    inquiry: &Inquiry<'_, Solver>,
    call: PlacerCall,
    words: &[&[u8]],
    printed: &mut String,
) -> Result<(), PlaceRefusal> {
    let lacking = Lacking {
        solver: inquiry.oracle,
        faults: faults_of(inquiry.alloc, words)?,
        asked: AtomicUsize::new(0),
    };
    let set = set_by(rt, inquiry, call, &lacking, words);
    drop(lacking);
    push_set(&set?, printed)
}
