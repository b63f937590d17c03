//! The run that is made of a sketch, with the outcome to which it is replayed.
ghost use Rattle.program_sketches.specs.Known.{HasNoCycle};

use crate::refusal::SolverRefusal;
use exec_axioms::Sketch;
use run_maker::{MadeRun, make_run};
use std::alloc::Global;
use text_calls::push_outcome;
use tso_machine::replay;

/// The outcome of a run that is made of a sketch, if the run is replayed to it.
fn push_made(
    alloc: Global,
    sketch: &Sketch,
    made: &MadeRun,
    printed: &mut String,
) -> Result<(), SolverRefusal> {
    let (model, gaps) = sketch.mode().model_and_gaps();
    let labels = made.labels.as_slice();
    let ended = replay(alloc, sketch.program(), &gaps, model, labels)?;
    let is_same = ended.outcome == made.outcome;
    drop(ended);
    if is_same {
        Ok(push_outcome(&made.outcome, printed)?)
    } else {
        Ok(printed.push_str("other")?)
    }
}

/// The outcome of the run that is made of a sketch.
fn push_replayed(alloc: Global, sketch: &Sketch, printed: &mut String) -> Result<(), SolverRefusal>
    requires { HasNoCycle sketch.now }
{
    let made = make_run(alloc, sketch)?;
    let pushed = push_made(alloc, sketch, &made, printed);
    drop(made);
    pushed
}

/// The outcome of the run that is made, or that the sketch has a cycle.
pub(crate) fn push_run(
    alloc: Global,
    sketch: &Sketch,
    printed: &mut String,
) -> Result<(), SolverRefusal> {
    match sketch.find_cycle()? {
        Some(_) => Ok(printed.push_str("cycle")?),
        None => push_replayed(alloc, sketch, printed),
    }
}
