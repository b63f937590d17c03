//! The steps of a run, one by one.
ghost use Rattle.std.specs.Prelude.{◌≡◌, IfOk, IfErr, OnOk};
ghost use Rattle.tso_machine.specs.Machine as machine;
ghost use Rattle.tso_machine.specs.Modes.{machine_of_model};
ghost use Rattle.tso_machine.specs.Faults.{thread_of, ReplayFaultIs, StepFaultIs};
ghost use Rattle.tso_machine.specs.Steps.{AreSteps, IsStepBetween};
ghost use Rattle.tso_machine.specs.Internal.Cores.{state_of, FitsProgram};
ghost use Rattle.tso_machine.specs.declared.label.Model.TheVariants as models;
ghost use Rattle.std.specs.Prelude.{[], ℕ};

use crate::label::StepFault;
use crate::replaying::fault_at;
use crate::state::State;
use crate::{Label, Model, Pending, ReplayFault};
use gap_sets::GapSet;
use std::alloc::Global;
use tso_program::{Items, Local, Program};

/// A thread within a run: its own state, and its stores that wait, the oldest first.
#[derive(Drop)]
pub struct ThreadState {
    pub local: Local,
    pub waiting: Items<Pending>,
}

/// A step of a run, with its thread before it and after it.
#[derive(Drop)]
pub struct Step {
    pub label: Label,
    pub before: ThreadState,
    pub after: ThreadState,
}

/// Makes one step, where it is possible.
fn make_step(
    alloc: Global,
    program: &Program,
    fenced: &GapSet,
    model: Model,
    state: &mut State,
    label: Label,
) -> Result<Step, StepFault>
    requires fits { FitsProgram program.now state.old }
    requires direct { model ≡ models.Sequential → (t : ℕ) → (state_of state.old).buffers t ≡ [] }
    ensures made { OnOk result (machine.step program.now (machine_of_model program.now fenced.now model) (state_of state.old) label ≡ Some (state_of state.new)) }
    ensures step { IfOk result (IsStepBetween (state_of state.old) (state_of state.new) label) }
    ensures err { IfErr result (StepFaultIs program.now (machine_of_model program.now fenced.now model) (state_of state.old) label) }
    ensures fits { OnOk result (FitsProgram program.now state.new) }
{
    let before = match state.thread(alloc, program, label) {
        Ok(before) => before,
        Err(fault) => return Err(fault),
    };
    if let Err(fault) = state.step(program, fenced, model, label) {
        return Err(fault);
    }
    match state.thread(alloc, program, label) {
        Ok(after) => Ok(Step {
            label,
            before,
            after,
        }),
        Err(fault) => Err(fault),
    }
}

/// The steps that labels make from a program's start. Which gaps count, and what is refused as the first step that isn't
/// possible, is as in [`replay`](crate::replay); the steps need not end the run.
pub fn steps(
    alloc: Global,
    program: &Program,
    fenced: &GapSet,
    model: Model,
    labels: &[Label],
) -> Result<Vec<Step>, ReplayFault>
    ensures steps { IfOk result (λ steps. AreSteps program.now (machine_of_model program.now fenced.now model) (machine.start program.now) labels.now steps.items) }
    ensures fault { IfErr result (ReplayFaultIs program.now (machine_of_model program.now fenced.now model) labels.now) }
{
    let Ok(mut state) = State::start(alloc, program) else {
        return Err(ReplayFault::OutOfMemory);
    };
    let mut steps = Vec::new(alloc);
    for (n, label) in labels.iter().enumerate() {
        match make_step(alloc, program, fenced, model, &mut state, *label) {
            Ok(step) => match steps.push(step) {
                Ok(()) => {}
                Err(_) => return Err(ReplayFault::OutOfMemory),
            },
            Err(fault) => return Err(fault_at(fault, n)),
        }
    }
    Ok(steps)
}
