//! Replay of a run.
ghost use Rattle.std.specs.Prelude.{◌≡◌, ℕ, IfOk, IfErr, IfSome, MatchResult, ◌<◌, false};
ghost use Rattle.std.specs.Option.{option_map_or};
ghost use Rattle.std.specs.FinSet as set;
ghost use Rattle.tso_program.specs.declared.outcome.Outcome.{Outcome};
ghost use Rattle.tso_program.specs.Shown.{asked};
ghost use Rattle.tso_machine.specs.declared.label.Model.TheVariants as models;
ghost use Rattle.tso_machine.specs.declared.replaying.ReplayFault.TheVariants.{OutOfMemory};
ghost use Rattle.tso_machine.specs.Machine.{IsRun};
ghost use Rattle.tso_machine.specs.Modes.{machine_of_model, unfenced, ArePassed};
ghost use Rattle.tso_machine.specs.Outcomes.{IsReplayOf};
ghost use Rattle.tso_machine.specs.Faults.{ReplayFaultIs, fault_of};
ghost use Rattle.gap_sets.specs.declared.gap_set.TheConstants.{MAX_GAPS};

use crate::label::StepFault;
use crate::state::State;
use crate::{Cause, Label, Model};
use gap_sets::GapSet;
use std::alloc::Global;
use thiserror::Error;
use tso_program::{Outcome, Program, Shown};

/// What a run leaves, and the gaps that it passes.
#[derive(Drop)]
pub struct Ended {
    pub outcome: Outcome,
    pub passed: GapSet,
}

/// Why a list of labels is no run. Steps are counted from 0.
#[derive(Clone, Copy, Debug, Error)]
pub enum ReplayFault {
    /// The step with this index, from 0, is of a thread that the program hasn't.
    #[error("step {0} is of a thread that the program lacks")]
    NoSuchThread(usize),
    /// The step with this index, from 0, executes an instruction of a thread that is at its end.
    #[error("step {0} executes an instruction of a thread that has ended")]
    AtEnd(usize),
    /// The step with this index, from 0, flushes a thread that has no waiting store.
    #[error("step {0} moves a store of a thread that has none waiting")]
    BufferEmpty(usize),
    /// The step with this index, from 0, executes an instruction that has to wait for an empty buffer.
    #[error("step {0} executes what waits until the thread's store buffer is empty")]
    FenceWaits(usize),
    /// Each of the steps, of which there are so many, is possible, but then a thread isn't at its end or
    /// has a waiting store.
    #[error("after {0} steps a thread has not ended or a store waits")]
    NotEnded(usize),
    #[error("out of memory")]
    OutOfMemory,
}

/// Replays labels on a program from its start. Where stores wait, the gaps of the set are fenced; those
/// that the program hasn't are ignored. The sequential model has no use for the set, and no store waits
/// there: the flush of a thread that the program has is refused as `BufferEmpty`. A run is refused for
/// nothing but memory.
pub fn replay(
    alloc: Global,
    program: &Program,
    fenced: &GapSet,
    model: Model,
    labels: &[Label],
) -> Result<Ended, ReplayFault>
    ensures run { IfOk result (λ ended. IsRun program.now (machine_of_model program.now fenced.now model) labels.now ended.outcome) }
    ensures passed { IfOk result (λ ended. ArePassed program.now (machine_of_model program.now fenced.now model) labels.now ended.passed) }
    ensures sequential { IfOk result (λ ended. model ≡ models.Sequential → (gap : ℕ) → set.contains ended.passed gap ≡ false) }
    ensures accepts { (outcome : Outcome) → IsRun program.now (machine_of_model program.now fenced.now model) labels.now outcome → MatchResult result (λ ended. ended.outcome ≡ outcome) (λ fault. fault ≡ OutOfMemory) }
    ensures fault { IfErr result (ReplayFaultIs program.now (machine_of_model program.now fenced.now model) labels.now) }
{
    let Ok(mut state) = State::start(alloc, program) else {
        return Err(ReplayFault::OutOfMemory);
    };
    let mut passed = GapSet::empty();
    for (n, label) in labels.iter().enumerate() {
        let gap = state.passed_gap(program, *label);
        passed = with_gap(passed, gap);
        if let Err(fault) = state.step(program, fenced, model, *label) {
            return Err(fault_at(fault, n));
        }
    }
    if state.unfinished(program).is_some() {
        return Err(ReplayFault::NotEnded(labels.len()));
    }
    match state.outcome(alloc) {
        Ok(outcome) => Ok(Ended { outcome, passed }),
        Err(_) => Err(ReplayFault::OutOfMemory),
    }
}

/// Replays labels with no gap fenced, and keeps of the outcome what is shown. A run is refused for nothing
/// but memory.
pub fn replay_shown(
    alloc: Global,
    program: &Program,
    shown: &Shown,
    model: Model,
    labels: &[Label],
) -> Result<Ended, ReplayFault>
    ensures replay { IfOk result (IsReplayOf (asked program.now shown.now) model labels.now) }
    ensures fault { IfErr result (ReplayFaultIs program.now (unfenced model) labels.now) }
{
    match replay(alloc, program, &GapSet::empty(), model, labels) {
        Ok(mut ended) => match ended.outcome.show(alloc, shown) {
            Ok(()) => Ok(ended),
            Err(_) => Err(ReplayFault::OutOfMemory),
        },
        Err(fault) => Err(fault),
    }
}

/// The fault of step n.
pub(crate) fn fault_at(fault: StepFault, n: usize) -> ReplayFault
    ensures { result ≡ fault_of fault n }
{
    match fault {
        StepFault::Refused(Cause::NoSuchThread) => ReplayFault::NoSuchThread(n),
        StepFault::Refused(Cause::AtEnd) => ReplayFault::AtEnd(n),
        StepFault::Refused(Cause::BufferEmpty) => ReplayFault::BufferEmpty(n),
        StepFault::Refused(Cause::FenceWaits) => ReplayFault::FenceWaits(n),
        StepFault::OutOfMemory => ReplayFault::OutOfMemory,
    }
}

/// The set with the gap, if there is one.
fn with_gap(gaps: GapSet, gap: Option<u8>) -> GapSet
    requires { IfSome gap (λ g. g < MAX_GAPS) }
    ensures { result ≡ option_map_or (set.insert gaps) gap gaps }
{
    match gap {
        Some(gap) => gaps.with(gap),
        None => gaps,
    }
}
