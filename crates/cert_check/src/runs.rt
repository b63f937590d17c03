//! The runs of a certificate, replayed.
ghost use Rattle.std.specs.Prelude.{◌≡◌, ◌↔◌, IsTrue, IfOk, IfErr, MatchOption, All, Contains, slice_get};
ghost use Rattle.std.specs.BTreeSet.{contains};
ghost use Rattle.std.specs.Borrow.{Bor};
ghost use Rattle.tso_program.specs.declared.outcome.Outcome.{Outcome};
ghost use Rattle.tso_program.specs.Shown.{asked};
ghost use Rattle.tso_machine.specs.Modes.{unfenced};
ghost use Rattle.tso_machine.specs.Outcomes.{IsReplayOf};
ghost use Rattle.cert_check.specs.Faults.{IsFirstWithout};
ghost use Rattle.cert_check.specs.Internal.Replays.{AreReplaysOf, borrowed_cmp, IsOutside, IsNoRunAt, IsFaultFrom, RunsFaultIs};

use crate::fault::RunsFault;
use cert_forest::Runs;
use gap_sets::GapSet;
use std::alloc::{AllocError, Global};
use std::collections::BTreeSet;
use tso_machine::{Ended, Label, Model, ReplayFault, replay_shown};
use tso_program::{Outcome, Program, Shown};

/// What the replays of runs leave, by the numbers of the runs.
#[derive(Drop)]
pub(crate) struct Replays {
    /// What is shown of the outcomes.
    pub(crate) outcomes: Vec<Outcome>,
    /// The gaps that the runs pass.
    pub(crate) passed: Vec<GapSet>,
}

/// Replays runs in turn, with no gap fenced, and keeps of their outcomes what is shown.
pub(crate) fn replay_all(
    alloc: Global,
    program: &Program,
    shown: &Shown,
    model: Model,
    runs: &Runs,
) -> Result<Replays, RunsFault>
    ensures replays { IfOk result (λ replays. AreReplaysOf (asked program.now shown.now) model runs.now replays.outcomes.items replays.passed.items) }
    ensures fault { IfErr result (RunsFaultIs program.now model runs.now) }
{
    let mut outcomes = Vec::new(alloc);
    let mut passed = Vec::new(alloc);
    for run in runs {
        let end = replay_one(alloc, program, shown, model, outcomes.len(), run)?;
        outcomes.push(end.outcome)?;
        passed.push(end.passed)?;
    }
    Ok(Replays { outcomes, passed })
}

/// Replays the run of this number with no gap fenced, and keeps of its outcome what is shown.
fn replay_one(
    alloc: Global,
    program: &Program,
    shown: &Shown,
    model: Model,
    number: usize,
    labels: &[Label],
) -> Result<Ended, RunsFault>
    ensures replay { IfOk result (IsReplayOf (asked program.now shown.now) model labels.now) }
    ensures fault { IfErr result (IsNoRunAt program.now (unfenced model) labels.now number) }
{
    match replay_shown(alloc, program, shown, model, labels) {
        Ok(end) => Ok(end),
        Err(fault) => Err(runs_fault(fault, number)),
    }
}

/// The fault of the replay of this number: the labels are no run, if memory isn't wanting.
fn runs_fault(fault: ReplayFault, number: usize) -> RunsFault
    ensures { IsFaultFrom fault number result }
{
    match fault {
        ReplayFault::OutOfMemory => RunsFault::OutOfMemory,
        _ => RunsFault::NoRun(number),
    }
}

/// The gaps that the run of this number passes, from 0.
pub(crate) fn passed_by(passed: &[GapSet], number: u64) -> Option<GapSet>
    ensures { result ≡ slice_get passed.now number }
{
    passed.get(number as usize).copied()
}

/// The first of the outcomes that is in the list.
pub(crate) fn first_outcome_listed(
    alloc: Global,
    outcomes: &[Outcome],
    list: &[Outcome],
) -> Result<Option<usize>, AllocError>
    ensures { IfOk result (λ first. MatchOption first (All (IsOutside list.now) outcomes.now) (IsFirstWithout (IsOutside list.now) outcomes.now)) }
{
    let listed = in_order(alloc, list)?;
    for (number, outcome) in outcomes.iter().enumerate() {
        if listed.contains(&outcome) {
            return Ok(Some(number));
        }
    }
    Ok(None)
}

/// The outcomes of a list, to look one up.
fn in_order<'a>(alloc: Global, list: &'a [Outcome]) -> Result<BTreeSet<&'a Outcome>, AllocError>
    ensures { IfOk result (λ set. (o : Bor Outcome) → IsTrue (contains borrowed_cmp set o) ↔ Contains list.now o.now) }
{
    let mut outcomes = BTreeSet::new(alloc);
    for outcome in list {
        outcomes.insert(outcome)?;
    }
    Ok(outcomes)
}
