//! Runs that together execute each instruction that some sequential run executes.

ghost use Rattle.std.specs.Prelude.{◌≡◌, ◌<◌, All, IfOk, OnOk, filter, length, map};
ghost use Rattle.tso_machine.specs.Machine as machine;
ghost use Rattle.tso_machine.specs.Steps.{AreSteps};
ghost use Rattle.survey_text.specs.ExecutedRuns.{AreExecutedRuns};
ghost use Rattle.survey_text.specs.Internal.Steps.{executes, executes_at, has_place, is_among, is_of, is_shown, AddsRun, IsRunWith};
ghost use Rattle.survey_text.specs.Visits.{place_of, IsVisit};

use crate::visit::Visit;
use documents::ExecutedRun;
use gap_sets::GapSet;
use std::alloc::{AllocError, Global};
use tso_machine::{Label, Model, Step, steps};
use tso_program::{Items, Program};

/// Whether a step executes an instruction of thread t.
fn is_of(label: Label, t: u8) -> bool
    ensures { result ≡ is_of label t }
{
    match label {
        Label::Exec(thread) => thread == t,
        Label::Flush(_) => false,
    }
}

/// Whether a step executes this instruction.
fn executes_at(step: &Step, place: (u8, u8)) -> bool
    ensures { result ≡ executes_at place step.now }
{
    let (t, k) = place;
    is_of(step.label, t) && step.before.local.place == k
}

/// Whether one of the steps does.
fn executes(steps: &[Step], place: (u8, u8)) -> bool
    ensures { result ≡ executes steps.now place }
{
    steps.iter().any(|step| executes_at(step, place))
}

/// The steps of a sequential run. It has no fault, so memory alone can be wanting.
fn sequential_steps(
    alloc: Global,
    program: &Program,
    labels: &[Label],
) -> Result<Vec<Step>, AllocError>
    ensures { IfOk result (λ steps. AreSteps program.now machine.SequentialMachine (machine.start program.now) labels.now steps.items) }
{
    match steps(alloc, program, &GapSet::empty(), Model::Sequential, labels) {
        Ok(steps) => Ok(steps),
        Err(_) => Err(AllocError),
    }
}

/// An instruction's place.
fn place_of(visit: &Visit) -> (u8, u8)
    ensures { result ≡ place_of visit.now }
{
    (visit.thread, visit.instruction)
}

/// Those of the instructions that these steps execute.
fn executed_places(
    alloc: Global,
    steps: &[Step],
    visits: &[Visit],
) -> Result<Vec<(u8, u8)>, AllocError>
    ensures { IfOk result (λ places. places.items ≡ filter (executes steps.now) (map place_of visits.now)) }
{
    let mut places = Vec::new(alloc);
    for visit in visits {
        let place = place_of(visit);
        if executes(steps, place) {
            places.push(place)?;
        }
    }
    Ok(places)
}

/// A run, with those of the instructions that it executes.
fn executed_run(
    alloc: Global,
    program: &Program,
    labels: &Items<Label>,
    visits: &[Visit],
) -> Result<ExecutedRun, AllocError>
    ensures { IfOk result (IsRunWith program.now labels.now (map place_of visits.now)) }
{
    let steps = sequential_steps(alloc, program, labels.as_slice())?;
    Ok(ExecutedRun {
        labels: labels.copy(alloc)?,
        places: executed_places(alloc, &steps, visits)?,
    })
}

/// Whether an instruction is one of these.
fn is_among(places: &[(u8, u8)], place: (u8, u8)) -> bool
    ensures { result ≡ is_among places.now place }
{
    places
        .iter()
        .any(|other| place.0 == other.0 && place.1 == other.1)
}

/// Whether a run has an instruction.
fn has_place(run: &ExecutedRun, place: (u8, u8)) -> bool
    ensures { result ≡ has_place place run.now }
{
    is_among(run.places.as_slice(), place)
}

/// Whether one of the runs has an instruction.
fn is_shown(runs: &[ExecutedRun], visit: &Visit) -> bool
    ensures { result ≡ is_shown runs.now visit.now }
{
    let place = place_of(visit);
    runs.iter().any(|run| has_place(run, place))
}

/// Adds the run through an instruction, if there is one and no run so far has the instruction.
fn add_run(
    alloc: Global,
    program: &Program,
    visits: &[Visit],
    at: usize,
    runs: &mut Vec<ExecutedRun>,
) -> Result<(), AllocError>
    requires there { at < length visits.now }
    requires answers { All (IsVisit program.now) visits.now }
    ensures { OnOk result (AddsRun program.now visits.now at runs.old.items runs.new.items) }
{
    let visit = &visits[at];
    let Some(labels) = &visit.run else {
        return Ok(());
    };
    if is_shown(runs.as_slice(), visit) {
        return Ok(());
    }
    runs.push(executed_run(alloc, program, labels, visits)?)?;
    Ok(())
}

/// Runs that together execute each of the instructions that some run executes, each with all that it executes.
pub(crate) fn executed_runs(
    alloc: Global,
    program: &Program,
    visits: &[Visit],
) -> Result<Vec<ExecutedRun>, AllocError>
    requires { All (IsVisit program.now) visits.now }
    ensures { IfOk result (λ runs. AreExecutedRuns program.now visits.now runs.items) }
{
    let mut runs = Vec::new(alloc);
    for at in 0..visits.len() {
        add_run(alloc, program, visits, at, &mut runs)?;
    }
    Ok(runs)
}
