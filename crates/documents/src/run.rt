//! Runs.
ghost use Rattle.std.specs.Prelude.{◌≡◌, ◌++◌, ◌∷◌, [], IfOk, OnOk, map};
ghost use Rattle.tso_program.specs.declared.listing.Listing.{Listing};
ghost use Rattle.tso_program.specs.Truth.{truth};
ghost use Rattle.documents.specs.Runs.{ended_members, model_name, setting_member, TellsRun};
ghost use Rattle.json_values.specs.Sayings.{verb_of, IsSaying};

use crate::execution::execution_value;
use crate::step::steps_array;
use json_text::{JsonObject, JsonText};
use json_values::{Scope, gap_name, gap_names, outcome_array, saying, verb_of};
use litmus_text::{Litmus, holds};
use std::alloc::{AllocError, Global};
use tso_machine::{Ended, Model, Step};
use tso_program::{Outcome, Program, Shown};

/// Which run it is.
#[derive(Clone, Copy)]
pub enum Setting {
    /// The run for which this gap of an answer is needed.
    Without(u8),
    /// A run of this machine.
    Machine(Model),
}

impl Setting {
    /// The gap over which the run's cycle leads, where one is meant.
    fn gap(self) -> Option<u8> {
        match self {
            Setting::Without(gap) => Some(gap),
            Setting::Machine(_) => None,
        }
    }
}

/// The name of a machine.
pub(crate) fn model_name(model: Model) -> &'static str
    ensures { result.now ≡ model_name model }
{
    match model {
        Model::Sequential => "sequential",
        Model::Buffered => "buffered",
    }
}

/// Adds a machine.
pub(crate) fn add_model(
    alloc: Global,
    object: &mut JsonObject,
    model: Model,
) -> Result<(), AllocError>
    ensures { (program : Listing) → OnOk result (object.new ≡ object.old ++ setting_member program (Setting.Machine model) ∷ []) }
{
    let name = JsonText::string(alloc, model_name(model).as_bytes())?;
    object.add("model", name)
}

/// Adds which run it is.
fn add_setting(
    alloc: Global,
    object: &mut JsonObject,
    program: &Program,
    setting: Setting,
) -> Result<(), AllocError>
    ensures { OnOk result (object.new ≡ object.old ++ setting_member program.now setting ∷ []) }
{
    match setting {
        Setting::Without(gap) => object.add("without", gap_name(alloc, program, gap)?),
        Setting::Machine(model) => add_model(alloc, object, model),
    }
}

/// Adds what a run leaves as far as it is shown, whether that meets the condition's formula, and the gaps that the run
/// passes.
fn add_ended(
    alloc: Global,
    object: &mut JsonObject,
    litmus: &Litmus<Program>,
    shown: &Shown,
    ended: &Ended,
) -> Result<(), AllocError>
    ensures { OnOk result (object.new ≡ object.old ++ ended_members litmus.now shown.now ended.now.outcome ended.now.passed) }
{
    let outcome = &ended.outcome;
    let meets = holds(&litmus.condition, outcome);
    object.add(
        "outcome",
        outcome_array(alloc, &litmus.names, shown, outcome)?,
    )?;
    object.add("meets_condition", JsonText::truth(alloc, meets)?)?;
    object.add("passed", gap_names(alloc, &litmus.program, &ended.passed)?)
}

/// What a run is in the words of the condition's quantifier.
fn saying_of_run(
    alloc: Global,
    litmus: &Litmus<Program>,
    outcome: &Outcome,
) -> Result<JsonText, AllocError>
    ensures { IfOk result (IsSaying litmus.now.condition.quantifier (verb_of litmus.now.condition.quantifier Scope.ThisRun (truth outcome.now litmus.now.condition.formula))) }
{
    let is_met = holds(&litmus.condition, outcome);
    let verb = verb_of(litmus.condition.quantifier, Scope::ThisRun, is_met);
    saying(alloc, litmus, verb)
}

/// What is said of a run of a litmus text's program: its steps, what it leaves as far as it is shown, whether that meets
/// the condition's formula, the gaps that it passes, its candidate execution, and what it is in the words of the quantifier.
pub fn run_value(
    alloc: Global,
    litmus: &Litmus<Program>,
    shown: &Shown,
    setting: Setting,
    steps: &[Step],
    ended: &Ended,
) -> Result<JsonText, AllocError>
    ensures { IfOk result (TellsRun litmus.now shown.now setting (map (λ step. step.label) steps.now) ended.now.outcome ended.now.passed) }
{
    let mut object = JsonObject::new(alloc);
    add_setting(alloc, &mut object, &litmus.program, setting)?;
    object.add("steps", steps_array(alloc, litmus, steps)?)?;
    add_ended(alloc, &mut object, litmus, shown, ended)?;
    let execution = execution_value(alloc, litmus, steps, setting.gap())?;
    object.add("execution", execution)?;
    object.add("says", saying_of_run(alloc, litmus, &ended.outcome)?)?;
    object.into_json()
}
