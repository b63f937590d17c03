//! The documents of the commands, as objects. `document_line` makes their lines.
ghost use Rattle.std.specs.Prelude.{◌≡◌, ◌∷◌, ◌++◌, ℕ, List, [], codes, IfOk, OnOk, map};
ghost use Rattle.json_text.specs.Safe.{IsSafe};
ghost use Rattle.json_text.specs.Texts.{quoted};
ghost use Rattle.json_text.specs.Values.{IsJsonLine};
ghost use Rattle.report.specs.Observations.{frequency};
ghost use Rattle.documents.specs.Documents.{document_of, format_member, list_members, outcomes_members, IsDocument, IsWhyDocument, IsPlacedDocument, IsTraceDocument, IsOutcomesDocument, IsOutcomesWithRunsDocument, IsSaidDocument, TellsHeading};

use crate::answer::{add_answer, is_observed};
use crate::fenced_model::{FencedModel, add_fenced_model};
use crate::lined::LinedLitmus;
use crate::program::add_program;
use crate::run::{Setting, run_value};
use crate::survey::FoundAnswer;
use cert_forest::Runs;
use gap_sets::{GapSet, TiedCosts};
use json_text::{JsonArray, JsonObject, JsonText};
use json_values::{Scope, outcomes_array, runs_array, saying, verb_of};
use litmus_text::{Condition, Litmus};
use report::{frequency, is_true_of};
use std::alloc::{AllocError, Global};
use tso_machine::{Ended, Model, Step};
use tso_program::{Outcome, Program, Shown};

/// The beginning of each document. The version changes where a field changes its meaning or goes away.
pub(crate) fn add_format(alloc: Global, object: &mut JsonObject) -> Result<(), AllocError>
    ensures { OnOk result (object.new ≡ object.old ++ format_member ∷ []) }
{
    let format = JsonText::string(alloc, b"fencer 1")?;
    object.add("format", format)
}

/// A document's object up to what is said of the program.
pub(crate) fn begun(
    alloc: Global,
    command: &[u8],
    source: &LinedLitmus<'_>,
) -> Result<JsonObject, AllocError>
    ensures { IfOk result (TellsHeading source.now.litmus.now command.now) }
{
    let mut object = JsonObject::new(alloc);
    add_format(alloc, &mut object)?;
    let name = JsonText::string(alloc, command)?;
    object.add("command", name)?;
    add_program(alloc, &mut object, source)?;
    Ok(object)
}

/// The text of an object, as one line.
pub(crate) fn document_of(object: JsonObject) -> Result<Vec<u8>, AllocError>
    ensures text { IfOk result (λ document. document.items ≡ document_of object) }
    ensures json { IfOk result (λ document. IsJsonLine document.items) }
    ensures safe { IfOk result (λ document. IsSafe document.items) }
{
    let text = object.into_json()?;
    let mut document = text.into_bytes();
    document.push(b'\n')?;
    Ok(document)
}

/// Adds what the condition does in a machine where it holds, or fails, in the words of its quantifier.
fn add_saying(
    alloc: Global,
    object: &mut JsonObject,
    litmus: &Litmus<Program>,
    holds: bool,
) -> Result<(), AllocError>
    ensures { (command : List ℕ) (members : List (List ℕ)) → IsDocument litmus.now command members object.old → OnOk result (IsSaidDocument litmus.now holds command members object.new) }
{
    let verb = verb_of(litmus.condition.quantifier, Scope::AllRuns, holds);
    let says = saying(alloc, litmus, verb)?;
    object.add("says", says)
}

/// The document of a placement, with the program with its fences in canonical text, in which the condition holds or fails.
pub fn placed_document(
    alloc: Global,
    source: &LinedLitmus<'_>,
    answer: &FoundAnswer<'_>,
    costs: &TiedCosts,
    fenced: &[u8],
    holds: bool,
) -> Result<JsonObject, AllocError>
    ensures { IfOk result (IsPlacedDocument source.now.litmus.now answer.now.shown.now costs.now answer.now.gaps.now fenced.now holds) }
{
    let mut object = begun(alloc, b"place", source)?;
    add_answer(alloc, &mut object, source, answer.shown, costs, answer.gaps)?;
    let text = JsonText::string(alloc, fenced)?;
    object.add("fenced", text)?;
    add_saying(alloc, &mut object, source.litmus, holds)?;
    Ok(object)
}

/// The document of why the gaps of an answer are needed, with a run for each of them.
pub fn why_document(
    alloc: Global,
    source: &LinedLitmus<'_>,
    shown: &Shown,
    costs: &TiedCosts,
    set: &GapSet,
    runs: JsonArray,
) -> Result<JsonObject, AllocError>
    ensures { IfOk result (IsWhyDocument source.now.litmus.now shown.now costs.now set.now runs) }
{
    let mut object = begun(alloc, b"why", source)?;
    add_answer(alloc, &mut object, source, shown, costs, set)?;
    let runs = runs.into_json()?;
    object.add("runs", runs)?;
    Ok(object)
}

/// The document of a run of a machine with no gap fenced, of which all is shown.
pub fn trace_document(
    alloc: Global,
    source: &LinedLitmus<'_>,
    model: Model,
    steps: &[Step],
    ended: &Ended,
) -> Result<JsonObject, AllocError>
    ensures { IfOk result (IsTraceDocument source.now.litmus.now model (map (λ step. step.label) steps.now) ended.now.outcome ended.now.passed) }
{
    let setting = Setting::Machine(model);
    let told = run_value(alloc, source.litmus, &Shown::All, setting, steps, ended)?;
    let mut object = begun(alloc, b"trace", source)?;
    object.add("run", told)?;
    Ok(object)
}

/// How often the condition's formula is met.
fn observation(
    alloc: Global,
    condition: &Condition,
    outcomes: &[Outcome],
) -> Result<JsonText, AllocError>
    ensures { IfOk result (λ json. json ≡ quoted (frequency condition.now.formula outcomes.now)) }
{
    let word = frequency(condition, outcomes);
    JsonText::string(alloc, word.as_bytes())
}

/// Adds outcomes as far as they are shown, and what they show of the condition.
fn add_list(
    alloc: Global,
    object: &mut JsonObject,
    litmus: &Litmus<Program>,
    shown: &Shown,
    outcomes: &[Outcome],
) -> Result<(), AllocError>
    ensures { OnOk result (object.new ≡ object.old ++ list_members litmus.now shown.now outcomes.now) }
{
    let condition = &litmus.condition;
    object.add("observed", JsonText::truth(alloc, is_observed(shown))?)?;
    let list = outcomes_array(alloc, &litmus.names, shown, outcomes)?;
    object.add("outcomes", list)?;
    object.add("observation", observation(alloc, condition, outcomes)?)?;
    let holds = is_true_of(condition, outcomes);
    object.add("holds", JsonText::truth(alloc, holds)?)
}

/// The list of a program's outcomes in a machine.
fn list_of_outcomes(
    alloc: Global,
    source: &LinedLitmus<'_>,
    shown: &Shown,
    machine: FencedModel,
    outcomes: &[Outcome],
) -> Result<JsonObject, AllocError>
    ensures { IfOk result (IsDocument source.now.litmus.now (codes "outcomes") (outcomes_members source.now.litmus.now shown.now machine outcomes.now)) }
{
    let mut object = begun(alloc, b"outcomes", source)?;
    add_fenced_model(alloc, &mut object, &source.litmus.program, machine)?;
    add_list(alloc, &mut object, source.litmus, shown, outcomes)?;
    Ok(object)
}

/// The document of a program's outcomes in a machine.
pub fn outcomes_document(
    alloc: Global,
    source: &LinedLitmus<'_>,
    shown: &Shown,
    machine: FencedModel,
    outcomes: &[Outcome],
) -> Result<JsonObject, AllocError>
    ensures { IfOk result (IsOutcomesDocument source.now.litmus.now shown.now machine outcomes.now) }
{
    let holds = is_true_of(&source.litmus.condition, outcomes);
    let mut object = list_of_outcomes(alloc, source, shown, machine, outcomes)?;
    add_saying(alloc, &mut object, source.litmus, holds)?;
    Ok(object)
}

/// The document of a program's outcomes in a machine, with the labels of a run of each.
pub fn outcomes_with_runs_document(
    alloc: Global,
    source: &LinedLitmus<'_>,
    shown: &Shown,
    machine: FencedModel,
    outcomes: &[Outcome],
    runs: &Runs,
) -> Result<JsonObject, AllocError>
    ensures { IfOk result (IsOutcomesWithRunsDocument source.now.litmus.now shown.now machine outcomes.now runs.now) }
{
    let holds = is_true_of(&source.litmus.condition, outcomes);
    let mut object = list_of_outcomes(alloc, source, shown, machine, outcomes)?;
    let runs = runs_array(alloc, runs)?;
    object.add("runs", runs)?;
    add_saying(alloc, &mut object, source.litmus, holds)?;
    Ok(object)
}
