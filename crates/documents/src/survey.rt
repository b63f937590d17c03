//! The document of what is found of a program.

ghost use Rattle.std.specs.Prelude.{◌≡◌, ◌++◌, IfOk, OnOk};
ghost use Rattle.documents.specs.Parts.{answer_value};
ghost use Rattle.documents.specs.Surveys.{both_answers, executed_members, executed_run, executed_runs, found_in, holds_value, lined_place, lined_places, places_array, quoted_place, AreSayings, IsSurveyDocument};
ghost use Rattle.json_values.specs.Sayings.{verb_of, IsSaying};

use crate::answer::{add_ties, answer_value, costs_array};
use crate::document::begun;
use crate::lined::LinedLitmus;
use gap_list::TextLines;
use gap_sets::{GapSet, TiedCosts};
use json_text::{JsonArray, JsonObject, JsonText};
use json_values::{Scope, labels_array, saying, verb_of};
use litmus_text::Litmus;
use std::alloc::{AllocError, Global};
use tso_machine::Label;
use tso_program::{Items, Program, Shown};

/// A sequential run by its labels, and instructions that it executes, each by its thread and its number.
#[derive(Drop)]
pub struct ExecutedRun {
    pub labels: Items<Label>,
    pub places: Vec<(u8, u8)>,
}

/// An answer: what is shown of outcomes, and the gaps.
#[derive(Clone, Copy)]
pub struct FoundAnswer<'a> {
    pub shown: &'a Shown,
    pub gaps: &'a GapSet,
}

/// What is found of a program.
#[derive(Clone, Copy)]
pub struct Findings<'a> {
    /// The name of its file.
    pub file: &'a [u8],
    /// Whether its condition holds sequentially.
    pub sequential: bool,
    /// Whether it holds with store buffers and no fence.
    pub buffered: bool,
    /// The instructions that no sequential run executes, each by its thread and its number.
    pub unexecuted: &'a [(u8, u8)],
    /// Runs with what they execute.
    pub runs: &'a [ExecutedRun],
    /// What the gaps cost.
    pub costs: &'a TiedCosts,
    /// The answer for the condition's truth.
    pub condition: FoundAnswer<'a>,
    /// The answer for whole outcomes.
    pub whole: FoundAnswer<'a>,
}

/// Whether the condition holds in each machine.
fn holds_value(alloc: Global, sequential: bool, buffered: bool) -> Result<JsonText, AllocError>
    ensures { IfOk result (λ json. json ≡ holds_value sequential buffered) }
{
    let mut object = JsonObject::new(alloc);
    object.add("sequential", JsonText::truth(alloc, sequential)?)?;
    object.add("buffered", JsonText::truth(alloc, buffered)?)?;
    object.into_json()
}

/// An instruction by its place.
fn quoted_place(alloc: Global, place: (u8, u8)) -> Result<JsonText, AllocError>
    ensures { IfOk result (λ json. json ≡ quoted_place place) }
{
    let (thread, k) = place;
    let name = format!(in alloc; "{thread}:{k}")?;
    JsonText::string(alloc, name.as_bytes())
}

/// Instructions by their places.
fn places_array(alloc: Global, places: &[(u8, u8)]) -> Result<JsonText, AllocError>
    ensures { IfOk result (λ json. json ≡ places_array places.now) }
{
    let mut array = JsonArray::new(alloc);
    for place in places {
        array.add(quoted_place(alloc, *place)?)?;
    }
    array.into_json()
}

/// An instruction by its place, with its line.
fn lined_place(alloc: Global, lines: &TextLines, place: (u8, u8)) -> Result<JsonText, AllocError>
    ensures { IfOk result (λ json. json ≡ lined_place lines.now place) }
{
    let (thread, k) = place;
    let line = lines.line(thread, k as usize);
    let mut object = JsonObject::new(alloc);
    object.add("place", quoted_place(alloc, place)?)?;
    object.add("line", JsonText::number(alloc, u64::from(line))?)?;
    object.into_json()
}

/// Instructions by their places, with their lines.
fn lined_places(
    alloc: Global,
    lines: &TextLines,
    places: &[(u8, u8)],
) -> Result<JsonText, AllocError>
    ensures { IfOk result (λ json. json ≡ lined_places lines.now places.now) }
{
    let mut array = JsonArray::new(alloc);
    for place in places {
        array.add(lined_place(alloc, lines, *place)?)?;
    }
    array.into_json()
}

/// A run with what it executes.
fn executed_run(alloc: Global, run: &ExecutedRun) -> Result<JsonText, AllocError>
    ensures { IfOk result (λ json. json ≡ executed_run run.now) }
{
    let mut object = JsonObject::new(alloc);
    object.add("labels", labels_array(alloc, run.labels.as_slice())?)?;
    object.add("executes", places_array(alloc, &run.places)?)?;
    object.into_json()
}

/// Runs with what they execute.
fn executed_runs(alloc: Global, runs: &[ExecutedRun]) -> Result<JsonText, AllocError>
    ensures { IfOk result (λ json. json ≡ executed_runs runs.now) }
{
    let mut array = JsonArray::new(alloc);
    for run in runs {
        array.add(executed_run(alloc, run)?)?;
    }
    array.into_json()
}

/// Adds what no answer says.
fn add_executed(
    alloc: Global,
    object: &mut JsonObject,
    lines: &TextLines,
    found: &Findings<'_>,
) -> Result<(), AllocError>
    ensures { OnOk result (object.new ≡ object.old ++ executed_members lines.now (found_in found.now)) }
{
    let holds = holds_value(alloc, found.sequential, found.buffered)?;
    let unexecuted = lined_places(alloc, lines, found.unexecuted)?;
    let runs = executed_runs(alloc, found.runs)?;
    object.add("file", JsonText::string(alloc, found.file)?)?;
    object.add("holds", holds)?;
    object.add("unexecuted", unexecuted)?;
    object.add("runs", runs)
}

/// An answer.
fn found_answer(
    alloc: Global,
    program: &Program,
    costs: &TiedCosts,
    answer: &FoundAnswer<'_>,
) -> Result<JsonText, AllocError>
    ensures { IfOk result (λ json. json ≡ answer_value program.now answer.now.shown.now costs.now answer.now.gaps.now) }
{
    answer_value(alloc, program, answer.shown, costs, answer.gaps)
}

/// Adds what the gaps cost, both answers, and which gaps go together.
fn add_answers(
    alloc: Global,
    object: &mut JsonObject,
    source: &LinedLitmus<'_>,
    found: &Findings<'_>,
) -> Result<(), AllocError>
    ensures { OnOk result (object.new ≡ object.old ++ both_answers source.now.litmus.now.program source.now.lines.now (found_in found.now)) }
{
    let program = &source.litmus.program;
    let costs = found.costs;
    let gaps = costs_array(alloc, program, source.lines, costs.costs.as_slice())?;
    let some = found_answer(alloc, program, costs, &found.condition)?;
    let all = found_answer(alloc, program, costs, &found.whole)?;
    object.add("gaps", gaps)?;
    object.add("condition_answer", some)?;
    object.add("answer", all)?;
    add_ties(alloc, object, program, &costs.ties)
}

/// What the condition does in a machine where it holds, or fails.
fn saying_of_machine(
    alloc: Global,
    litmus: &Litmus<Program>,
    holds: bool,
) -> Result<JsonText, AllocError>
    ensures { IfOk result (IsSaying litmus.now.condition.quantifier (verb_of litmus.now.condition.quantifier Scope.AllRuns holds)) }
{
    let verb = verb_of(litmus.condition.quantifier, Scope::AllRuns, holds);
    saying(alloc, litmus, verb)
}

/// What the condition does in each machine.
fn sayings(
    alloc: Global,
    litmus: &Litmus<Program>,
    found: &Findings<'_>,
) -> Result<JsonText, AllocError>
    ensures { IfOk result (AreSayings litmus.now.condition.quantifier (found_in found.now)) }
{
    let sequential = saying_of_machine(alloc, litmus, found.sequential)?;
    let buffered = saying_of_machine(alloc, litmus, found.buffered)?;
    let mut object = JsonObject::new(alloc);
    object.add("sequential", sequential)?;
    object.add("buffered", buffered)?;
    object.into_json()
}

/// The document of what is found of a program.
pub fn survey_document(
    alloc: Global,
    source: &LinedLitmus<'_>,
    found: &Findings<'_>,
) -> Result<JsonObject, AllocError>
    ensures { IfOk result (IsSurveyDocument source.now.litmus.now (found_in found.now)) }
{
    let mut object = begun(alloc, b"survey", source)?;
    add_executed(alloc, &mut object, source.lines, found)?;
    add_answers(alloc, &mut object, source, found)?;
    object.add("says", sayings(alloc, source.litmus, found)?)?;
    Ok(object)
}
