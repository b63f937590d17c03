//! A run of the program of a text of which the condition's formula has some truth.

ghost use Rattle.std.specs.Prelude.{◌≡◌, IfErr, IfOk, map};
ghost use Rattle.std.specs.FinSet as set;
ghost use Rattle.tso_program.specs.declared.shown.Shown.TheVariants.{All};
ghost use Rattle.tso_machine.specs.declared.label.Model.TheVariants as models;
ghost use Rattle.tso_machine.specs.Machine.{IsRun, start};
ghost use Rattle.tso_machine.specs.Modes.{machine_of_model, ArePassed};
ghost use Rattle.tso_machine.specs.Steps.{AreSteps};
ghost use Rattle.litmus_text.specs.Texts.{IsLitmus};
ghost use Rattle.cover_solver.specs.Witnesses.{HasNoWitness, IsWitness};
ghost use Rattle.documents.specs.declared.run.Setting.TheVariants.{Machine};
ghost use Rattle.documents.specs.Runs.{TellsRun};
ghost use Rattle.witness_text.specs.Internal.Replays.{IsReplayed};
ghost use Rattle.witness_text.specs.WitnessTexts.{machine_of, HasNoWitnessText, IsShownRunText, IsWitnessText, TellsSought};

use crate::early_flushes::with_early_flushes;
use crate::fault::WitnessFault;
use crate::gaps::gaps_at;
use crate::lines::{none_line, run_lines};
use crate::serial_runs::serial_run;
use cover_solver::{SolveFault, witness};
use documents::{
    LinedLitmus, Scope, Setting, Sought, condition_sentence, run_value, verb_of, witness_document,
};
use gap_list::TextLines;
use gap_sets::GapSet;
use json_text::{JsonObject, JsonText};
use litmus_text::{Litmus, read_litmus};
use run_views::{RunGraph, run_table};
use std::alloc::{AllocError, Global};
use tso_machine::{Ended, Label, Mode, Model, Step, replay, steps};
use tso_program::{Program, Shown};

/// What is said of a run of which the condition's formula has some truth, or that there is none.
#[derive(Drop)]
pub struct WitnessText {
    /// Whether it is said of a run.
    pub found: bool,
    /// What is printed.
    pub lines: Vec<u8>,
    /// The candidate execution of the run, as a graph in Graphviz's language.
    pub graph: Vec<u8>,
    /// What is printed with `--json`.
    pub document: JsonObject,
    /// What is found, in the words of the condition's quantifier, for people. No clause speaks of it.
    pub says: Vec<u8>,
}

/// The steps of a run, and how it ends.
#[derive(Drop)]
struct Replay {
    steps: Vec<Step>,
    ended: Ended,
}

/// What is said of a run.
#[derive(Drop)]
struct RunText {
    lines: Vec<u8>,
    graph: Vec<u8>,
    run: JsonText,
}

/// What is said of the steps of a run that ends so.
fn told(
    alloc: Global,
    litmus: &Litmus<Program>,
    model: Model,
    labels: &[Label],
    steps: &[Step],
    ended: &Ended,
) -> Result<RunText, AllocError>
    requires steps { AreSteps litmus.now.program (machine_of_model litmus.now.program set.empty model) (start litmus.now.program) labels.now steps.now }
    ensures printed { IfOk result (λ told. IsShownRunText litmus.now (machine_of_model litmus.now.program set.empty model) labels.now ended.now.outcome ended.now.passed told.lines.items) }
    ensures document { IfOk result (λ told. TellsRun litmus.now All (Machine model) (map (λ step. step.label) steps.now) ended.now.outcome ended.now.passed told.run) }
{
    let table = run_table(alloc, litmus, steps)?;
    let lines = run_lines(alloc, litmus, labels, &table, ended)?;
    let mut graph = RunGraph::new(alloc)?;
    graph.push_run(alloc, litmus, litmus.name.as_slice(), steps, None)?;
    let graph = graph.into_text()?;
    let run = run_value(
        alloc,
        litmus,
        &Shown::All,
        Setting::Machine(model),
        steps,
        ended,
    )?;
    Ok(RunText { lines, graph, run })
}

/// The steps of a run, with no gap fenced, and how it ends.
fn replay_of(
    alloc: Global,
    program: &Program,
    model: Model,
    labels: &[Label],
) -> Result<Replay, AllocError>
    ensures steps { IfOk result (λ replay. AreSteps program.now (machine_of_model program.now set.empty model) (start program.now) labels.now replay.steps.items) }
    ensures labels { IfOk result (λ replay. map (λ step. step.label) replay.steps.items ≡ labels.now) }
    ensures ended { IfOk result (λ replay. IsReplayed program.now model labels.now replay.ended) }
{
    let none = GapSet::empty();
    match replay(alloc, program, &none, model, labels) {
        Ok(ended) => match steps(alloc, program, &none, model, labels) {
            Ok(steps) => Ok(Replay { steps, ended }),
            Err(_) => Err(AllocError),
        },
        Err(_) => Err(AllocError),
    }
}

/// A run that is sought.
fn found_text(
    alloc: Global,
    litmus: &Litmus<Program>,
    stand: &TextLines,
    sought: Sought,
    labels: &[Label],
) -> Result<WitnessText, AllocError>
    requires run { IsWitness litmus.now.program (machine_of litmus.now.program sought) litmus.now.condition.formula sought.meets labels.now }
    ensures { IfOk result (λ text. TellsSought litmus.now sought text.found text.lines.items text.document) }
{
    let verb = verb_of(litmus.condition.quantifier, Scope::ThisRun, sought.meets);
    let says = condition_sentence(alloc, litmus, verb)?;
    let replay = replay_of(alloc, &litmus.program, sought.model, labels)?;
    let Replay { steps, ended } = replay;
    let told = told(alloc, litmus, sought.model, labels, &steps, &ended)?;
    let RunText { lines, graph, run } = told;
    let source = LinedLitmus {
        litmus,
        lines: stand,
    };
    let document = witness_document(alloc, &source, sought, Some(run))?;
    Ok(WitnessText {
        found: true,
        lines,
        graph,
        document,
        says,
    })
}

/// That there is no run.
fn none_text(
    alloc: Global,
    litmus: &Litmus<Program>,
    stand: &TextLines,
    sought: Sought,
) -> Result<WitnessText, AllocError>
    requires none { HasNoWitness litmus.now.program (machine_of litmus.now.program sought) litmus.now.condition.formula sought.meets }
    ensures { IfOk result (λ text. TellsSought litmus.now sought text.found text.lines.items text.document) }
{
    let verb = verb_of(litmus.condition.quantifier, Scope::NoRun, sought.meets);
    let says = condition_sentence(alloc, litmus, verb)?;
    let lines = Vec::from_slice(alloc, none_line(sought.meets))?;
    let graph = RunGraph::new(alloc)?.into_text()?;
    let source = LinedLitmus {
        litmus,
        lines: stand,
    };
    let document = witness_document(alloc, &source, sought, None)?;
    Ok(WitnessText {
        found: false,
        lines,
        graph,
        document,
        says,
    })
}

/// A run that is sought, or that there is none.
fn sought_text(
    alloc: Global,
    litmus: &Litmus<Program>,
    stand: &TextLines,
    sought: Sought,
) -> Result<WitnessText, SolveFault>
    ensures { IfOk result (λ text. TellsSought litmus.now sought text.found text.lines.items text.document) }
{
    if let Some(run) = serial_run(alloc, litmus, &sought)? {
        return Ok(found_text(alloc, litmus, stand, sought, &run)?);
    }
    let mode = Mode::new(sought.model, sought.fences);
    let formula = &litmus.condition.formula;
    let found = witness(alloc, &litmus.program, mode, formula, sought.meets)?;
    match found {
        Some(labels) => {
            let run = with_early_flushes(alloc, litmus, &sought, labels)?;
            Ok(found_text(alloc, litmus, stand, sought, &run)?)
        }
        None => Ok(none_text(alloc, litmus, stand, sought)?),
    }
}

/// The text of [`witness_text`] for the program of a text, with the gaps at these places fenced.
fn text_for(
    alloc: Global,
    text: &[u8],
    litmus: &Litmus<Program>,
    model: Model,
    meets: bool,
    places: &[(u8, u8)],
) -> Result<WitnessText, WitnessFault>
    requires { IsLitmus text.now litmus.now }
    ensures told { IfOk result (λ said. IsWitnessText text.now model meets places.now said.found said.lines.items said.document) }
    ensures fault { IfErr result (HasNoWitnessText text.now places.now) }
{
    let stand = TextLines::of_text(alloc, text)?;
    let fences = match gaps_at(&litmus.program, places) {
        Ok(fences) => fences,
        Err((thread, instruction)) => return Err(WitnessFault::NoSuchGap(thread, instruction)),
    };
    let sought = Sought {
        model,
        fences,
        meets,
    };
    Ok(sought_text(alloc, litmus, &stand, sought)?)
}

/// A run of the program of a litmus text, with the gaps at these places fenced, whose outcome meets the condition's
/// formula, or does not; or that no run of the machine is such. The labels are those of the program as the text has it.
/// The text is judged before the places.
pub fn witness_text(
    alloc: Global,
    litmus: &[u8],
    model: Model,
    meets: bool,
    places: &[(u8, u8)],
) -> Result<WitnessText, WitnessFault>
    ensures told { IfOk result (λ text. IsWitnessText litmus.now model meets places.now text.found text.lines.items text.document) }
    ensures fault { IfErr result (HasNoWitnessText litmus.now places.now) }
{
    let source = read_litmus(alloc, litmus)?;
    text_for(alloc, litmus, &source, model, meets, places)
}
