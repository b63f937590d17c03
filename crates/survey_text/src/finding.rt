//! From a litmus text to the text of what is found of its program.

ghost use Rattle.std.specs.Prelude.{◌≡◌, ℕ, List, Option, option_map, IfErr, IfOk};
ghost use Rattle.std.specs.FinSet as set;
ghost use Rattle.tso_program.specs.declared.shown.ShownKind.TheVariants as kinds;
ghost use Rattle.tso_machine.specs.declared.label.Model.TheVariants as models;
ghost use Rattle.tso_machine.specs.Modes.{machine_of_model};
ghost use Rattle.placed_text.specs.PlacedTexts.{IsAnswerText};
ghost use Rattle.placed_text.specs.TextFaults.{HasNoPlacedText};
ghost use Rattle.survey_text.specs.ExecutedRuns.{AreExecutedRuns};
ghost use Rattle.survey_text.specs.Surveys.{fails, IsSurvey, IsSurveyText};
ghost use Rattle.survey_text.specs.Verdicts.{HoldsIn};
ghost use Rattle.survey_text.specs.Visits.{instruction_places, AreVisits};

use crate::document::document_of;
use crate::execution::executed_runs;
use crate::lines::{survey_lines, survey_row};
use crate::stretch::{Unexecuted, unexecuted_of};
use crate::survey::Survey;
use crate::verdict::holds_in;
use crate::visit::{Visit, unexecuted, visits_of};
use documents::{ExecutedRun, Note};
use gap_list::TextLines;
use json_text::JsonObject;
use litmus_text::Litmus;
use placed_text::{AnswerText, TextFault, answer_text, read_gap_costs, read_program};
use search_effort::{Effort, SearchWatch, SolveFault};
use std::alloc::{AllocError, Global};
use std::sync::Wait;
use std::thread::Threads;
use tso_machine::Model;
use tso_program::{Program, ShownKind};

/// The text of what is found of a program.
#[derive(Drop)]
pub struct SurveyText {
    pub lines: Vec<u8>,
    /// The finding in a few words, for a table.
    pub row: Vec<u8>,
    /// The finding as JSON, with runs that execute the other instructions.
    pub document: JsonObject,
    /// Whether the condition fails sequentially.
    pub fails: bool,
    /// Whether no sequential run executes some instruction.
    pub has_unexecuted: bool,
    /// Which these are, for people. No clause speaks of it.
    pub unexecuted: Unexecuted,
    /// The note that a sequential run decides the condition, where one does.
    pub verdict: Option<Note>,
}

/// Whether the condition holds sequentially, and with store buffers and no fence. That runs are sought is reported by time.
fn both_verdicts<T: Threads>(
    rt: &T,
    alloc: Global,
    effort: Effort,
    litmus: &Litmus<Program>,
) -> Result<(bool, bool), SolveFault>
    ensures sequential { IfOk result (λ both. HoldsIn litmus.now.program (machine_of_model litmus.now.program set.empty models.Sequential) litmus.now.condition both.0) }
    ensures buffered { IfOk result (λ both. HoldsIn litmus.now.program (machine_of_model litmus.now.program set.empty models.Buffered) litmus.now.condition both.1) }
{
    let _watch = SearchWatch::new(rt, alloc, effort.progress);
    let sequential = holds_in(alloc, litmus, Model::Sequential)?;
    let buffered = holds_in(alloc, litmus, Model::Buffered)?;
    Ok((sequential, buffered))
}

/// Each instruction of a program, and runs that together execute those which some sequential run executes. That states are gone
/// through is reported by time.
fn visits_and_runs<T: Threads>(
    rt: &T,
    alloc: Global,
    effort: Effort,
    program: &Program,
) -> Result<(Vec<Visit>, Vec<ExecutedRun>), AllocError>
    ensures visits { IfOk result (λ both. AreVisits program.now (instruction_places program.now.threads) both.0.items) }
    ensures runs { IfOk result (λ both. AreExecutedRuns program.now both.0.items both.1.items) }
{
    let watch = SearchWatch::new(rt, alloc, effort.progress);
    watch.walk();
    let visits = visits_of(alloc, program)?;
    let runs = executed_runs(alloc, program, &visits)?;
    Ok((visits, runs))
}

/// The answers for the condition's truth and for whole outcomes.
fn both_answers<T: Threads + Wait + Sync>(
    rt: &T,
    alloc: Global,
    text: &[u8],
    costs: Option<&[u8]>,
    effort: Effort,
) -> Result<(AnswerText, AnswerText), TextFault>
    ensures condition { IfOk result (λ both. IsAnswerText text.now (option_map (λ text. text.now) costs.entry) kinds.Condition both.0) }
    ensures whole { IfOk result (λ both. IsAnswerText text.now (option_map (λ text. text.now) costs.entry) kinds.Whole both.1) }
    ensures fault { IfErr result (HasNoPlacedText text.now (option_map (λ text. text.now) costs.entry) effort.workers) }
{
    let condition = answer_text(rt, alloc, text, costs, ShownKind::Condition, effort)?;
    let whole = answer_text(rt, alloc, text, costs, ShownKind::Whole, effort)?;
    Ok((condition, whole))
}

/// What is found of the program of a text, whose gaps cost what a text of costs says, and 1 each without one.
fn survey_of<T: Threads + Wait + Sync>(
    rt: &T,
    alloc: Global,
    text: &[u8],
    costs: Option<&[u8]>,
    effort: Effort,
) -> Result<Survey, TextFault>
    ensures told { IfOk result (IsSurvey text.now (option_map (λ text. text.now) costs.entry)) }
    ensures fault { IfErr result (HasNoPlacedText text.now (option_map (λ text. text.now) costs.entry) effort.workers) }
{
    let litmus = read_program(alloc, text)?;
    let program = &litmus.program;
    let tied = read_gap_costs(alloc, costs, program)?;
    let (sequential, buffered) = both_verdicts(rt, alloc, effort, &litmus)?;
    let (visits, runs) = visits_and_runs(rt, alloc, effort, program)?;
    let (condition, whole) = both_answers(rt, alloc, text, costs, effort)?;
    Ok(Survey {
        litmus,
        sequential,
        buffered,
        visits,
        runs,
        costs: tied,
        condition,
        whole,
    })
}

/// Whether the condition fails sequentially.
fn fails(survey: &Survey) -> bool
    ensures { result ≡ fails survey.now }
{
    !survey.sequential
}

/// The note that a sequential run decides the condition, where one does.
fn verdict_of(survey: Survey) -> Option<Note>
    ensures { result ≡ survey.whole.verdict }
{
    let Survey { whole, .. } = survey;
    let AnswerText { verdict, .. } = whole;
    verdict
}

/// The text of what is found, without the verdict.
fn told(alloc: Global, name: &str, text: &[u8], survey: &Survey) -> Result<SurveyText, AllocError>
    ensures { (costs : Option (List ℕ)) → IsSurvey text.now costs survey.now → IfOk result (λ told. IsSurveyText name.now text.now costs (record told { verdict = survey.now.whole.verdict })) }
{
    let lines = TextLines::of_text(alloc, text)?;
    Ok(SurveyText {
        lines: survey_lines(alloc, &lines, survey)?,
        row: survey_row(alloc, survey)?,
        document: document_of(alloc, name, &lines, survey)?,
        fails: fails(survey),
        has_unexecuted: unexecuted(&survey.visits) > 0,
        unexecuted: unexecuted_of(alloc, &lines, survey)?,
        verdict: None,
    })
}

/// What one look at the program of a litmus text finds: whether the condition holds sequentially, and with store buffers
/// and no fence; which instructions no sequential run executes; and the answer for the condition and for whole outcomes,
/// where each gap costs what a text of costs says, and 1 without one. The document says it of a file of this name.
///
/// The litmus text is judged first, then the costs, then the number of workers. With `rt` workers start threads and wait
/// for one another.
pub fn survey_text<T: Threads + Wait + Sync>(
    rt: &T,
    alloc: Global,
    name: &str,
    text: &[u8],
    costs: Option<&[u8]>,
    effort: Effort,
) -> Result<SurveyText, TextFault>
    ensures told { IfOk result (IsSurveyText name.now text.now (option_map (λ text. text.now) costs.entry)) }
    ensures fault { IfErr result (HasNoPlacedText text.now (option_map (λ text. text.now) costs.entry) effort.workers) }
{
    let survey = survey_of(rt, alloc, text, costs, effort)?;
    let told = told(alloc, name, text, &survey);
    let verdict = verdict_of(survey);
    let mut told = told?;
    told.verdict = verdict;
    Ok(told)
}
