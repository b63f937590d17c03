//! Outcomes: the lines of a program's list, or why there is no list.

ghost use Rattle.std.specs.Prelude.{◌≡◌, ◌↔◌, ◌++◌, ℕ, List, true, IfOk, IfErr, OnOk, Contains, string_bytes};
ghost use Rattle.tso_program.specs.Shown.{asked as question};
ghost use Rattle.tso_program.specs.declared.outcome.Outcome.{Outcome};
ghost use Rattle.tso_machine.specs.Modes.{machine_of_mode};
ghost use Rattle.tso_machine.specs.Outcomes.{AllowsShown};
ghost use Rattle.tree_laws.specs.Ascending.{Ascend};
ghost use Rattle.program_streams.specs.Streams.{Prints};
ghost use Rattle.program_streams.specs.Files.{ReadsOfInput};
ghost use Rattle.litmus_text.specs.Shown.{shown_as};
ghost use Rattle.litmus_text.specs.Texts.{IsLitmus};
ghost use Rattle.report.specs.Answers.{outcome_line};
ghost use Rattle.report.specs.Observations.{observation_line, condition_line};
ghost use Rattle.oracle.specs.declared.fault.SolveFault.TheVariants as solve;
ghost use Rattle.cover_solver.specs.OutcomeLists.{AreRunsOf};
ghost use Rattle.outcome_answers.specs.Outcomes.{listed_kind, list_text as lines_of_list, list_status, run_line_at, IsListDocument, ListsOutcomes, ListsRuns, PrintsOutcomes, HasNoList, AreOutcomes, TellsOutcomes};

use answers::{
    AnswerFault, AskedText, NotedText, Reply, SlipPlaces, check_status, noted_line, print_answer,
    tell_refusal, tell_slip, unread_advice, unread_litmus,
};
use cert_forest::Runs;
use documents::{FencedModel, LinedLitmus, outcomes_document, outcomes_with_runs_document};
use fencer_words::OutcomeQuery;
use gap_list::TextLines;
use gap_sets::GapSet;
use json_text::JsonObject;
use litmus_text::{Condition, Litmus, NameTable, read_litmus};
use messages::file_or_input;
use oracle::SolveFault;
use program_streams::{Console, FileStore, Progress, TEXT_LIMIT, file_line, named_bytes};
use report::{condition_line, is_true_of, labels_line, observation_line, outcome_line};
use search_effort::{Effort, OutcomeList, outcomes_by, warn_of_minutes};
use std::alloc::{AllocError, Global};
use std::io::Read;
use std::thread::Threads;
use tso_machine::Mode;
use tso_program::{Outcome, Program, Shown};
use witness_text::gaps_at;

/// The line of the run of this number, if there is one.
fn push_run(
    alloc: Global,
    lines: &mut Vec<u8>,
    runs: &Runs,
    number: usize,
) -> Result<(), AllocError>
    ensures { OnOk result (lines.new.items ≡ lines.old.items ++ run_line_at runs.now number) }
{
    if let Some(labels) = runs.get(number) {
        lines.extend_from_slice(&labels_line(alloc, labels)?)?;
    }
    Ok(())
}

/// The line of an outcome, as far as it is shown.
fn push_outcome(
    alloc: Global,
    lines: &mut Vec<u8>,
    names: &NameTable,
    shown: &Shown,
    outcome: &Outcome,
) -> Result<(), AllocError>
    ensures { OnOk result (lines.new.items ≡ lines.old.items ++ outcome_line names.now shown.now outcome.now) }
{
    lines.extend_from_slice(&outcome_line(alloc, names, shown, outcome)?)?;
    Ok(())
}

/// The lines of what outcomes show of a condition.
fn push_observation(
    alloc: Global,
    lines: &mut Vec<u8>,
    condition: &Condition,
    outcomes: &[Outcome],
) -> Result<(), AllocError>
    ensures { OnOk result (lines.new.items ≡ lines.old.items ++ observation_line condition.now outcomes.now ++ condition_line condition.now outcomes.now) }
{
    lines.extend_from_slice(&observation_line(alloc, condition, outcomes)?)?;
    lines.extend_from_slice(&condition_line(alloc, condition, outcomes)?)?;
    Ok(())
}

/// How many outcomes there are, each of them as far as it is shown, with its run if there is one, and what they show of
/// the condition.
fn list_lines(
    alloc: Global,
    litmus: &Litmus<Program>,
    shown: &Shown,
    list: &OutcomeList,
) -> Result<Vec<u8>, AllocError>
    ensures { IfOk result (λ lines. lines.items ≡ lines_of_list litmus.now shown.now list.now.outcomes.items list.now.runs) }
{
    let outcomes = list.outcomes.as_slice();
    let count = outcomes.len();
    let mut lines = format!(in alloc; "outcomes {count}\n")?.into_bytes();
    for (number, outcome) in outcomes.iter().enumerate() {
        push_outcome(alloc, &mut lines, &litmus.names, shown, outcome)?;
        push_run(alloc, &mut lines, &list.runs, number)?;
    }
    push_observation(alloc, &mut lines, &litmus.condition, outcomes)?;
    Ok(lines)
}

/// The outcomes of a program that are searched for, as far as they are shown, in the machine of a mode.
#[derive(Clone, Copy)]
struct ListSearch<'a> {
    alloc: Global,
    program: &'a Program,
    shown: &'a Shown,
    mode: Mode,
    effort: Effort,
}

/// The document of a list of outcomes of a machine, with its runs where they are asked for.
fn document_for(
    search: &ListSearch<'_>,
    source: &LinedLitmus<'_>,
    runs: bool,
    machine: FencedModel,
    list: &OutcomeList,
) -> Result<JsonObject, AllocError>
    ensures { IfOk result (IsListDocument runs machine source.now.litmus.now search.now.shown.now list.now.outcomes.items list.now.runs) }
{
    let outcomes = list.outcomes.as_slice();
    if runs {
        outcomes_with_runs_document(
            search.alloc,
            source,
            search.shown,
            machine,
            outcomes,
            &list.runs,
        )
    } else {
        outcomes_document(search.alloc, source, search.shown, machine, outcomes)
    }
}

/// The line of the document of the list of outcomes of a text's program.
fn list_document(
    search: &ListSearch<'_>,
    text: &[u8],
    asked: &OutcomeQuery,
    fences: &GapSet,
    litmus: &Litmus<Program>,
    list: &OutcomeList,
) -> Result<Vec<u8>, AllocError>
    ensures { IfOk result (λ document. TellsOutcomes true asked.now.runs (record { model = asked.now.model; fences = fences.now }) litmus.now search.now.shown.now list.now.outcomes.items list.now.runs document.items) }
{
    let lines = TextLines::of_text(search.alloc, text)?;
    let source = LinedLitmus {
        litmus,
        lines: &lines,
    };
    let machine = FencedModel {
        model: asked.model,
        fences: *fences,
    };
    let noted = NotedText {
        name: asked.litmus.as_str(),
        text,
        places: SlipPlaces::WholeText,
    };
    let document = document_for(search, &source, asked.runs, machine, list)?;
    noted_line(search.alloc, noted, document, None)
}

/// The list of outcomes of a text's program, or its document.
fn list_text(
    search: &ListSearch<'_>,
    text: &[u8],
    asked: &OutcomeQuery,
    fences: &GapSet,
    litmus: &Litmus<Program>,
    list: &OutcomeList,
) -> Result<Vec<u8>, AllocError>
    ensures { IfOk result (λ lines. TellsOutcomes asked.now.json asked.now.runs (record { model = asked.now.model; fences = fences.now }) litmus.now search.now.shown.now list.now.outcomes.items list.now.runs lines.items) }
{
    if asked.json {
        list_document(search, text, asked, fences, litmus, list)
    } else {
        list_lines(search.alloc, litmus, search.shown, list)
    }
}

/// The outcomes that are searched for, each with a run. It is said before a search that it may take minutes.
fn list_with_runs<T: Threads + Sync>(
    rt: &T,
    search: &ListSearch<'_>,
) -> Result<OutcomeList, SolveFault>
    ensures ascend { IfOk result (λ list. Ascend list.outcomes.items) }
    ensures runs { IfOk result (λ list. AreRunsOf (question search.now.program.now search.now.shown.now) (machine_of_mode search.now.program.now search.now.mode) list.runs list.outcomes.items) }
    ensures exact { IfOk result (λ list. (o : Outcome) → Contains list.outcomes.items o ↔ AllowsShown (question search.now.program.now search.now.shown.now) (machine_of_mode search.now.program.now search.now.mode) o) }
    ensures fault { IfErr result (λ fault. fault ≡ solve.OutOfMemory) }
{
    warn_of_minutes(search.alloc, search.program, search.effort.progress);
    outcomes_by(
        rt,
        search.alloc,
        search.effort,
        search.program,
        search.shown,
        search.mode,
    )
}

/// The outcomes that are searched for, and a run of each if runs are asked for.
fn listed<T: Threads + Sync>(
    rt: &T,
    search: &ListSearch<'_>,
    runs: bool,
) -> Result<OutcomeList, SolveFault>
    ensures list { IfOk result (λ list. ListsOutcomes (question search.now.program.now search.now.shown.now) (machine_of_mode search.now.program.now search.now.mode) list.outcomes.items) }
    ensures runs { IfOk result (λ list. ListsRuns runs (question search.now.program.now search.now.shown.now) (machine_of_mode search.now.program.now search.now.mode) list.runs list.outcomes.items) }
    ensures fault { IfErr result (λ fault. fault ≡ solve.OutOfMemory) }
{
    let list = list_with_runs(rt, search)?;
    if runs {
        Ok(list)
    } else {
        Ok(OutcomeList {
            outcomes: list.outcomes,
            runs: Runs::new(search.alloc),
        })
    }
}

/// The status of a list: with a check 3 where the condition fails.
fn list_status(check: bool, litmus: &Litmus<Program>, outcomes: &[Outcome]) -> u8
    ensures { result ≡ list_status check litmus.now outcomes.now }
{
    check_status(check, !is_true_of(&litmus.condition, outcomes))
}

/// What is shown of outcomes. It takes no memory.
fn listed_shown(litmus: &Litmus<Program>, observed: bool) -> Shown
    ensures { result ≡ shown_as litmus.now (listed_kind observed) }
{
    if observed { litmus.shown() } else { Shown::All }
}

/// The lines of a program's outcomes, with their status.
fn reply_for<T: Threads + Sync>(
    rt: &T,
    alloc: Global,
    text: &[u8],
    litmus: &Litmus<Program>,
    asked: &OutcomeQuery,
    progress: Progress,
) -> Result<Reply, AnswerFault>
    ensures list { (bytes : List ℕ) → IsLitmus bytes litmus.now → IfOk result (λ reply. PrintsOutcomes asked.now bytes reply.status reply.lines.items) }
    ensures refused { (bytes : List ℕ) → IsLitmus bytes litmus.now → IfErr result (HasNoList asked.now.fences.items bytes) }
{
    let places = asked.fences.as_slice();
    let fences = match gaps_at(&litmus.program, places) {
        Ok(fences) => fences,
        Err((thread, instruction)) => return Err(AnswerFault::NoSuchGap(thread, instruction)),
    };
    let shown = listed_shown(litmus, asked.observed);
    let search = ListSearch {
        alloc,
        program: &litmus.program,
        shown: &shown,
        mode: Mode::new(asked.model, fences),
        effort: Effort {
            workers: asked.workers,
            trees: None,
            progress: progress.asked(asked.progress),
            warns: true,
        },
    };
    let list = listed(rt, &search, asked.runs)?;
    let status = list_status(asked.check, litmus, &list.outcomes);
    match list_text(&search, text, asked, &fences, litmus, &list) {
        Ok(lines) => Ok(Reply { lines, status }),
        Err(_) => Err(AnswerFault::Solve(SolveFault::OutOfMemory)),
    }
}

/// The lines of the outcomes of the program that a text spells, with their status.
fn outcomes_reply<T: Threads + Sync>(
    rt: &T,
    alloc: Global,
    bytes: &[u8],
    asked: &OutcomeQuery,
    progress: Progress,
) -> Result<Reply, AnswerFault>
    ensures list { IfOk result (λ reply. PrintsOutcomes asked.now bytes.now reply.status reply.lines.items) }
    ensures refused { IfErr result (HasNoList asked.now.fences.items bytes.now) }
{
    let litmus = read_litmus(alloc, bytes)?;
    reply_for(rt, alloc, bytes, &litmus, asked, progress)
}

/// Lists the outcomes of the program of a litmus file, prints the answer, and returns the status.
pub fn run_outcomes<T: Threads + Sync, S: FileStore, R: Read, W: Console>(
    rt: &T,
    alloc: Global,
    files: &S,
    asked: &OutcomeQuery,
    input: &mut R,
    output: &mut W,
) -> u8
    ensures told { Prints (AreOutcomes asked.now (R.remaining input.old) (S.held files.now)) (W.contents output.old) (W.contents output.new) result }
    ensures read { ReadsOfInput TEXT_LIMIT (string_bytes asked.now.litmus) (R.remaining input.old) (R.remaining input.new) }
{
    let litmus = asked.litmus.as_str();
    match named_bytes(alloc, files, litmus, input, TEXT_LIMIT) {
        Ok(bytes) => {
            let subject = AskedText {
                name: file_or_input(litmus),
                text: &bytes,
                labels: &[],
            };
            let reply = outcomes_reply(rt, alloc, &bytes, asked, output.progress());
            let status = print_answer(alloc, asked.json, subject, reply, output);
            tell_slip(alloc, litmus, &bytes, output);
            status
        }
        Err(fault) => {
            let message = unread_advice(alloc, files, unread_litmus(litmus, fault));
            tell_refusal(alloc, asked.json, file_line(alloc, fault), message, output)
        }
    }
}
