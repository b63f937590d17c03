//! Traces: the table of a run with its lines, or why there is no run.

ghost use Rattle.std.specs.Prelude.{◌≡◌, ◌++◌, IfOk, IfErr, map, string_bytes};
ghost use Rattle.tso_program.specs.declared.shown.Shown.TheVariants.{All};
ghost use Rattle.std.specs.FinSet as set;
ghost use Rattle.tso_machine.specs.Faults.{ReplayFaultIs};
ghost use Rattle.tso_machine.specs.Modes.{machine_of_model};
ghost use Rattle.report.specs.Answers.{outcome_line, passed_line};
ghost use Rattle.program_streams.specs.Streams.{Prints};
ghost use Rattle.program_streams.specs.Files.{ReadsOfInput};
ghost use Rattle.answers.specs.Deliveries.{KeepFilesBut};
ghost use Rattle.answers.specs.Replays.{label_words_text, HasNoRun, OfEachText};
ghost use Rattle.documents.specs.Documents.{IsTraceDocument};
ghost use Rattle.run_views.specs.Tables.{table_text};
ghost use Rattle.fencer_words.specs.CommandFiles.{name_of};
ghost use Rattle.answers.specs.Traces.{DeliversTrace, PrintsTrace, IsTrace, IsTraceOf, IsTraceTable};

use crate::advice::{AskedText, refusal_advice, unread_advice, unread_litmus};
use crate::delivery::{Answer, deliver};
use crate::document::{Told, documented};
use crate::notes::{NotedText, SlipPlaces};
use crate::refusals::{AnswerFault, refusal_line};
use crate::refused::tell_refusal;
use crate::replays::{ended_lines, steps_of};
use documents::{LinedLitmus, trace_document};
use fencer_words::{Run, TraceQuery};
use gap_list::TextLines;
use gap_sets::GapSet;
use json_text::JsonObject;
use litmus_text::{Litmus, read_litmus};
use messages::file_or_input;
use program_streams::{Console, TEXT_LIMIT, WritableFileStore, file_line, named_bytes};
use run_views::{RunGraph, run_table};
use std::alloc::{AllocError, Global};
use std::io::Read;
use tso_machine::{Ended, Label, Model, ReplayFault, Step, replay, steps};
use tso_program::Program;

/// What is drawn of a run, and its document.
#[derive(Drop)]
struct Drawings {
    table: Vec<u8>,
    graph: Vec<u8>,
    document: JsonObject,
}

/// The table, the graph and the document of the steps of a run that ends so.
fn drawn(
    alloc: Global,
    text: &[u8],
    litmus: &Litmus<Program>,
    model: Model,
    steps: &[Step],
    ended: &Ended,
) -> Result<Drawings, AllocError>
    ensures table { IfOk result (λ drawings. drawings.table.items ≡ table_text litmus.now steps.now) }
    ensures told { IfOk result (λ drawings. IsTraceDocument litmus.now model (map (λ step. step.label) steps.now) ended.now.outcome ended.now.passed drawings.document) }
{
    let table = run_table(alloc, litmus, steps)?;
    let mut graph = RunGraph::new(alloc)?;
    graph.push_run(alloc, litmus, litmus.name.as_slice(), steps, None)?;
    let graph = graph.into_text()?;
    let lines = TextLines::of_text(alloc, text)?;
    let source = LinedLitmus {
        litmus,
        lines: &lines,
    };
    let document = trace_document(alloc, &source, model, steps, ended)?;
    Ok(Drawings {
        table,
        graph,
        document,
    })
}

/// The table, the graph and the document of the steps that labels make in a run that ends so.
fn drawings_of(
    alloc: Global,
    text: &[u8],
    litmus: &Litmus<Program>,
    model: Model,
    labels: &[Label],
    ended: &Ended,
) -> Result<Drawings, ReplayFault>
    ensures table { IfOk result (λ drawings. IsTraceTable litmus.now model labels.now drawings.table.items) }
    ensures told { IfOk result (λ drawings. IsTraceDocument litmus.now model labels.now ended.now.outcome ended.now.passed drawings.document) }
    ensures fault { IfErr result (ReplayFaultIs litmus.now.program (machine_of_model litmus.now.program set.empty model) labels.now) }
{
    let steps = steps(alloc, &litmus.program, &GapSet::empty(), model, labels)?;
    match drawn(alloc, text, litmus, model, &steps, ended) {
        Ok(drawings) => Ok(drawings),
        Err(_) => Err(ReplayFault::OutOfMemory),
    }
}

/// A table, the outcome line and the passed line.
fn traced_lines(
    alloc: Global,
    table: Vec<u8>,
    litmus: &Litmus<Program>,
    ended: &Ended,
) -> Result<Vec<u8>, AllocError>
    ensures { IfOk result (λ lines. lines.items ≡ table.items ++ (outcome_line litmus.now.names All ended.now.outcome ++ passed_line litmus.now.program ended.now.passed)) }
{
    let mut lines = table;
    let ending = ended_lines(alloc, litmus, ended)?;
    lines.extend_from_slice(&ending)?;
    Ok(lines)
}

/// What is said of a run, as text and as a document, with its graph.
#[derive(Drop)]
struct Said {
    lines: Vec<u8>,
    document: JsonObject,
    graph: Vec<u8>,
}

/// The lines of the run that labels spell in a program, its document and its graph. The labels are judged before the
/// replay.
fn run_said(
    alloc: Global,
    text: &[u8],
    litmus: &Litmus<Program>,
    run: &Run,
) -> Result<Said, AnswerFault>
    ensures run { IfOk result (λ said. OfEachText litmus.now (λ bytes. PrintsTrace run.now.model (label_words_text run.now.labels.items) bytes said.lines.items said.document)) }
    ensures refused { IfErr result (λ why. OfEachText litmus.now (λ bytes. HasNoRun run.now.model (label_words_text run.now.labels.items) bytes why)) }
{
    let labels = steps_of(alloc, run.labels.as_slice())?;
    let ended = replay(alloc, &litmus.program, &GapSet::empty(), run.model, &labels)?;
    let drawings = drawings_of(alloc, text, litmus, run.model, &labels, &ended)?;
    let Drawings {
        table,
        graph,
        document,
    } = drawings;
    match traced_lines(alloc, table, litmus, &ended) {
        Ok(lines) => Ok(Said {
            lines,
            document,
            graph,
        }),
        Err(_) => Err(AnswerFault::Replay(ReplayFault::OutOfMemory)),
    }
}

/// The lines of the run that labels spell in the program that a text spells, its document and its graph. The text is
/// judged before the labels.
fn trace_of(alloc: Global, bytes: &[u8], run: &Run) -> Result<Said, AnswerFault>
    ensures run { IfOk result (λ said. PrintsTrace run.now.model (label_words_text run.now.labels.items) bytes.now said.lines.items said.document) }
    ensures refused { IfErr result (HasNoRun run.now.model (label_words_text run.now.labels.items) bytes.now) }
{
    let litmus = read_litmus(alloc, bytes)?;
    run_said(alloc, bytes, &litmus, run)
}

/// What is delivered of a run.
fn trace_answer(alloc: Global, bytes: &[u8], asked: &TraceQuery) -> Result<Answer, AnswerFault>
    ensures told { IfOk result (DeliversTrace asked.now bytes.now) }
    ensures refused { IfErr result (HasNoRun asked.now.run.model (label_words_text asked.now.run.labels.items) bytes.now) }
{
    let said = trace_of(alloc, bytes, &asked.run)?;
    let Said {
        lines,
        document,
        graph,
    } = said;
    let told = Told {
        lines,
        document,
        graph,
        verdict: None,
    };
    let noted = NotedText {
        name: asked.run.litmus.as_str(),
        text: bytes,
        places: SlipPlaces::Nowhere,
    };
    match documented(alloc, asked.json, asked.page.as_deref(), noted, told) {
        Ok(answer) => Ok(answer),
        Err(_) => Err(AnswerFault::Replay(ReplayFault::OutOfMemory)),
    }
}

/// Judges a text, writes the page and the graph, prints the lines, and returns the status.
fn trace_text<S: WritableFileStore, W: Console>(
    alloc: Global,
    files: &mut S,
    asked: &TraceQuery,
    bytes: &[u8],
    output: &mut W,
) -> u8
    ensures told { Prints (IsTraceOf asked.now bytes.now (S.held files.old) (S.held files.new)) (W.contents output.old) (W.contents output.new) result }
    ensures others { KeepFilesBut (name_of asked.now.page) (name_of asked.now.graph) (S.held files.old) (S.held files.new) }
{
    let page = asked.page.as_deref();
    let graph = asked.graph.as_deref();
    match trace_answer(alloc, bytes, asked) {
        Ok(answer) => deliver(alloc, files, page, graph, answer, output),
        Err(why) => {
            let subject = AskedText {
                name: file_or_input(asked.run.litmus.as_str()),
                text: bytes,
                labels: asked.run.labels.as_slice(),
            };
            let message = refusal_advice(alloc, subject, why);
            tell_refusal(alloc, asked.json, refusal_line(alloc, why), message, output)
        }
    }
}

/// Shows the steps of labels on the program of a litmus file as a table, writes their page and their graph to files if
/// they are named, prints the answer, and returns the status.
pub fn run_trace<S: WritableFileStore, R: Read, W: Console>(
    alloc: Global,
    files: &mut S,
    asked: &TraceQuery,
    input: &mut R,
    output: &mut W,
) -> u8
    ensures told { Prints (IsTrace asked.now (R.remaining input.old) (S.held files.old) (S.held files.new)) (W.contents output.old) (W.contents output.new) result }
    ensures others { KeepFilesBut (name_of asked.now.page) (name_of asked.now.graph) (S.held files.old) (S.held files.new) }
    ensures read { ReadsOfInput TEXT_LIMIT (string_bytes asked.now.run.litmus) (R.remaining input.old) (R.remaining input.new) }
{
    let litmus = asked.run.litmus.as_str();
    match named_bytes(alloc, &*files, litmus, input, TEXT_LIMIT) {
        Ok(bytes) => trace_text(alloc, files, asked, &bytes, output),
        Err(fault) => {
            let message = unread_advice(alloc, &*files, unread_litmus(litmus, fault));
            tell_refusal(alloc, asked.json, file_line(alloc, fault), message, output)
        }
    }
}
