//! Placements: the answer of a program and its text with fences, or why there is no answer.

ghost use Rattle.std.specs.Prelude.{◌≡◌, IfErr, IfOk, option_map, string_bytes};
ghost use Rattle.program_streams.specs.Streams.{Prints};
ghost use Rattle.program_streams.specs.Files.{ReadsOfInput};
ghost use Rattle.placed_text.specs.TextFaults.{HasNoPlacedText};
ghost use Rattle.fencer_words.specs.CommandFiles.{name_of};
ghost use Rattle.answers.specs.Deliveries.{KeepFilesButThree};
ghost use Rattle.answers.specs.Inserted.{IsInserted};
ghost use Rattle.fencer.specs.Placements.{text_fault_line, AreDelivered, AreTextsFor, DeliversTexts, IsJudged, IsPlaced, PrintsPlacement};

use crate::advice::text_fault_advice;
use crate::survey_advice::report_sequential;
use crate::tied::tell_ties;
use answers::{
    Answer, NotedText, SlipPlaces, Texts, check_status, deliver, inserted_for, keep_inserted,
    noted_line, printed, read_texts, slip_places, tell_fences, tell_refusal, tell_slip_compared,
    unkept_advice, unkept_line, unread_advice,
};
use fencer_words::Placement;
use gap_sets::GapSet;
use paged_text::Pages;
use placed_text::{AnswerText, PlacedText, TextFault, answer_text, place_text};
use program_streams::{Console, Progress, TEXT_LIMIT, WritableFileStore, file_line};
use report::{costs_line, litmus_line};
use search_effort::Effort;
use std::alloc::{AllocError, Global};
use std::io::Read;
use std::sync::Wait;
use std::thread::Threads;

/// What is placed: what is delivered of it, the gaps of the answer, and the litmus text with the fences put in, which is
/// empty where no file is named for it; `None` where what is made is not read as the fenced program.
#[derive(Drop)]
struct PlacedAnswer {
    answer: Answer,
    gaps: GapSet,
    inserted: Option<Pages>,
}

/// Why nothing is placed in the program of a text.
pub(crate) fn text_fault_line(alloc: Global, fault: TextFault) -> Result<Vec<u8>, AllocError>
    ensures { IfOk result (λ line. line.items ≡ text_fault_line fault) }
{
    match fault {
        TextFault::Read(why) => litmus_line(alloc, why),
        TextFault::CostText(why) => costs_line(alloc, why),
        TextFault::Workers => Vec::from_slice(alloc, b"refused place 1 Workers\n"),
        TextFault::OutOfMemory => Vec::from_slice(alloc, b"refused place 5 OutOfMemory\n"),
    }
}

/// What is placed in the program of a text; where a file is named for the certificate, with its text.
fn texts_for<T: Threads + Wait + Sync>(
    rt: &T,
    alloc: Global,
    asked: &Placement,
    texts: &Texts,
    progress: Progress,
) -> Result<PlacedText, TextFault>
    ensures placed { IfOk result (AreTextsFor (name_of asked.now.certificate) texts.now.litmus.items (option_map (λ text. text.items) texts.now.costs) asked.now.kind) }
    ensures fault { IfErr result (HasNoPlacedText texts.now.litmus.items (option_map (λ text. text.items) texts.now.costs) asked.now.workers) }
{
    let costs = texts.costs.as_deref();
    let effort = Effort {
        workers: asked.workers,
        trees: asked.trees,
        progress: progress.asked(asked.progress),
        warns: true,
    };
    match asked.certificate.as_deref() {
        Some(_) => place_text(rt, alloc, &texts.litmus, costs, asked.kind, effort),
        None => Ok(PlacedText {
            texts: answer_text(rt, alloc, &texts.litmus, costs, asked.kind, effort)?,
            certificate: Pages::new(alloc),
        }),
    }
}

/// The answer line, followed by the program's text, or the document; with a check the status says whether the answer has
/// a gap. Beside the answer a document that is printed says what is noted of the litmus text.
fn joined(
    alloc: Global,
    asked: &Placement,
    litmus: &[u8],
    found: PlacedText,
) -> Result<Answer, AllocError>
    ensures answer { IfOk result (DeliversTexts found asked.now.check asked.now.json) }
{
    let PlacedText { texts, certificate } = found;
    let AnswerText {
        program,
        answer,
        gaps,
        document,
        verdict,
    } = texts;
    let noted = NotedText {
        name: asked.litmus.as_str(),
        text: litmus,
        places: if asked.json {
            slip_places(asked.kind)
        } else {
            SlipPlaces::Nowhere
        },
    };
    let document = noted_line(alloc, noted, document, verdict)?;
    let mut lines = answer;
    lines.extend_from_slice(&program)?;
    Ok(Answer {
        lines: printed(asked.json, lines, document),
        status: check_status(asked.check, gaps.len() > 0),
        json: asked.json,
        first: Pages::of(alloc, program)?,
        second: certificate,
    })
}

/// What is delivered of what is placed, with the litmus text into which the fences are put.
fn placed(
    alloc: Global,
    asked: &Placement,
    texts: &Texts,
    found: PlacedText,
) -> Result<PlacedAnswer, AllocError>
    ensures answer { IfOk result (λ placed. DeliversTexts found asked.now.check asked.now.json placed.answer) }
    ensures inserted { IfOk result (λ placed. IsInserted (name_of asked.now.insert) found.texts.program.items placed.inserted) }
{
    let named = asked.insert.as_deref();
    let AnswerText { program, gaps, .. } = &found.texts;
    let inserted = inserted_for(alloc, named, &texts.litmus, gaps, program)?;
    let gaps = *gaps;
    let answer = joined(alloc, asked, &texts.litmus, found)?;
    Ok(PlacedAnswer {
        answer,
        gaps,
        inserted,
    })
}

/// What is placed in the program of a text.
fn answer_of<T: Threads + Wait + Sync>(
    rt: &T,
    alloc: Global,
    asked: &Placement,
    texts: &Texts,
    progress: Progress,
) -> Result<PlacedAnswer, TextFault>
    ensures placed { IfOk result (λ placed. PrintsPlacement asked.now texts.now.litmus.items (option_map (λ text. text.items) texts.now.costs) placed.answer placed.inserted) }
    ensures fault { IfErr result (HasNoPlacedText texts.now.litmus.items (option_map (λ text. text.items) texts.now.costs) asked.now.workers) }
{
    let found = texts_for(rt, alloc, asked, texts, progress)?;
    let verdict = found.texts.verdict.as_ref();
    report_sequential(alloc, asked, &texts.litmus, verdict, progress);
    match placed(alloc, asked, texts, found) {
        Ok(placed) => Ok(placed),
        Err(_) => Err(TextFault::OutOfMemory),
    }
}

/// Writes the litmus text with the fences put in, where a file is named for it, then what else is delivered, tells where
/// the fences go, and returns the status.
fn deliver_placed<S: WritableFileStore, W: Console>(
    alloc: Global,
    files: &mut S,
    asked: &Placement,
    texts: &Texts,
    placed: PlacedAnswer,
    output: &mut W,
) -> u8
    ensures told { Prints (AreDelivered asked.now placed.answer placed.inserted (S.held files.old) (S.held files.new)) (W.contents output.old) (W.contents output.new) result }
    ensures others { KeepFilesButThree (name_of asked.now.output) (name_of asked.now.certificate) (name_of asked.now.insert) (S.held files.old) (S.held files.new) }
{
    let program = asked.output.as_deref();
    let certificate = asked.certificate.as_deref();
    let PlacedAnswer {
        answer,
        gaps,
        inserted,
    } = placed;
    match keep_inserted(files, asked.insert.as_deref(), inserted) {
        Ok(()) => {
            let status = deliver(alloc, files, program, certificate, answer, output);
            tell_fences(alloc, &texts.litmus, &gaps, status, output);
            status
        }
        Err(fault) => {
            let message = unkept_advice(alloc, asked, fault);
            tell_refusal(
                alloc,
                asked.json,
                unkept_line(alloc, fault),
                message,
                output,
            )
        }
    }
}

/// Judges texts, prints what is placed, and returns the status.
fn place_texts<T: Threads + Wait + Sync, S: WritableFileStore, W: Console>(
    rt: &T,
    alloc: Global,
    files: &mut S,
    asked: &Placement,
    texts: &Texts,
    output: &mut W,
) -> u8
    ensures told { Prints (IsJudged asked.now texts.now.litmus.items (option_map (λ text. text.items) texts.now.costs) (S.held files.old) (S.held files.new)) (W.contents output.old) (W.contents output.new) result }
    ensures others { KeepFilesButThree (name_of asked.now.output) (name_of asked.now.certificate) (name_of asked.now.insert) (S.held files.old) (S.held files.new) }
{
    let progress = output.progress();
    match answer_of(rt, alloc, asked, texts, progress) {
        Ok(placed) => {
            let costs = texts.costs.as_deref();
            tell_ties(alloc, &texts.litmus, costs, Some(&placed.gaps), output);
            deliver_placed(alloc, files, asked, texts, placed, output)
        }
        Err(fault) => {
            let named = (asked.litmus.as_str(), asked.costs.as_deref());
            let message = text_fault_advice(alloc, named, texts, fault);
            tell_refusal(
                alloc,
                asked.json,
                text_fault_line(alloc, fault),
                message,
                output,
            )
        }
    }
}

/// Places fences in the program of a litmus file, writes the fenced program and the certificate, prints the answer, and
/// returns the status.
pub fn run_place<T: Threads + Wait + Sync, S: WritableFileStore, R: Read, W: Console>(
    rt: &T,
    alloc: Global,
    files: &mut S,
    asked: &Placement,
    input: &mut R,
    output: &mut W,
) -> u8
    ensures told { Prints (IsPlaced asked.now (R.remaining input.old) (S.held files.old) (S.held files.new)) (W.contents output.old) (W.contents output.new) result }
    ensures others { KeepFilesButThree (name_of asked.now.output) (name_of asked.now.certificate) (name_of asked.now.insert) (S.held files.old) (S.held files.new) }
    ensures read { ReadsOfInput TEXT_LIMIT (string_bytes asked.now.litmus) (R.remaining input.old) (R.remaining input.new) }
{
    let costs = asked.costs.as_deref();
    match read_texts(alloc, &*files, asked.litmus.as_str(), costs, input) {
        Ok(texts) => {
            let status = place_texts(rt, alloc, files, asked, &texts, output);
            tell_slip_compared(alloc, asked, &texts.litmus, output);
            status
        }
        Err(file) => {
            let message = unread_advice(alloc, &*files, file);
            tell_refusal(
                alloc,
                asked.json,
                file_line(alloc, file.fault),
                message,
                output,
            )
        }
    }
}
