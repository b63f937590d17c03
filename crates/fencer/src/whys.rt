//! Reasons: a run for each fence of a placement that shows why the fence is needed, or why there is no answer.

ghost use Rattle.std.specs.Prelude.{◌≡◌, IfErr, IfOk, option_map, string_bytes};
ghost use Rattle.program_streams.specs.Streams.{Prints};
ghost use Rattle.program_streams.specs.Files.{ReadsOfInput};
ghost use Rattle.placed_text.specs.TextFaults.{HasNoPlacedText};
ghost use Rattle.answers.specs.Deliveries.{KeepFilesBut};
ghost use Rattle.fencer_words.specs.CommandFiles.{name_of};
ghost use Rattle.fencer.specs.Whys.{Explains, IsExplained, IsExplainedText};

use crate::advice::text_fault_advice;
use crate::place::text_fault_line;
use crate::survey_advice::report_sequential;
use crate::tied::tell_ties;
use answers::{
    Answer, NotedText, Texts, Told, deliver, documented, read_texts, slip_places, tell_refusal,
    tell_slip_compared, unread_advice,
};
use fencer_words::{Placement, WhyQuery};
use gap_sets::GapSet;
use placed_text::{TextFault, WhyText, why_text};
use program_streams::{Console, Progress, TEXT_LIMIT, WritableFileStore, file_line};
use search_effort::Effort;
use std::alloc::Global;
use std::io::Read;
use std::sync::Wait;
use std::thread::Threads;

/// What is said of reasons.
fn told_of(reasons: WhyText) -> Told
    ensures { (result.lines.items ≡ reasons.lines.items) × (result.document ≡ reasons.document) × (result.verdict ≡ reasons.verdict) }
{
    let WhyText {
        lines,
        graph,
        document,
        verdict,
        ..
    } = reasons;
    Told {
        lines,
        document,
        graph,
        verdict,
    }
}

/// What is delivered of the reasons why the fences of an answer are needed, and in which gaps these are.
fn explained<T: Threads + Wait + Sync>(
    rt: &T,
    alloc: Global,
    asked: &WhyQuery,
    texts: &Texts,
    progress: Progress,
) -> Result<(Answer, GapSet), TextFault>
    ensures told { IfOk result (λ found. Explains asked.now texts.now.litmus.items (option_map (λ text. text.items) texts.now.costs) found.0) }
    ensures fault { IfErr result (HasNoPlacedText texts.now.litmus.items (option_map (λ text. text.items) texts.now.costs) asked.now.placement.workers) }
{
    let Placement {
        litmus,
        kind,
        workers,
        trees,
        json,
        ..
    } = &asked.placement;
    let effort = Effort {
        workers: *workers,
        trees: *trees,
        progress: progress.asked(asked.placement.progress),
        warns: true,
    };
    let costs = texts.costs.as_deref();
    let reasons = why_text(rt, alloc, &texts.litmus, costs, *kind, effort)?;
    let verdict = reasons.verdict.as_ref();
    report_sequential(alloc, &asked.placement, &texts.litmus, verdict, progress);
    let noted = NotedText {
        name: litmus.as_str(),
        text: &texts.litmus,
        places: slip_places(*kind),
    };
    let page = asked.page.as_deref();
    let gaps = reasons.gaps;
    match documented(alloc, *json, page, noted, told_of(reasons)) {
        Ok(answer) => Ok((answer, gaps)),
        Err(_) => Err(TextFault::OutOfMemory),
    }
}

/// Judges texts, writes the page and the graphs, prints why each fence of the answer is needed, and returns the status.
fn explain_texts<T: Threads + Wait + Sync, S: WritableFileStore, W: Console>(
    rt: &T,
    alloc: Global,
    files: &mut S,
    asked: &WhyQuery,
    texts: &Texts,
    output: &mut W,
) -> u8
    ensures told { Prints (IsExplainedText asked.now texts.now.litmus.items (option_map (λ text. text.items) texts.now.costs) (S.held files.old) (S.held files.new)) (W.contents output.old) (W.contents output.new) result }
    ensures others { KeepFilesBut (name_of asked.now.page) (name_of asked.now.graphs) (S.held files.old) (S.held files.new) }
{
    let page = asked.page.as_deref();
    let graphs = asked.graphs.as_deref();
    let progress = output.progress();
    match explained(rt, alloc, asked, texts, progress) {
        Ok((answer, gaps)) => {
            tell_ties(
                alloc,
                &texts.litmus,
                texts.costs.as_deref(),
                Some(&gaps),
                output,
            );
            deliver(alloc, files, page, graphs, answer, output)
        }
        Err(fault) => {
            let Placement { litmus, costs, .. } = &asked.placement;
            let named = (litmus.as_str(), costs.as_deref());
            let message = text_fault_advice(alloc, named, texts, fault);
            tell_refusal(
                alloc,
                asked.placement.json,
                text_fault_line(alloc, fault),
                message,
                output,
            )
        }
    }
}

/// Shows for each fence of a placement in the program of a litmus file why it is needed, writes the page and the graphs to
/// files if they are named, prints the answer, and returns the status.
pub fn run_why<T: Threads + Wait + Sync, S: WritableFileStore, R: Read, W: Console>(
    rt: &T,
    alloc: Global,
    files: &mut S,
    asked: &WhyQuery,
    input: &mut R,
    output: &mut W,
) -> u8
    ensures told { Prints (IsExplained asked.now (R.remaining input.old) (S.held files.old) (S.held files.new)) (W.contents output.old) (W.contents output.new) result }
    ensures others { KeepFilesBut (name_of asked.now.page) (name_of asked.now.graphs) (S.held files.old) (S.held files.new) }
    ensures read { ReadsOfInput TEXT_LIMIT (string_bytes asked.now.placement.litmus) (R.remaining input.old) (R.remaining input.new) }
{
    let litmus = asked.placement.litmus.as_str();
    let costs = asked.placement.costs.as_deref();
    match read_texts(alloc, &*files, litmus, costs, input) {
        Ok(texts) => {
            let status = explain_texts(rt, alloc, files, asked, &texts, output);
            tell_slip_compared(alloc, &asked.placement, &texts.litmus, output);
            status
        }
        Err(file) => {
            let message = unread_advice(alloc, &*files, file);
            tell_refusal(
                alloc,
                asked.placement.json,
                file_line(alloc, file.fault),
                message,
                output,
            )
        }
    }
}
