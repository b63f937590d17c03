//! Witnesses: a run of which the condition's formula has some truth, that there is none, or why neither is shown.

ghost use Rattle.std.specs.Prelude.{◌≡◌, IfErr, IfOk, string_bytes};
ghost use Rattle.program_streams.specs.Streams.{Prints};
ghost use Rattle.program_streams.specs.Files.{ReadsOfInput};
ghost use Rattle.fencer_words.specs.CommandFiles.{name_of};
ghost use Rattle.witness_text.specs.WitnessTexts.{HasNoWitnessText, IsWitnessText};
ghost use Rattle.answers.specs.Deliveries.{KeepFilesBut};
ghost use Rattle.outcome_answers.specs.Witnesses.{witness_line, IsWitnessOf, IsWitnessShown, ShowsWitness};

use crate::advice::witness_advice;
use answers::{
    Answer, NotedText, SlipPlaces, Told, check_status, deliver, documented, no_gap_line,
    sentence_line, solve_line, tell_refusal, tell_slip, unread_advice, unread_litmus,
};
use fencer_words::WitnessQuery;
use litmus_text::read_litmus;
use messages::file_or_input;
use oracle::SolveFault;
use program_streams::{Console, Progress, TEXT_LIMIT, WritableFileStore, file_line, named_bytes};
use report::litmus_line;
use search_effort::{SearchWatch, warn_of_minutes};
use std::alloc::{AllocError, Global};
use std::io::Read;
use std::thread::Threads;
use witness_text::{WitnessFault, WitnessText, witness_text};

/// The line of why no run is shown.
fn witness_line(alloc: Global, fault: WitnessFault) -> Result<Vec<u8>, AllocError>
    ensures { IfOk result (λ line. line.items ≡ witness_line fault) }
{
    match fault {
        WitnessFault::Read(why) => litmus_line(alloc, why),
        WitnessFault::NoSuchGap(thread, instruction) => no_gap_line(alloc, thread, instruction),
        WitnessFault::OutOfMemory => solve_line(alloc, SolveFault::OutOfMemory),
    }
}

/// Warns where the search for a run of a text's program may take minutes.
fn warn_of_search(alloc: Global, bytes: &[u8], progress: Progress) {
    if !progress.is_shown() {
        return;
    }
    if let Ok(litmus) = read_litmus(alloc, bytes) {
        warn_of_minutes(alloc, &litmus.program, progress);
    }
}

/// What is found for a text, where it is reported how far the search for it is.
fn watched_text<T: Threads>(
    rt: &T,
    alloc: Global,
    bytes: &[u8],
    asked: &WitnessQuery,
    progress: Progress,
) -> Result<WitnessText, WitnessFault>
    ensures told { IfOk result (λ said. IsWitnessText bytes.now asked.now.model asked.now.meets asked.now.fences.items said.found said.lines.items said.document) }
    ensures fault { IfErr result (HasNoWitnessText bytes.now asked.now.fences.items) }
{
    let fences = asked.fences.as_slice();
    warn_of_search(alloc, bytes, progress);
    let watch = SearchWatch::new(rt, alloc, progress);
    let said = witness_text(alloc, bytes, asked.model, asked.meets, fences);
    drop(watch);
    said
}

/// What is delivered of a run; with a check the status says whether there is one. On a terminal it is reported in the words of the
/// condition's quantifier what is found.
fn witness_answer<T: Threads>(
    rt: &T,
    alloc: Global,
    bytes: &[u8],
    asked: &WitnessQuery,
    progress: Progress,
) -> Result<Answer, WitnessFault>
    ensures told { IfOk result (ShowsWitness asked.now bytes.now) }
    ensures fault { IfErr result (HasNoWitnessText bytes.now asked.now.fences.items) }
{
    let said = watched_text(rt, alloc, bytes, asked, progress.asked(asked.progress))?;
    let WitnessText {
        found,
        lines,
        graph,
        document,
        says,
    } = said;
    progress.warn(sentence_line(alloc, &says));
    let told = Told {
        lines,
        document,
        graph,
        verdict: None,
    };
    let noted = NotedText {
        name: asked.litmus.as_str(),
        text: bytes,
        places: SlipPlaces::WholeText,
    };
    match documented(alloc, asked.json, asked.page.as_deref(), noted, told) {
        Ok(mut answer) => {
            answer.status = check_status(asked.check, found);
            Ok(answer)
        }
        Err(_) => Err(WitnessFault::OutOfMemory),
    }
}

/// Judges a text, writes the page and the graph, prints the lines, and returns the status.
fn show_witness<T: Threads, S: WritableFileStore, W: Console>(
    rt: &T,
    alloc: Global,
    files: &mut S,
    asked: &WitnessQuery,
    bytes: &[u8],
    output: &mut W,
) -> u8
    ensures told { Prints (IsWitnessOf asked.now bytes.now (S.held files.old) (S.held files.new)) (W.contents output.old) (W.contents output.new) result }
    ensures others { KeepFilesBut (name_of asked.now.page) (name_of asked.now.graph) (S.held files.old) (S.held files.new) }
{
    let page = asked.page.as_deref();
    let graph = asked.graph.as_deref();
    match witness_answer(rt, alloc, bytes, asked, output.progress()) {
        Ok(answer) => deliver(alloc, files, page, graph, answer, output),
        Err(why) => {
            let name = file_or_input(asked.litmus.as_str());
            let message = witness_advice(alloc, name, bytes, why);
            tell_refusal(alloc, asked.json, witness_line(alloc, why), message, output)
        }
    }
}

/// Shows a run of the program of a litmus file of which the condition's formula has some truth, or that there is none, writes
/// its page and its graph to files if they are named, prints the answer, and returns the status.
pub fn run_witness<T: Threads, S: WritableFileStore, R: Read, W: Console>(
    rt: &T,
    alloc: Global,
    files: &mut S,
    asked: &WitnessQuery,
    input: &mut R,
    output: &mut W,
) -> u8
    ensures told { Prints (IsWitnessShown asked.now (R.remaining input.old) (S.held files.old) (S.held files.new)) (W.contents output.old) (W.contents output.new) result }
    ensures others { KeepFilesBut (name_of asked.now.page) (name_of asked.now.graph) (S.held files.old) (S.held files.new) }
    ensures read { ReadsOfInput TEXT_LIMIT (string_bytes asked.now.litmus) (R.remaining input.old) (R.remaining input.new) }
{
    let litmus = asked.litmus.as_str();
    match named_bytes(alloc, &*files, litmus, input, TEXT_LIMIT) {
        Ok(bytes) => {
            let status = show_witness(rt, alloc, files, asked, &bytes, output);
            tell_slip(alloc, litmus, &bytes, output);
            status
        }
        Err(fault) => {
            let message = unread_advice(alloc, &*files, unread_litmus(litmus, fault));
            tell_refusal(alloc, asked.json, file_line(alloc, fault), message, output)
        }
    }
}
