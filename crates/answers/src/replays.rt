//! Replays: the lines of a run, or why there is no run.

ghost use Rattle.std.specs.Prelude.{◌≡◌, ◌++◌, IfOk, IfErr, string_bytes};
ghost use Rattle.tso_machine.specs.RunTexts.{IsRunText, RunFaultIs};
ghost use Rattle.report.specs.Answers.{outcome_line, passed_line};
ghost use Rattle.program_streams.specs.Streams.{Prints};
ghost use Rattle.program_streams.specs.Files.{ReadsOfInput};
ghost use Rattle.answers.specs.Replays.{label_words_text, HasNoRun, IsReplay, OfEachText, ShowsRun};

use crate::advice::{AskedText, unread_advice, unread_litmus};
use crate::refusals::{AnswerFault, Reply, print_answer};
use crate::refused::tell_refusal;
use fencer_words::Run;
use gap_sets::GapSet;
use litmus_text::{Litmus, read_litmus};
use messages::file_or_input;
use program_streams::{Console, FileStore, TEXT_LIMIT, file_line, named_bytes};
use report::{outcome_line, passed_line};
use std::alloc::{AllocError, Global};
use std::io::Read;
use tso_machine::{Ended, Label, Model, ReplayFault, RunFault, read_run, replay};
use tso_program::{Program, Shown};

/// The labels, each after a space.
fn run_text(alloc: Global, words: &[String]) -> Result<Vec<u8>, AllocError>
    ensures { IfOk result (λ text. text.items ≡ label_words_text words.now) }
{
    let mut text = Vec::new(alloc);
    for word in words {
        text.push(b' ')?;
        text.extend_from_slice(word.as_bytes())?;
    }
    Ok(text)
}

/// The steps that labels spell.
pub(crate) fn steps_of(alloc: Global, words: &[String]) -> Result<Vec<Label>, RunFault>
    ensures found { IfOk result (λ steps. IsRunText (label_words_text words.now) steps.items) }
    ensures err { IfErr result (RunFaultIs (label_words_text words.now)) }
{
    match run_text(alloc, words) {
        Ok(text) => read_run(alloc, &text),
        Err(_) => Err(RunFault::OutOfMemory),
    }
}

/// The outcome line and the passed line.
pub(crate) fn ended_lines(
    alloc: Global,
    litmus: &Litmus<Program>,
    ended: &Ended,
) -> Result<Vec<u8>, AllocError>
    ensures { IfOk result (λ lines. lines.items ≡ outcome_line litmus.now.names Shown.All ended.now.outcome ++ passed_line litmus.now.program ended.now.passed) }
{
    let mut lines = outcome_line(alloc, &litmus.names, &Shown::All, &ended.outcome)?;
    let passed = passed_line(alloc, &litmus.program, &ended.passed)?;
    lines.extend_from_slice(&passed)?;
    Ok(lines)
}

/// The lines of the run that labels spell in a program. The labels are judged before the replay.
fn run_lines(
    alloc: Global,
    litmus: &Litmus<Program>,
    model: Model,
    labels: &[String],
) -> Result<Reply, AnswerFault>
    ensures run { IfOk result (λ reply. OfEachText litmus.now (λ bytes. ShowsRun model (label_words_text labels.now) bytes reply.status reply.lines.items)) }
    ensures refused { IfErr result (λ why. OfEachText litmus.now (λ bytes. HasNoRun model (label_words_text labels.now) bytes why)) }
{
    let steps = steps_of(alloc, labels)?;
    let ended = replay(alloc, &litmus.program, &GapSet::empty(), model, &steps)?;
    match ended_lines(alloc, litmus, &ended) {
        Ok(lines) => Ok(Reply { lines, status: 0 }),
        Err(_) => Err(AnswerFault::Replay(ReplayFault::OutOfMemory)),
    }
}

/// The lines of the run that labels spell in the program that a text spells. The text is judged
/// before the labels.
fn replay_lines(
    alloc: Global,
    bytes: &[u8],
    model: Model,
    labels: &[String],
) -> Result<Reply, AnswerFault>
    ensures run { IfOk result (λ reply. ShowsRun model (label_words_text labels.now) bytes.now reply.status reply.lines.items) }
    ensures refused { IfErr result (HasNoRun model (label_words_text labels.now) bytes.now) }
{
    let litmus = read_litmus(alloc, bytes)?;
    run_lines(alloc, &litmus, model, labels)
}

/// Replays labels on the program of a litmus file, prints the answer, and returns the status.
pub fn run_replay<S: FileStore, R: Read, W: Console>(
    alloc: Global,
    files: &S,
    asked: &Run,
    input: &mut R,
    output: &mut W,
) -> u8
    ensures told { Prints (IsReplay asked.now.model (label_words_text asked.now.labels.items) (string_bytes asked.now.litmus) (R.remaining input.old) (S.held files.now)) (W.contents output.old) (W.contents output.new) result }
    ensures read { ReadsOfInput TEXT_LIMIT (string_bytes asked.now.litmus) (R.remaining input.old) (R.remaining input.new) }
{
    match named_bytes(alloc, files, asked.litmus.as_str(), input, TEXT_LIMIT) {
        Ok(bytes) => print_answer(
            alloc,
            false,
            AskedText {
                name: file_or_input(asked.litmus.as_str()),
                text: &bytes,
                labels: asked.labels.as_slice(),
            },
            replay_lines(alloc, &bytes, asked.model, asked.labels.as_slice()),
            output,
        ),
        Err(fault) => {
            let message = unread_advice(alloc, files, unread_litmus(asked.litmus.as_str(), fault));
            tell_refusal(alloc, false, file_line(alloc, fault), message, output)
        }
    }
}
