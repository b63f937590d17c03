//! A whole run of the program, over a reader and a writer.

ghost use Rattle.std.specs.Prelude.{IfOk, map, string_bytes};
ghost use Rattle.program_streams.specs.Streams.{Prints};
ghost use Rattle.fencer.specs.Lines.{EndsLine};
ghost use Rattle.fencer_words.specs.CommandFiles.{files_of};
ghost use Rattle.answers.specs.Deliveries.{KeepFilesButThree};
ghost use Rattle.fencer.specs.Answers.{IsAnswer, IsReply, IsOutput, KeepFilesOf, KeepOtherFiles, ReadsForWords, ReadsFor, ReadsOfJob};

use crate::gaps::run_gaps;
use crate::place::run_place;
use crate::surveys::run_survey;
use crate::whys::run_why;
use answers::{run_replay, run_trace, tell_hint, tell_refusal, unread_advice, unread_litmus};
use clap::Error;
use clap::error::ErrorKind;
use fencer_words::{Job, read_words};
use outcome_answers::{run_outcomes, run_witness};
use program_streams::{
    Console, TEXT_LIMIT, WordsFault, WritableFileStore, asks_version, file_line, line_words, print,
    read_line_up_to, refuse_words, version_line,
};
use std::alloc::{AllocError, Global};
use std::io::Read;
use std::rt::Clock;
use std::sync::Wait;
use std::thread::Threads;

/// The program's name.
const NAME: &str = "fencer";

/// What `clap` says of arguments that are no command: why, or the help that they call for.
fn error_text(alloc: Global, error: &Error) -> Result<Vec<u8>, AllocError>
    ensures { IfOk result (λ text. EndsLine text.items) }
{
    let told = error.to_string(alloc)?;
    let mut text = Vec::from_slice(alloc, told.trim_end().as_bytes())?;
    text.push(b'\n')?;
    Ok(text)
}

/// Does a job, and answers the status.
fn run_job<T: Threads + Wait + Sync + Clock, S: WritableFileStore, R: Read, W: Console>(
    rt: &T,
    alloc: Global,
    files: &mut S,
    job: &Job,
    input: &mut R,
    output: &mut W,
) -> u8
    ensures told { Prints (IsAnswer job.now (R.remaining input.old) (S.held files.old) (S.held files.new)) (W.contents output.old) (W.contents output.new) result }
    ensures others { KeepFilesButThree (files_of job.now).first (files_of job.now).second (files_of job.now).third (S.held files.old) (S.held files.new) }
    ensures read { ReadsOfJob job.now (R.remaining input.old) (R.remaining input.new) }
{
    match job {
        Job::Replay(asked) => run_replay(alloc, &*files, asked, input, output),
        Job::Trace(asked) => run_trace(alloc, files, asked, input, output),
        Job::Outcomes(asked) => run_outcomes(rt, alloc, &*files, asked, input, output),
        Job::Place(asked) => run_place(rt, alloc, files, asked, input, output),
        Job::Why(asked) => run_why(rt, alloc, files, asked, input, output),
        Job::Gaps(asked) => run_gaps(alloc, &*files, asked, input, output),
        Job::Witness(asked) => run_witness(rt, alloc, files, asked, input, output),
        Job::Survey(asked) => run_survey(rt, alloc, &*files, asked, input, output),
    }
}

/// Does what arguments ask for, and answers the status.
fn run_words<T: Threads + Wait + Sync + Clock, S: WritableFileStore, R: Read, W: Console>(
    rt: &T,
    alloc: Global,
    files: &mut S,
    words: &[String],
    input: &mut R,
    output: &mut W,
) -> u8
    ensures told { Prints (IsReply (map string_bytes words.now) (R.remaining input.old) (S.held files.old) (S.held files.new)) (W.contents output.old) (W.contents output.new) result }
    ensures others { KeepFilesOf (map string_bytes words.now) (S.held files.old) (S.held files.new) }
    ensures read { ReadsForWords (map string_bytes words.now) (R.remaining input.old) (R.remaining input.new) }
{
    if asks_version(words) {
        return print(output, version_line(alloc, NAME), 0);
    }
    match read_words(alloc, words) {
        Ok(job) => run_job(rt, alloc, files, &job, input, output),
        Err(error) => match error.kind() {
            ErrorKind::OutOfMemory => 1,
            _ => {
                tell_hint(alloc, words, output);
                print(output, error_text(alloc, &error), 2)
            }
        },
    }
}

/// The program: it does what its arguments ask for, and answers its status. With no arguments
/// they are those of the input's first line, separated by spaces, and the rest of the input is `-`. It reads no more of
/// the input than shows that the line or the litmus file is too long.
///
/// Wherever any of a placement's answer is printed, the files that the arguments name hold its certificate, the fenced
/// program and the litmus text with its fences; no file is changed but these, and those that they name for a page or for
/// graphs. With `rt` long searches and what reports them start threads, and the workers of a placement wait for one another.
///
/// Status 0 means that the whole answer is written, and status 3 that it is and that a check which is asked for finds a fault. Status 1
/// is a refusal, reported by one line, a writer that fails or takes no byte, and out of memory for the arguments or for that line, with
/// nothing written. Status 2 is a bad command line or a call for help, reported on the writer too.
pub fn run_command<T: Threads + Wait + Sync + Clock, S: WritableFileStore, R: Read, W: Console>(
    rt: &T,
    alloc: Global,
    files: &mut S,
    words: &[String],
    input: &mut R,
    output: &mut W,
) -> u8
    ensures told { Prints (IsOutput (map string_bytes words.now) (R.remaining input.old) (S.held files.old) (S.held files.new)) (W.contents output.old) (W.contents output.new) result }
    ensures others { KeepOtherFiles (map string_bytes words.now) (R.remaining input.old) (S.held files.old) (S.held files.new) }
    ensures read { ReadsFor (map string_bytes words.now) (R.remaining input.old) (R.remaining input.new) }
{
    if !words.is_empty() {
        return run_words(rt, alloc, files, words, input, output);
    }
    let line = match read_line_up_to(alloc, input, TEXT_LIMIT) {
        Ok(line) => line,
        Err(fault) => {
            let message = unread_advice(alloc, &*files, unread_litmus("-", fault));
            return tell_refusal(alloc, false, file_line(alloc, fault), message, output);
        }
    };
    match line_words(alloc, &line) {
        Ok(words) => run_words(rt, alloc, files, words.as_slice(), input, output),
        Err(WordsFault::NotUtf8) => refuse_words(alloc, output),
        Err(WordsFault::OutOfMemory) => 1,
    }
}
