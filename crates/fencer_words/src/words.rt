//! Command lines.

ghost use Rattle.std.specs.Prelude.{◌≡◌, ◌⊎◌, true, false, Contains, IfErr, IfOk, IfNone, IfSome, OnOk, count_by, map, string_bytes};
ghost use Rattle.clap.specs.Words.{found_of, kind_of, rows_of};
ghost use Rattle.fencer_words.specs.CommandFiles.{files_of, has_clash};
ghost use Rattle.fencer_words.specs.CommandLines.{asks_twice, command_names, commands_app, fences_in_vain, is_input, reads_input_twice, AreChoices, AsksFor, IsJobOf, IsNoCommand, LacksPlaces, LacksThreads, Names};
ghost use Rattle.fencer_words.specs.Commands.{IsBuiltAs, IsFencerCommand, IsJobMet, MeetsNoJob};

use crate::arguments::{has_value, is_flagged, value_of, values_of};
use crate::files::{files_of, has_clash};
use crate::form::{Form, described_command};
use crate::gaps::gaps_job;
use crate::job::Job;
use crate::outcomes::outcomes_job;
use crate::parameter::ChoiceNames;
use crate::place::place_job;
use crate::replay::replay_job;
use crate::survey::survey_job;
use crate::trace::trace_job;
use crate::why::why_job;
use crate::witness::witness_job;
use clap::error::ErrorKind;
use clap::{ArgMatches, Command, Error};
use std::alloc::{AllocError, Global};

const FIRST: &str = "\
Finds the cheapest places for MFENCE with which a small x86 program behaves as on a sequentially
consistent machine. Shows why each is needed, shows a run that meets the condition, replays the
program's runs, and lists its outcomes and its gaps.";

const LAST: &str = "\
`fencer COMMAND --help` explains a command, `fencer --version` prints the version. Without
arguments fencer reads them from the first line of standard input. LITMUS may be - for standard
input, or for what follows that line.

The status is 0 for an answer, 1 for a refusal (docs/formats.md explains each), 2 for a bad
command line or this help, 3 for an answer where --check finds a fault. docs/guide.md explains the
commands.

Example: fencer place examples/SB.litmus";

const CLASH: &str = "a file that is written must not be one that is read, nor be written twice";

const TWICE: &str = "--observed and --condition cannot both be given";

const IN_VAIN: &str =
    "--fences and --model sequential cannot both be given: no fence matters there";

const INPUT_TWICE: &str = "`-` cannot be given twice: standard input is read once";

const FENCES: &str = "--fences takes gaps with commas between them, each once, as 0:1,1:1";

const SAME: &str = "--same takes numbers of threads with commas between them, as 0,1,2";

static MODELS: [&str; 2] = ["buffered", "sequential"];

static RULES: [&str; 2] = ["whole", "early"];

/// The names of the models, and of the rules of trees.
pub fn choice_names<'a>() -> ChoiceNames<'a>
    ensures { AreChoices result }
{
    ChoiceNames {
        models: MODELS.as_slice(),
        trees: RULES.as_slice(),
    }
}

/// The command line without a command.
fn commands<'a>(alloc: Global) -> Result<Command<'a>, AllocError>
    ensures { IfOk result (IsBuiltAs commands_app) }
{
    described_command(alloc, "fencer", FIRST, LAST)
        .no_binary_name(true)
        .subcommand_required(true)
        .disable_help_subcommand(true)
        .bin_name("fencer")
}

/// The command line.
fn command<'a>(alloc: Global) -> Result<Command<'a>, AllocError>
    ensures { IfOk result IsFencerCommand }
{
    let names = choice_names();
    let mut command = commands(alloc)?;
    for form in Form::all() {
        command = command.subcommand(form.command(alloc, names)?)?;
    }
    Ok(command)
}

/// The job of the command of this name, where there is such a command, its fences are at places, and its threads are numbers.
fn job_of(alloc: Global, name: &str, matches: &ArgMatches<'_>) -> Result<Option<Job>, AllocError>
    ensures some { IfOk result (λ job. IfSome job (IsJobOf name.now (rows_of (found_of matches.now)))) }
    ensures none { IfOk result (λ job. IfNone job (Contains command_names name.now → LacksPlaces (rows_of (found_of matches.now)) ⊎ LacksThreads (rows_of (found_of matches.now)))) }
{
    match name {
        "replay" => Ok(Some(replay_job(alloc, matches)?)),
        "outcomes" => outcomes_job(alloc, matches),
        "place" => Ok(Some(place_job(alloc, matches)?)),
        "trace" => Ok(Some(trace_job(alloc, matches)?)),
        "why" => Ok(Some(why_job(alloc, matches)?)),
        "gaps" => gaps_job(alloc, matches),
        "witness" => witness_job(alloc, matches),
        "survey" => Ok(Some(survey_job(alloc, matches)?)),
        _ => Ok(None),
    }
}

/// Whether two comparisons of outcomes are asked for.
fn asks_twice(matches: &ArgMatches<'_>) -> bool
    ensures { result ≡ asks_twice (rows_of (found_of matches.now)) }
{
    is_flagged(matches, "observed") && is_flagged(matches, "condition")
}

/// Whether fences are given for the sequential machine, in which none matters.
fn fences_in_vain(matches: &ArgMatches<'_>) -> bool
    ensures { result ≡ fences_in_vain (rows_of (found_of matches.now)) }
{
    has_value(matches, "model", "sequential") && value_of(matches, "fences").is_some()
}

/// How many of these names are that of the input.
fn inputs_among(names: &[&str]) -> usize
    ensures { result ≡ count_by is_input (map (λ name. name.now) names.now) }
{
    names.iter().filter(|name| **name == "-").count()
}

/// Whether more than one litmus file is the input, which is read once.
fn reads_input_twice(matches: &ArgMatches<'_>) -> bool
    ensures { result ≡ reads_input_twice (rows_of (found_of matches.now)) }
{
    match values_of(matches, "litmus") {
        Some(names) => inputs_among(names) > 1,
        None => false,
    }
}

/// The job of the subcommand that was met, unless that asks for nothing.
fn job_met(alloc: Global, matches: &ArgMatches<'_>) -> Result<Option<Job>, AllocError>
    ensures some { IfOk result (λ job. IfSome job (IsJobMet matches.now)) }
    ensures none { IfOk result (λ job. IfNone job (MeetsNoJob matches.now)) }
{
    match matches.subcommand() {
        Some((name, inner)) => {
            if asks_twice(inner) || fences_in_vain(inner) || reads_input_twice(inner) {
                Ok(None)
            } else {
                job_of(alloc, name, inner)
            }
        }
        None => Ok(None),
    }
}

/// An error of the command line.
fn command_error(alloc: Global, kind: ErrorKind, text: &str) -> Result<Error, AllocError> {
    command(alloc)?.error(kind, text)
}

/// An error of the command of a form, with its usage.
fn form_error(alloc: Global, form: Form, kind: ErrorKind, text: &str) -> Result<Error, AllocError> {
    let full_name = format!(in alloc; "fencer {}", form.name())?;
    let command = form.command(alloc, choice_names())?;
    command.bin_name(full_name.as_str())?.error(kind, text)
}

/// An error of the command of this name, with its usage.
fn error_of(alloc: Global, name: &str, kind: ErrorKind, text: &str) -> Result<Error, AllocError> {
    for form in Form::all() {
        if form.name() == name {
            return form_error(alloc, *form, kind, text);
        }
    }
    command_error(alloc, kind, text)
}

/// Why a subcommand that was met asks for no job.
fn no_job(alloc: Global, matches: &ArgMatches<'_>) -> Result<Error, AllocError> {
    match matches.subcommand() {
        Some((name, inner)) => {
            let (kind, text) = said_of(name, inner);
            error_of(alloc, name, kind, text)
        }
        None => command_error(alloc, ErrorKind::ValueValidation, FENCES),
    }
}

/// What is said of the command of this name where it asks for no job.
fn said_of(name: &str, matches: &ArgMatches<'_>) -> (ErrorKind, &'static str) {
    if asks_twice(matches) {
        (ErrorKind::ArgumentConflict, TWICE)
    } else if fences_in_vain(matches) {
        (ErrorKind::ArgumentConflict, IN_VAIN)
    } else if reads_input_twice(matches) {
        (ErrorKind::ArgumentConflict, INPUT_TWICE)
    } else if name == "gaps" {
        (ErrorKind::ValueValidation, SAME)
    } else {
        (ErrorKind::ValueValidation, FENCES)
    }
}

/// The job that arguments name.
fn job_named(alloc: Global, words: &[String]) -> Result<Job, Error>
    ensures job { IfOk result (Names (map string_bytes words.now)) }
    ensures refused { IfErr result (λ error. (kind_of error ≡ ErrorKind.OutOfMemory) ⊎ IsNoCommand (map string_bytes words.now)) }
{
    let matches = command(alloc)?.try_get_matches_from(words)?;
    match job_met(alloc, &matches)? {
        Some(job) => Ok(job),
        None => Err(no_job(alloc, &matches)?),
    }
}

/// Refuses a job that writes a file which it reads, or a file twice.
fn check_files(alloc: Global, job: &Job) -> Result<(), Error>
    ensures apart { OnOk result (has_clash (files_of job.now) ≡ false) }
    ensures clashing { IfErr result (λ error. has_clash (files_of job.now) ≡ true) }
{
    if has_clash(files_of(job)) {
        Err(command_error(alloc, ErrorKind::ArgumentConflict, CLASH)?)
    } else {
        Ok(())
    }
}

/// The job that the arguments after the program's name ask for.
pub fn read_words(alloc: Global, words: &[String]) -> Result<Job, Error>
    ensures job { IfOk result (AsksFor (map string_bytes words.now)) }
    ensures refused { IfErr result (λ error. (kind_of error ≡ ErrorKind.OutOfMemory) ⊎ IsNoCommand (map string_bytes words.now)) }
{
    let job = job_named(alloc, words)?;
    check_files(alloc, &job)?;
    Ok(job)
}
