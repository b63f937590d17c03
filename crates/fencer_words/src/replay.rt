//! `replay [--model MODEL] LITMUS [LABEL..]`

ghost use Rattle.std.specs.Prelude.{◌≡◌, IfOk, codes, map, string_bytes};
ghost use Rattle.clap.specs.Words.{found_of, rows_of};
ghost use Rattle.fencer_words.specs.CommandLines.{texts_in, IsJobOf, IsRunAsked};

use crate::arguments::{model_in, text_in, values_of};
use crate::job::{Job, Run};
use clap::ArgMatches;
use std::alloc::{AllocError, Global};

pub const FIRST: &str = "Replays a run of a program: its outcome, and the gaps that it passes";

pub const LAST: &str = "\
Prints `outcome: ..` and `passed T:K ..`: the run passes the gaps where a fence would wait.

The status is 0 for an answer, 1 for a refusal (docs/formats.md explains each), 2 for a bad
command line or this help.

Example: fencer replay examples/SB.litmus e0 e1 e0 e1 f0 f1";

pub fn owned(alloc: Global, words: &[&str]) -> Result<Vec<String>, AllocError>
    ensures { IfOk result (λ all. map string_bytes all.items ≡ map (λ word. word.now) words.now) }
{
    let mut all = Vec::new(alloc);
    for word in words {
        all.push(String::from_str(alloc, word)?)?;
    }
    Ok(all)
}

fn labels_in(alloc: Global, matches: &ArgMatches<'_>) -> Result<Vec<String>, AllocError>
    ensures { IfOk result (λ labels. map string_bytes labels.items ≡ texts_in (codes "label") (rows_of (found_of matches.now))) }
{
    match values_of(matches, "label") {
        Some(words) => owned(alloc, words),
        None => Ok(Vec::new(alloc)),
    }
}

/// The run that is asked about.
pub fn run_in(alloc: Global, matches: &ArgMatches<'_>) -> Result<Run, AllocError>
    ensures { IfOk result (IsRunAsked (rows_of (found_of matches.now))) }
{
    Ok(Run {
        model: model_in(matches),
        litmus: text_in(alloc, matches, "litmus")?,
        labels: labels_in(alloc, matches)?,
    })
}

pub fn replay_job(alloc: Global, matches: &ArgMatches<'_>) -> Result<Job, AllocError>
    ensures { IfOk result (IsJobOf (codes "replay") (rows_of (found_of matches.now))) }
{
    Ok(Job::Replay(run_in(alloc, matches)?))
}
