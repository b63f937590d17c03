//! `outcomes [--model MODEL] [--fences T:K,..] [--workers N] [--runs] [--observed] [--check] [--json] [--progress] LITMUS`

ghost use Rattle.std.specs.Prelude.{IfNone, IfOk, IfSome, codes};
ghost use Rattle.clap.specs.Words.{found_of, rows_of};
ghost use Rattle.fencer_words.specs.CommandLines.{IsJobOf, LacksPlaces};

use crate::arguments::{is_flagged, model_in, text_in, value_in, workers_of};
use crate::fences::fences_in;
use crate::job::{Job, OutcomeQuery};
use clap::ArgMatches;
use std::alloc::{AllocError, Global};

pub const FIRST: &str =
    "Lists each outcome of a program once, and what the list shows of its condition";

pub const LAST: &str = "\
Prints `outcomes N`, a line `outcome: ..` for each in ascending order, with --runs each followed by
a line `run LABEL ..`, and `observation ..` and `condition ..`. Threads share a long search, at
most as many as there are workers.

The status is 0 for an answer, 1 for a refusal (docs/formats.md explains each), 2 for a bad
command line or this help, 3 with --check for a condition that fails.

Example: fencer outcomes --model sequential examples/SB.litmus";

/// The job, unless the value of `--fences` is no list of places.
pub fn outcomes_job(alloc: Global, matches: &ArgMatches<'_>) -> Result<Option<Job>, AllocError>
    ensures some { IfOk result (λ job. IfSome job (IsJobOf (codes "outcomes") (rows_of (found_of matches.now)))) }
    ensures none { IfOk result (λ job. IfNone job (LacksPlaces (rows_of (found_of matches.now)))) }
{
    match fences_in(alloc, matches)? {
        Some(fences) => Ok(Some(Job::Outcomes(OutcomeQuery {
            model: model_in(matches),
            fences,
            workers: workers_of(value_in(matches, "workers")),
            runs: is_flagged(matches, "runs"),
            observed: is_flagged(matches, "observed"),
            check: is_flagged(matches, "check"),
            json: is_flagged(matches, "json"),
            progress: is_flagged(matches, "progress"),
            litmus: text_in(alloc, matches, "litmus")?,
        }))),
        None => Ok(None),
    }
}
