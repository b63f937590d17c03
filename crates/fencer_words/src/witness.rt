//! `witness [--model MODEL] [--not] [--fences T:K,..] [--dot FILE] [--html FILE] [--check] [--json] [--progress] LITMUS`

ghost use Rattle.std.specs.Prelude.{IfNone, IfOk, IfSome, codes};
ghost use Rattle.clap.specs.Words.{found_of, rows_of};
ghost use Rattle.fencer_words.specs.CommandLines.{IsJobOf, LacksPlaces};

use crate::arguments::{is_flagged, model_in, text_given, text_in};
use crate::fences::fences_in;
use crate::job::{Job, WitnessQuery};
use clap::ArgMatches;
use std::alloc::{AllocError, Global};

pub const FIRST: &str =
    "Shows a run whose outcome meets the condition's formula, or that there is none";

pub const LAST: &str = "\
Prints `run LABEL ..`, the run as a table, `outcome: ..` and `passed T:K ..`, as `fencer trace`
does of these labels; or `No run meets the condition's formula.`, with --not `Every run meets the
condition's formula.` The formula alone counts: for `~exists` the run is what must not happen.

The status is 0 for an answer, 1 for a refusal (docs/formats.md explains each), 2 for a bad
command line or this help, 3 with --check for a run that is shown.

Example: fencer witness --fences 0:1 examples/SB.litmus";

/// The job, unless the value of `--fences` is no list of places.
pub fn witness_job(alloc: Global, matches: &ArgMatches<'_>) -> Result<Option<Job>, AllocError>
    ensures some { IfOk result (λ job. IfSome job (IsJobOf (codes "witness") (rows_of (found_of matches.now)))) }
    ensures none { IfOk result (λ job. IfNone job (LacksPlaces (rows_of (found_of matches.now)))) }
{
    match fences_in(alloc, matches)? {
        Some(fences) => Ok(Some(Job::Witness(WitnessQuery {
            model: model_in(matches),
            meets: !is_flagged(matches, "not"),
            fences,
            graph: text_given(alloc, matches, "dot")?,
            page: text_given(alloc, matches, "html")?,
            check: is_flagged(matches, "check"),
            json: is_flagged(matches, "json"),
            progress: is_flagged(matches, "progress"),
            litmus: text_in(alloc, matches, "litmus")?,
        }))),
        None => Ok(None),
    }
}
