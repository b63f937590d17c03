//! `why [--costs FILE] [--workers N] [--dot FILE] [--html FILE] [--observed | --condition] [--json] [--progress] LITMUS`

ghost use Rattle.std.specs.Prelude.{IfOk, codes};
ghost use Rattle.clap.specs.Words.{found_of, rows_of};
ghost use Rattle.fencer_words.specs.CommandLines.{IsJobOf};

use crate::arguments::{is_flagged, kind_in, text_given, text_in, value_in, workers_of};
use crate::job::{Job, Placement, WhyQuery};
use clap::ArgMatches;
use std::alloc::{AllocError, Global};

pub const FIRST: &str = "Shows for each fence of the answer a run that it prevents";

pub const LAST: &str = "\
Prints the answer line of `fencer place`, and for each of its gaps a run with the other gaps
fenced: `without T:K`, `run LABEL ..`, the run as a table, `outcome: ..`, `passed T:K ..`, and
that no sequential run has this outcome. Without a gap it prints that store buffers add nothing to
what is compared.

A program that is wrong on a sequential machine too gets an answer: see first whether its condition
holds with `fencer outcomes --model sequential`.

The status is 0 for an answer, 1 for a refusal (docs/formats.md explains each), 2 for a bad
command line or this help.

Example: fencer why --html SB.html examples/SB.litmus";

pub fn why_job(alloc: Global, matches: &ArgMatches<'_>) -> Result<Job, AllocError>
    ensures { IfOk result (IsJobOf (codes "why") (rows_of (found_of matches.now))) }
{
    let placement = Placement {
        costs: text_given(alloc, matches, "costs")?,
        workers: workers_of(value_in(matches, "workers")),
        trees: None,
        certificate: None,
        output: None,
        insert: None,
        kind: kind_in(matches),
        check: false,
        json: is_flagged(matches, "json"),
        progress: is_flagged(matches, "progress"),
        litmus: text_in(alloc, matches, "litmus")?,
    };
    Ok(Job::Why(WhyQuery {
        placement,
        graphs: text_given(alloc, matches, "dot")?,
        page: text_given(alloc, matches, "html")?,
    }))
}
