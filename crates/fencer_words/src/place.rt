//! `place [--costs FILE] [--workers N] [--trees RULE] [--certificate FILE] [--output FILE] [--insert FILE] [--observed | --condition] [--check] [--json] [--progress] LITMUS`

ghost use Rattle.std.specs.Prelude.{IfOk, codes};
ghost use Rattle.clap.specs.Words.{found_of, rows_of};
ghost use Rattle.fencer_words.specs.CommandLines.{IsJobOf};

use crate::arguments::{is_flagged, kind_in, text_given, text_in, trees_in, value_in, workers_of};
use crate::job::{Job, Placement};
use clap::ArgMatches;
use std::alloc::{AllocError, Global};

pub const FIRST: &str =
    "Places the cheapest fences with which a program behaves as under sequential consistency";

pub const LAST: &str = "\
Prints `answer cost N set T:K ..`, and the program with an MFENCE in each of these gaps. The gap
T:K lies before instruction K of thread T, both counted from 0; `fencer gaps` lists the gaps. A
file that is written is replaced; it may not be one that is read.

A program that is wrong on a sequential machine too gets an answer: fences only take away what the
buffers add. See first whether its condition holds with `fencer outcomes --model sequential`.

The status is 0 for an answer, 1 for a refusal (docs/formats.md explains each), 2 for a bad
command line or this help, 3 with --check where the program needs a fence.

Example: fencer place --certificate SB.cert examples/SB.litmus";

pub fn place_job(alloc: Global, matches: &ArgMatches<'_>) -> Result<Job, AllocError>
    ensures { IfOk result (IsJobOf (codes "place") (rows_of (found_of matches.now))) }
{
    Ok(Job::Place(Placement {
        costs: text_given(alloc, matches, "costs")?,
        workers: workers_of(value_in(matches, "workers")),
        trees: trees_in(matches),
        certificate: text_given(alloc, matches, "certificate")?,
        output: text_given(alloc, matches, "output")?,
        insert: text_given(alloc, matches, "insert")?,
        kind: kind_in(matches),
        check: is_flagged(matches, "check"),
        json: is_flagged(matches, "json"),
        progress: is_flagged(matches, "progress"),
        litmus: text_in(alloc, matches, "litmus")?,
    }))
}
