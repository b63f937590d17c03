//! `trace [--model MODEL] [--dot FILE] [--html FILE] [--json] LITMUS [LABEL..]`

ghost use Rattle.std.specs.Prelude.{IfOk, codes};
ghost use Rattle.clap.specs.Words.{found_of, rows_of};
ghost use Rattle.fencer_words.specs.CommandLines.{IsJobOf};

use crate::arguments::{is_flagged, text_given};
use crate::job::{Job, TraceQuery};
use crate::replay::run_in;
use clap::ArgMatches;
use std::alloc::{AllocError, Global};

pub const FIRST: &str = "Shows a run of a program as a table, a line a step";

pub const LAST: &str = "\
Prints for each step its thread, its instruction, what it reads and from where, what it stores,
which stores then wait in the thread's buffer, and what reaches memory; then the two lines of
`fencer replay`.

The status is 0 for an answer, 1 for a refusal (docs/formats.md explains each), 2 for a bad
command line or this help.

Example: fencer trace examples/SB.litmus e0 e1 e0 e1 f0 f1";

pub fn trace_job(alloc: Global, matches: &ArgMatches<'_>) -> Result<Job, AllocError>
    ensures { IfOk result (IsJobOf (codes "trace") (rows_of (found_of matches.now))) }
{
    Ok(Job::Trace(TraceQuery {
        run: run_in(alloc, matches)?,
        graph: text_given(alloc, matches, "dot")?,
        page: text_given(alloc, matches, "html")?,
        json: is_flagged(matches, "json"),
    }))
}
