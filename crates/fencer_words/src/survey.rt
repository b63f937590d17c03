//! `survey [--workers N] [--allow-unexecuted] [--ties] [--json] LITMUS..`

ghost use Rattle.std.specs.Prelude.{◌≡◌, IfOk, codes, map, string_bytes};
ghost use Rattle.clap.specs.Words.{found_of, rows_of};
ghost use Rattle.fencer_words.specs.CommandLines.{texts_in, IsJobOf};

use crate::arguments::{is_flagged, value_in, values_of, workers_of};
use crate::job::{Job, SurveyOptions, SurveyQuery};
use crate::replay::owned;
use clap::ArgMatches;
use std::alloc::{AllocError, Global};

pub const FIRST: &str = "Says of each file what one look at its program finds";

pub const LAST: &str = "\
Prints for each file `file NAME`; `sequential condition ..` and `buffered condition ..`, whether
the condition holds sequentially, and with store buffers and no fence; `unexecuted T:K line L
INSTRUCTION` for each instruction that no sequential run executes; and the answers of `fencer place
--condition` and of `fencer place`, each with `fence T:K line L, before INSTRUCTION` for each of
its fences. A file that is refused has its refusal, and the others go on. With --json each file has
a document, on a line of its own. With --ties gaps are fenced together or not at all, at the cost of
one, where they likely are one line of the source: those of threads that run the same code, and of
tries; fencer gaps --ties --tries prints the cost file of this.

The status is 0 for an answer, 1 where a file is refused (docs/formats.md explains each), 2 for a
bad command line or this help, 3 where a condition fails sequentially or, without
--allow-unexecuted, an instruction is executed by no sequential run.

Example: fencer survey examples/SB.litmus examples/n6.litmus";

/// The names of the litmus files.
fn files_in(alloc: Global, matches: &ArgMatches<'_>) -> Result<Vec<String>, AllocError>
    ensures { IfOk result (λ files. map string_bytes files.items ≡ texts_in (codes "litmus") (rows_of (found_of matches.now))) }
{
    match values_of(matches, "litmus") {
        Some(names) => owned(alloc, names),
        None => Ok(Vec::new(alloc)),
    }
}

pub fn survey_job(alloc: Global, matches: &ArgMatches<'_>) -> Result<Job, AllocError>
    ensures { IfOk result (IsJobOf (codes "survey") (rows_of (found_of matches.now))) }
{
    let options = SurveyOptions {
        workers: workers_of(value_in(matches, "workers")),
        allow_unexecuted: is_flagged(matches, "allow-unexecuted"),
        ties: is_flagged(matches, "ties"),
        json: is_flagged(matches, "json"),
    };
    Ok(Job::Survey(SurveyQuery {
        options,
        files: files_in(alloc, matches)?,
    }))
}
