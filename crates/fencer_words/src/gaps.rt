//! `gaps [--costs FILE] [--template] [--ties] [--same T,..] [--tries] [--json] LITMUS`

ghost use Rattle.std.specs.Prelude.{◌≡◌, IfNone, IfOk, IfSome, codes, option_map};
ghost use Rattle.clap.specs.Words.{first_of, found_of, rows_of};
ghost use Rattle.fencer_words.specs.CommandLines.{AreTiesAsked, IsJobOf, LacksThreads, asks_ties};
ghost use Rattle.fencer_words.specs.Places.{AreGivenThreads};

use crate::arguments::{is_flagged, text_given, text_in, value_of};
use crate::fences::threads_of;
use crate::job::{GapQuery, Job, TieQuery};
use clap::ArgMatches;
use std::alloc::{AllocError, Global};

pub const FIRST: &str = "Lists the gaps of a program: the places where a fence can stand";

pub const LAST: &str = "\
Prints `T:K line L INSTRUCTION` for each gap. It lies before this instruction, which is number K
of thread T, both counted from 0, and begins in line L of the text. With --costs the gap's cost
follows, and which gaps go with it.

--ties prints a cost file. A line of several gaps ties them: they are fenced together or not at
all, at one cost. Gaps are tied that likely are one line of the code which the threads run.

The status is 0 for an answer, 1 for a refusal (docs/formats.md explains each), 2 for a bad
command line or this help.

Example: fencer gaps examples/SB.litmus";

/// The threads that run the same code, where they are given. `None` where the value is no list of threads.
fn same_in(alloc: Global, matches: &ArgMatches<'_>) -> Result<Option<Option<Vec<u8>>>, AllocError>
    ensures some { IfOk result (λ found. IfSome found (λ threads. AreGivenThreads (first_of (codes "same") (rows_of (found_of matches.now))) (option_map (λ threads. threads.items) threads))) }
    ensures none { IfOk result (λ found. IfNone found (LacksThreads (rows_of (found_of matches.now)))) }
{
    match value_of(matches, "same") {
        Some(text) => match threads_of(alloc, text.as_bytes())? {
            Some(threads) => Ok(Some(Some(threads))),
            None => Ok(None),
        },
        None => Ok(Some(None)),
    }
}

/// Whether gaps are to go together.
fn asks_ties(matches: &ArgMatches<'_>) -> bool
    ensures { result ≡ asks_ties (rows_of (found_of matches.now)) }
{
    is_flagged(matches, "ties")
        || is_flagged(matches, "tries")
        || value_of(matches, "same").is_some()
}

/// Which gaps are to go together, where these threads run the same code.
fn ties_in(matches: &ArgMatches<'_>, same: Option<Vec<u8>>) -> Option<TieQuery>
    requires { AreGivenThreads (first_of (codes "same") (rows_of (found_of matches.now))) (option_map (λ threads. threads.items) same) }
    ensures { AreTiesAsked (rows_of (found_of matches.now)) result }
{
    if !asks_ties(matches) {
        return None;
    }
    Some(TieQuery {
        same,
        tries: is_flagged(matches, "tries"),
    })
}

/// The job, unless the value of `--same` is no list of threads.
pub fn gaps_job(alloc: Global, matches: &ArgMatches<'_>) -> Result<Option<Job>, AllocError>
    ensures some { IfOk result (λ job. IfSome job (IsJobOf (codes "gaps") (rows_of (found_of matches.now)))) }
    ensures none { IfOk result (λ job. IfNone job (LacksThreads (rows_of (found_of matches.now)))) }
{
    let Some(same) = same_in(alloc, matches)? else {
        return Ok(None);
    };
    Ok(Some(Job::Gaps(GapQuery {
        costs: text_given(alloc, matches, "costs")?,
        template: is_flagged(matches, "template"),
        json: is_flagged(matches, "json"),
        ties: ties_in(matches, same),
        litmus: text_in(alloc, matches, "litmus")?,
    })))
}
