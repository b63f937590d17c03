//! What lies ahead of a search over whole trees, reported to people. No clause rests on it.

use program_streams::{Progress, grouped};
use std::alloc::{AllocError, Global};
use thread_traces::{Combinations, trace_combinations};
use tso_program::Program;

/// The most traces that are counted. Those of threads of 64 instructions take a fraction of a second.
const MOST_COUNTED: u32 = 100_000;

/// Of more combinations a certificate may be too large to be made.
const MOST_CERTIFIED: u32 = 100_000_000;

/// Reports what lies ahead of a search over whole trees, and returns where more of it is reported. Nothing is where there is no
/// memory to work it out.
pub fn report_ahead(alloc: Global, program: &Program, progress: Progress) -> Progress {
    if !progress.is_shown() {
        return progress;
    }
    let Ok(combinations) = trace_combinations(alloc, program, MOST_COUNTED) else {
        return Progress::none();
    };
    progress.report(ahead_line(alloc, combinations));
    if combinations.is_over(MOST_CERTIFIED) {
        progress.warn(warning_line(alloc));
    }
    progress
}

/// How many combinations of traces a program has, for people.
pub fn combinations_text(alloc: Global, program: &Program) -> Result<String, AllocError> {
    text_of(alloc, trace_combinations(alloc, program, MOST_COUNTED)?)
}

fn text_of(alloc: Global, combinations: Combinations) -> Result<String, AllocError> {
    let (count, more) = match combinations {
        Combinations::Exactly(count) => (count, ""),
        Combinations::AtLeast(count) => (count, " or more"),
    };
    let count = grouped(alloc, count)?;
    format!(in alloc; "combinations of traces: {count}{more}")
}

fn ahead_line(alloc: Global, combinations: Combinations) -> Result<Vec<u8>, AllocError> {
    let text = text_of(alloc, combinations)?;
    let text = text.as_str();
    Ok(format!(in alloc; "fencer: {text}\n")?.into_bytes())
}

fn warning_line(alloc: Global) -> Result<Vec<u8>, AllocError> {
    Vec::from_slice(
        alloc,
        b"fencer: warning: with more than 100,000,000 combinations the search may end without an answer or a certificate\n",
    )
}
