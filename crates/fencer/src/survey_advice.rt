//! What is said to people of what sequential runs do, on standard error.

use answers::report_verdict;
use documents::Note;
use fencer_words::Placement;
use litmus_text::read_litmus;
use messages::{Message, file_or_input};
use program_streams::Progress;
use search_effort::{combinations_text, warn_of_minutes};
use std::alloc::{AllocError, Global};
use std::str;
use survey_text::{Stretch, SurveyText, Unexecuted, unexecuted_in};
use tso_program::{Program, ShownKind};

/// From so many states steps are followed at most for what `place` and `why` say beside an answer: seven threads' take 0.2 s in an
/// unproved build.
const MOST_STATES: usize = 50_000;

/// `fencer: NAME: TEXT` as one line, of the file of this name.
pub(crate) fn file_message(alloc: Global, name: &str, text: &str) -> Result<Vec<u8>, AllocError> {
    let name = file_or_input(name);
    let text = format!(in alloc; "{name}: {text}")?;
    Message::of_file(alloc, "fencer", text.as_str())?.written(alloc, false)
}

/// Reports how many combinations of traces the program of a file has, whether or not progress is, and warns where a search may
/// take minutes. Of a text that is not read nothing is reported.
pub(crate) fn report_extent(alloc: Global, name: &str, text: &[u8], progress: Progress) {
    if let Ok(litmus) = read_litmus(alloc, text) {
        let progress = progress.asked(true);
        progress.report(combinations_message(alloc, name, &litmus.program));
        warn_of_minutes(alloc, &litmus.program, progress);
    }
}

fn combinations_message(
    alloc: Global,
    name: &str,
    program: &Program,
) -> Result<Vec<u8>, AllocError> {
    let text = combinations_text(alloc, program)?;
    file_message(alloc, name, text.as_str())
}

/// One number after a word, or the first and the last of several: `line 9`, `lines 9 and 10`, `lines 9 to 11`.
fn numbered(alloc: Global, word: &str, first: u32, last: u32) -> Result<String, AllocError> {
    match last.saturating_sub(first) {
        0 => format!(in alloc; "{word} {first}"),
        1 => format!(in alloc; "{word}s {first} and {last}"),
        _ => format!(in alloc; "{word}s {first} to {last}"),
    }
}

/// `lines 9 to 11 of P1 (its instructions 4 to 6)`
fn stretch_text(alloc: Global, stretch: &Stretch) -> Result<String, AllocError> {
    let lines = numbered(alloc, "line", stretch.first_line, stretch.last_line)?;
    let lines = lines.as_str();
    let first = u32::from(stretch.first);
    let last = u32::from(stretch.last);
    let own = numbered(alloc, "instruction", first, last)?;
    let own = own.as_str();
    let thread = stretch.thread;
    format!(in alloc; "{lines} of P{thread} (its {own})")
}

/// What stands before a stretch of so many, of which so many stand before it.
fn link(before: usize, count: usize) -> &'static str {
    if before == 0 {
        ""
    } else if before.saturating_add(1) < count {
        ", "
    } else {
        " and "
    }
}

/// The stretches, as a list in a sentence.
fn stretches_text(alloc: Global, stretches: &[Stretch]) -> Result<String, AllocError> {
    let mut text = String::new(alloc);
    for (number, stretch) in stretches.iter().enumerate() {
        text.push_str(link(number, stretches.len()))?;
        text.push_str(stretch_text(alloc, stretch)?.as_str())?;
    }
    Ok(text)
}

/// What the condition's verdict may rest on, if more runs could change it.
fn reason(unexecuted: &Unexecuted) -> &'static str {
    if !unexecuted.counts {
        ""
    } else if unexecuted.holds {
        ": the condition may hold for that reason alone"
    } else {
        ": the condition may fail for that reason alone"
    }
}

/// Which instructions of a file's program no sequential run executes; nothing where each is executed.
pub(crate) fn unexecuted_advice(
    alloc: Global,
    name: &str,
    unexecuted: &Unexecuted,
) -> Result<Vec<u8>, AllocError> {
    if unexecuted.stretches.is_empty() {
        return Ok(Vec::new(alloc));
    }
    let stretches = stretches_text(alloc, unexecuted.stretches.as_slice())?;
    let stretches = stretches.as_str();
    let reason = reason(unexecuted);
    let text = format!(in alloc; "no sequential run executes {stretches}{reason}")?;
    file_message(alloc, name, text.as_str())
}

/// That advice for a litmus text of whose condition it is known whether a sequential run decides it; nothing where steps from
/// more than `MOST_STATES` states have to be followed.
fn unexecuted_message(
    alloc: Global,
    name: &str,
    text: &[u8],
    decided: bool,
) -> Result<Vec<u8>, AllocError> {
    match unexecuted_in(alloc, text, decided, MOST_STATES)? {
        Some(unexecuted) => unexecuted_advice(alloc, name, &unexecuted),
        None => Ok(Vec::new(alloc)),
    }
}

/// Reports beside an answer what sequential runs decide, by its verdict, and where the condition's truth alone is compared also
/// which instructions none of them executes. It is said whether or not progress is.
pub(crate) fn report_sequential(
    alloc: Global,
    asked: &Placement,
    text: &[u8],
    verdict: Option<&Note>,
    progress: Progress,
) {
    let name = asked.litmus.as_str();
    report_verdict(alloc, name, text, verdict, progress);
    if matches!(asked.kind, ShownKind::Condition) {
        let message = unexecuted_message(alloc, name, text, verdict.is_some());
        progress.asked(true).report(message);
    }
}

/// What sequential runs say of a file's condition; nothing where they decide nothing.
pub(crate) fn verdict_advice(
    alloc: Global,
    name: &str,
    told: &SurveyText,
) -> Result<Vec<u8>, AllocError> {
    let Some(note) = &told.verdict else {
        return Ok(Vec::new(alloc));
    };
    match str::from_utf8(&note.message) {
        Ok(said) => file_message(alloc, name, said),
        Err(_) => Ok(Vec::new(alloc)),
    }
}
