//! Stretches of instructions that no sequential run executes, for people. No clause rests on them.

use crate::survey::Survey;
use crate::visit::{unexecuted_places, unexecuted_within};
use gap_list::TextLines;
use litmus_text::{Quantifier, read_litmus};
use std::alloc::{AllocError, Global};

/// Instructions of a thread, one after the other, of which no sequential run executes any, and the lines of the text in which
/// the first and the last begin.
#[derive(Clone, Copy)]
pub struct Stretch {
    pub thread: u8,
    pub first: u8,
    pub last: u8,
    pub first_line: u32,
    pub last_line: u32,
}

/// Which instructions no sequential run executes, and what the condition's verdict owes to that.
#[derive(Drop)]
pub struct Unexecuted {
    pub stretches: Vec<Stretch>,
    /// Whether the verdict may be what it is for that reason.
    pub counts: bool,
    /// Whether the condition holds sequentially.
    pub holds: bool,
}

/// Whether an instruction is the next one after a stretch.
fn follows(stretches: &[Stretch], place: (u8, u8)) -> bool {
    let (thread, instruction) = place;
    match stretches.last() {
        Some(stretch) => {
            stretch.thread == thread
                && instruction > stretch.last
                && instruction - stretch.last == 1
        }
        None => false,
    }
}

/// Adds an instruction: to the last stretch where it follows it, or else as one of its own.
fn add_place(
    stretches: &mut Vec<Stretch>,
    lines: &TextLines,
    place: (u8, u8),
) -> Result<(), AllocError> {
    let (thread, instruction) = place;
    let line = lines.line(thread, instruction as usize);
    let mut stretch = Stretch {
        thread,
        first: instruction,
        last: instruction,
        first_line: line,
        last_line: line,
    };
    if follows(stretches, place) {
        if let Some(before) = stretches.pop() {
            stretch.first = before.first;
            stretch.first_line = before.first_line;
        }
    }
    stretches.push(stretch)?;
    Ok(())
}

/// The stretches of these instructions.
fn stretches_of(
    alloc: Global,
    lines: &TextLines,
    places: &[(u8, u8)],
) -> Result<Vec<Stretch>, AllocError> {
    let mut stretches = Vec::new(alloc);
    for place in places {
        add_place(&mut stretches, lines, *place)?;
    }
    Ok(stretches)
}

/// Whether more runs could change the condition's verdict: where `exists` fails, and where `~exists` or `forall` holds.
fn could_change(quantifier: Quantifier, holds: bool) -> bool {
    match quantifier {
        Quantifier::Exists => !holds,
        Quantifier::NotExists | Quantifier::Forall => holds,
    }
}

/// These instructions, which no sequential run executes, for a condition that holds sequentially or fails.
fn unexecuted_at(
    alloc: Global,
    lines: &TextLines,
    places: &[(u8, u8)],
    quantifier: Quantifier,
    holds: bool,
) -> Result<Unexecuted, AllocError> {
    Ok(Unexecuted {
        stretches: stretches_of(alloc, lines, places)?,
        counts: could_change(quantifier, holds),
        holds,
    })
}

/// What no sequential run executes of a program.
pub(crate) fn unexecuted_of(
    alloc: Global,
    lines: &TextLines,
    survey: &Survey,
) -> Result<Unexecuted, AllocError> {
    let quantifier = survey.litmus.condition.quantifier;
    let places = unexecuted_places(alloc, &survey.visits)?;
    unexecuted_at(alloc, lines, &places, quantifier, survey.sequential)
}

/// What no sequential run executes of the program of a litmus text, where it is known whether a sequential run decides the
/// condition; nothing where steps from more than so many states have to be followed, or where the text is not read. No clause
/// speaks of it; `unexecuted_within` has the instructions.
pub fn unexecuted_in(
    alloc: Global,
    text: &[u8],
    decided: bool,
    most: usize,
) -> Result<Option<Unexecuted>, AllocError> {
    let lines = TextLines::of_text(alloc, text)?;
    let Ok(litmus) = read_litmus(alloc, text) else {
        return Ok(None);
    };
    let quantifier = litmus.condition.quantifier;
    let holds = decided == matches!(quantifier, Quantifier::Exists);
    match unexecuted_within(alloc, &litmus.program, most)? {
        Some(places) => Ok(Some(unexecuted_at(alloc, &lines, &places, quantifier, holds)?)),
        None => Ok(None),
    }
}
