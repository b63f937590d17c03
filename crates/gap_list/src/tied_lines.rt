//! In which lines of a text the gaps of ties stand, for people. No clause rests on it.
use crate::text_lines::TextLines;
use gap_sets::{GapSet, Ties};
use std::alloc::{AllocError, Global};
use tso_program::Program;

/// Adds words as a list: with commas between them, and `and` before the last.
fn push_listed(out: &mut Vec<u8>, words: &[Vec<u8>]) -> Result<(), AllocError> {
    for (number, word) in words.iter().enumerate() {
        if number > 0 {
            let is_last = number.saturating_add(1) == words.len();
            let between: &[u8] = if is_last { b" and " } else { b", " };
            out.extend_from_slice(between)?;
        }
        out.extend_from_slice(word)?;
    }
    Ok(())
}

/// The threads whose gaps of a tie stand in this line, and whether this gap is the first of them.
fn threads_at(
    alloc: Global,
    program: &Program,
    tie: &GapSet,
    lines: &TextLines,
    line: u32,
) -> Result<Vec<Vec<u8>>, AllocError> {
    let mut threads = Vec::new(alloc);
    for gap in tie.iter() {
        if line_of(program, lines, gap) == line {
            if let Some((thread, _)) = program.gap_place(gap) {
                threads.push(format!(in alloc; "P{thread}")?.into_bytes())?;
            }
        }
    }
    Ok(threads)
}

/// The line in which the instruction after a gap stands.
fn line_of(program: &Program, lines: &TextLines, gap: u8) -> u32 {
    match program.gap_place(gap) {
        Some((t, k)) => lines.line(t, k as usize),
        None => 0,
    }
}

/// Whether no lesser gap of the tie stands in the gap's line.
fn is_first_there(program: &Program, tie: &GapSet, lines: &TextLines, gap: u8) -> bool {
    for other in tie.iter() {
        if other < gap && line_of(program, lines, other) == line_of(program, lines, gap) {
            return false;
        }
    }
    true
}

/// Where the gaps of a tie lie: `before line 9 in P0, P1 and P2`, and so each line.
fn places_of(
    alloc: Global,
    program: &Program,
    tie: &GapSet,
    lines: &TextLines,
) -> Result<Vec<u8>, AllocError> {
    let mut places = Vec::new(alloc);
    for gap in tie.iter() {
        if is_first_there(program, tie, lines, gap) {
            let line = line_of(program, lines, gap);
            let mut place = format!(in alloc; "before line {line} in ")?.into_bytes();
            let threads = threads_at(alloc, program, tie, lines, line)?;
            push_listed(&mut place, threads.as_slice())?;
            places.push(place)?;
        }
    }
    let mut out = Vec::new(alloc);
    push_listed(&mut out, places.as_slice())?;
    Ok(out)
}

/// The gaps of a tie, and where they lie.
fn tie_line(
    alloc: Global,
    program: &Program,
    tie: &GapSet,
    lines: &TextLines,
) -> Result<Vec<u8>, AllocError> {
    let mut line = Vec::new(alloc);
    for gap in tie.iter() {
        if let Some((thread, k)) = program.gap_place(gap) {
            let place = format!(in alloc; "{thread}:{k} ")?;
            line.extend_from_slice(place.as_bytes())?;
        }
    }
    let places = places_of(alloc, program, tie, lines)?;
    line.extend_from_slice(&places)?;
    line.push(b'\n')?;
    Ok(line)
}

/// A line for each tie of several of these gaps: the gaps, and in which lines of the text the instructions after them stand.
pub fn tie_lines(
    alloc: Global,
    text: &[u8],
    program: &Program,
    ties: &Ties,
    gaps: &GapSet,
) -> Result<Vec<Vec<u8>>, AllocError> {
    let lines = TextLines::of_text(alloc, text)?;
    let mut told = Vec::new(alloc);
    let names = ties.names_in(gaps);
    names.recall_facts();
    for name in names.iter() {
        let tie = ties.spread(&GapSet::empty().with(name));
        if tie.len() > 1 {
            told.push(tie_line(alloc, program, &tie, &lines)?)?;
        }
    }
    Ok(told)
}
