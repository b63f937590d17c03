//! Calls of `litmus_text`.

use crate::input::{byte_of, push_bytes, split_at_byte};
use crate::refusal::TextRefusal;
use gap_sets::{GapSet, MAX_GAPS};
use litmus_text::{Litmus, write_litmus};
use std::alloc::Global;
use tso_program::Program;

/// The gap of a place `t:k` that the program has; or the gap of a number.
fn gap_of(program: &Program, word: &[u8]) -> Option<u8> {
    let (first, second) = split_at_byte(word, b':');
    let number = byte_of(first).ok()?;
    if second.is_empty() {
        return Some(number);
    }
    program.gap_number(number, byte_of(second).ok()?)
}

/// The set of the gaps that words name, by places or by numbers; what is neither is not looked at.
pub fn gaps_of(program: &Program, words: &[&[u8]]) -> GapSet {
    let mut gaps = GapSet::empty();
    for word in words {
        let gap = gap_of(program, word).unwrap_or(MAX_GAPS);
        if gap < MAX_GAPS {
            gaps = gaps.with(gap);
        }
    }
    gaps
}

/// The canonical text of a test with fences in the gaps that are given.
pub fn push_canonical(
    alloc: Global,
    words: &[&[u8]],
    litmus: &Litmus<Program>,
    printed: &mut String,
) -> Result<(), TextRefusal> {
    let gaps = gaps_of(&litmus.program, words);
    let text = write_litmus(alloc, litmus, &gaps)?;
    Ok(push_bytes(printed, &text)?)
}
