//! The parts of a thread that are likely one part of its source, tried again. No clause rests on it.
use crate::alignment::Pair;
use crate::shapes::{are_one_line, is_decided, is_look};
use std::alloc::{AllocError, Global};
use tso_program::Instr;

/// Whether the part of this length that begins at a place is a try that comes again right after it.
fn comes_again(code: &[Instr], from: usize, length: usize) -> bool {
    if !is_try(code, from, length) {
        return false;
    }
    for at in from..from.saturating_add(length) {
        let (Some(first), Some(second)) = (code.get(at), code.get(at.saturating_add(length))) else {
            return false;
        };
        if !are_one_line(*first, *second) {
            return false;
        }
    }
    true
}

/// Whether the part of this length begins with a look at memory, and ends with a jump that a condition decides.
fn is_try(code: &[Instr], from: usize, length: usize) -> bool {
    let last = from.saturating_add(length).saturating_sub(1);
    match (code.get(from), code.get(last)) {
        (Some(first), Some(last)) => is_look(*first) && is_decided(*last),
        _ => false,
    }
}

/// The length of the shortest part that begins at a place and comes again right after it.
fn shortest_try(code: &[Instr], from: usize) -> Option<usize> {
    for length in 1..code.len() {
        if comes_again(code, from, length) {
            return Some(length);
        }
    }
    None
}

/// The instructions of a thread that are likely one line, tried again: each with the one in the next try.
pub(crate) fn tries_in(alloc: Global, code: &[Instr]) -> Result<Vec<Pair>, AllocError> {
    let mut pairs = Vec::new(alloc);
    let mut from = 0usize;
    for _ in 0..code.len() {
        match shortest_try(code, from) {
            Some(length) => {
                push_pairs(&mut pairs, from, length)?;
                from = from.saturating_add(length);
            }
            None => from = from.saturating_add(1),
        }
    }
    Ok(pairs)
}

fn push_pairs(pairs: &mut Vec<Pair>, from: usize, length: usize) -> Result<(), AllocError> {
    for first in from..from.saturating_add(length) {
        let second = first.saturating_add(length);
        pairs.push(Pair { first, second })?;
    }
    Ok(())
}
