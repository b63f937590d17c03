//! Calls of `gap_sets`.

use crate::input::{byte_at, gap_set_at, numbers_of, word_at};
use crate::refusal::TextRefusal;
use gap_sets::{Costs, GapSet, MAX_GAPS};
use std::alloc::{AllocError, Global};

/// The gaps of a set, ascending.
pub fn push_gaps(alloc: Global, gaps: &GapSet, printed: &mut String) -> Result<(), AllocError> {
    let numbers: Vec<u8> = gaps.iter().collect(alloc)?;
    write!(printed, "{numbers:?}\n")
}

fn push_named_gaps(
    alloc: Global,
    name: &str,
    gaps: &GapSet,
    printed: &mut String,
) -> Result<(), AllocError> {
    printed.push_str(name)?;
    push_gaps(alloc, gaps, printed)
}

/// The set with a gap more, and with one less.
fn push_changed(
    alloc: Global,
    gaps: &GapSet,
    gap: u8,
    printed: &mut String,
) -> Result<(), AllocError> {
    if gap >= MAX_GAPS {
        return Ok(());
    }
    push_named_gaps(alloc, "with ", &gaps.with(gap), printed)?;
    push_named_gaps(alloc, "without ", &gaps.without(gap), printed)
}

/// What a set and a gap have to do with each other.
fn push_set(gaps: &GapSet, gap: u8, printed: &mut String) -> Result<(), AllocError> {
    let (length, empty, has) = (gaps.len(), gaps.is_empty(), gaps.has(gap));
    write!(printed, "length {length} empty {empty} has {has}\n")
}

/// What two sets have to do with each other.
fn push_pair(gaps: &GapSet, other: &GapSet, printed: &mut String) -> Result<(), AllocError> {
    write!(
        printed,
        "meets {} holds all {} same {} {}\n",
        gaps.meets(other),
        gaps.holds_all(other),
        gaps.same(other),
        *gaps == *other
    )
}

fn push_all(
    alloc: Global,
    gaps: &GapSet,
    other: &GapSet,
    gap: u8,
    printed: &mut String,
) -> Result<(), AllocError> {
    push_named_gaps(alloc, "gaps ", gaps, printed)?;
    push_set(gaps, gap, printed)?;
    push_changed(alloc, gaps, gap, printed)?;
    push_pair(gaps, other, printed)
}

/// What a set, another set and a gap have to do with each other.
pub fn push_sets(alloc: Global, words: &[&[u8]], printed: &mut String) -> Result<(), TextRefusal> {
    let gaps = gap_set_at(alloc, words, 0)?;
    let other = gap_set_at(alloc, words, 1)?;
    let gap = byte_at(words, 2)?;
    Ok(push_all(alloc, &gaps, &other, gap, printed)?)
}

/// The costs whose numbers the word with this index has.
pub fn costs_at(alloc: Global, words: &[&[u8]], index: usize) -> Result<Costs, TextRefusal> {
    let numbers = numbers_of(alloc, word_at(words, index)?)?;
    Ok(Costs::new(alloc, &numbers)?)
}

/// What costs say of themselves.
fn push_costs(costs: &Costs, printed: &mut String) -> Result<(), AllocError> {
    write!(
        printed,
        "costs {:?} length {} empty {}\n",
        costs.as_slice(),
        costs.len(),
        costs.is_empty()
    )
}

/// What a copy of costs says of them and of other costs.
fn push_copy(
    copy: &Costs,
    costs: &Costs,
    other: &Costs,
    printed: &mut String,
) -> Result<(), AllocError> {
    write!(
        printed,
        "copy {:?} same {} other {}\n",
        copy.as_slice(),
        copy.same(costs),
        copy.same(other)
    )
}

/// What costs say of two sets and of a gap.
fn push_totals(
    costs: &Costs,
    first: &GapSet,
    second: &GapSet,
    gap: u8,
    printed: &mut String,
) -> Result<(), AllocError> {
    write!(
        printed,
        "gap {:?} totals {} {} better {}\n",
        costs.cost_of(gap),
        costs.total(first),
        costs.total(second),
        costs.better(first, second)
    )
}

fn push_totals_of(
    alloc: Global,
    costs: &Costs,
    words: &[&[u8]],
    printed: &mut String,
) -> Result<(), TextRefusal> {
    let first = gap_set_at(alloc, words, 2)?;
    let second = gap_set_at(alloc, words, 3)?;
    let gap = byte_at(words, 4)?;
    Ok(push_totals(costs, &first, &second, gap, printed)?)
}

fn push_other(
    alloc: Global,
    copy: &Costs,
    costs: &Costs,
    words: &[&[u8]],
    printed: &mut String,
) -> Result<(), TextRefusal> {
    let other = costs_at(alloc, words, 1)?;
    Ok(push_copy(copy, costs, &other, printed)?)
}

/// What costs say of themselves, of other costs, of two sets and of a gap; of the latter three a copy says it.
pub fn push_costs_of(
    alloc: Global,
    words: &[&[u8]],
    printed: &mut String,
) -> Result<(), TextRefusal> {
    let costs = costs_at(alloc, words, 0)?;
    push_costs(&costs, printed)?;
    let copy = costs.copy()?;
    push_other(alloc, &copy, &costs, words, printed)?;
    push_totals_of(alloc, &copy, words, printed)
}
