//! The words of a gap tree: regions are bounded by runs, or split by one.
use crate::foreign_runs::ForeignRuns;
use cert_forest::Rule;
use cert_pages::{push_letter, push_number, push_split};
use gap_sets::{GapSet, Region};
use hitting_sets::{excludes, lower_bound, run_to_meet};
use std::alloc::AllocError;

/// How many nodes a gap tree without bounds by runs has at most.
const MOST_SPLIT: u64 = 1 << 14;

/// More nodes than any machine holds: memory ends a tree with bounds by runs before.
const MOST_BOUNDED: u64 = 1 << 56;

/// The words of a gap tree that is to show that no better set than this serves. `None` if it would have too many nodes.
pub(crate) fn gap_words(
    known: &ForeignRuns<'_>,
    set: &GapSet,
) -> Result<Option<Vec<u8>>, AllocError> {
    let mut words = Vec::new(known.alloc);
    let mut open = Vec::new(known.alloc);
    open.push(Region::all())?;
    let most = match known.rule {
        Rule::Whole => MOST_SPLIT,
        Rule::Early => MOST_BOUNDED,
    };
    for _ in 0..most {
        let Some(region) = open.pop() else {
            return Ok(Some(words));
        };
        if !push_bound(known, set, &region, &mut words)?
            && !split_by_run(known, &region, &mut words, &mut open)?
        {
            return Ok(None);
        }
    }
    Ok(None)
}

/// Adds a bound, where it shows that no set of the region is better. Whether it does.
fn push_bound(
    known: &ForeignRuns<'_>,
    set: &GapSet,
    region: &Region,
    words: &mut Vec<u8>,
) -> Result<bool, AllocError> {
    match known.rule {
        Rule::Whole => push_bound_alone(known, set, region, words),
        Rule::Early => push_bound_by_runs(known, set, region, words),
    }
}

/// Adds a bound by what the region's sets must have, where that is not better. Whether it is not.
fn push_bound_alone(
    known: &ForeignRuns<'_>,
    set: &GapSet,
    region: &Region,
    words: &mut Vec<u8>,
) -> Result<bool, AllocError> {
    if known.costs.costs.better(&region.must, set) {
        return Ok(false);
    }
    push_letter(words, b'B')?;
    Ok(true)
}

/// Adds a bound by runs, where they show that no set of the region is better. Whether they do.
fn push_bound_by_runs(
    known: &ForeignRuns<'_>,
    set: &GapSet,
    region: &Region,
    words: &mut Vec<u8>,
) -> Result<bool, AllocError> {
    let Some(bound) = lower_bound(known.alloc, &known.costs.costs, region, &known.passed)? else {
        return Ok(false);
    };
    if !excludes(&known.costs.costs, &bound, set) {
        return Ok(false);
    }
    push_letter(words, b'B')?;
    push_number(words, bound.runs.len() as u64)?;
    for run in &bound.runs {
        push_number(words, u64::from(*run))?;
    }
    Ok(true)
}

/// Adds a split by the run with the fewest gaps, and opens its children. Whether there is one.
fn split_by_run(
    known: &ForeignRuns<'_>,
    region: &Region,
    words: &mut Vec<u8>,
    open: &mut Vec<Region>,
) -> Result<bool, AllocError> {
    let Some(run) = run_to_meet(region, &known.passed) else {
        return Ok(false);
    };
    push_split(words, u64::from(run.number), run.gaps.len())?;
    open_children(known, region, &run.gaps, open)?;
    Ok(true)
}

/// Puts the children of a split on a stack, the first of them on top.
fn open_children(
    known: &ForeignRuns<'_>,
    region: &Region,
    gaps: &GapSet,
    open: &mut Vec<Region>,
) -> Result<(), AllocError> {
    let mut children = Vec::new(known.alloc);
    let mut rest = *region;
    for gap in gaps.iter() {
        children.push(rest.with(gap))?;
        rest = rest.without(gap);
    }
    children.reverse();
    open.append(&mut children)
}
