//! An order of the accesses in which few of them come before earlier ones of their thread. A run
//! follows it as far as the edges allow: no proof rests on it.

use exec_axioms::{Event, Kind, Mode, Sketch};
use program_sketches::is_one_thread;
use std::alloc::{AllocError, Global};
use tso_program::MAX_ACCESSES;

/// The order that is wanted, as far as the edges allow. It is empty in the sequential machine: there no run passes
/// a gap, so no order is better than another.
pub(crate) fn preferred_order(
    alloc: Global,
    sketch: &Sketch,
    kind: Kind,
    events: &[Event],
) -> Result<Vec<Event>, AllocError> {
    match sketch.mode() {
        Mode::Sequential => Ok(Vec::new(alloc)),
        Mode::Fenced(_) => with_few_turned(alloc, sketch, kind, events),
    }
}

/// The events, listed by thread and index, in an order that turns round as few pairs of a thread as it
/// can: a run passes the gaps between a store and a later load that comes before it. Each two events of
/// a thread keep their order where no edge forbids it: first those that are furthest apart, since most gaps
/// lie between them.
fn with_few_turned(
    alloc: Global,
    sketch: &Sketch,
    kind: Kind,
    events: &[Event],
) -> Result<Vec<Event>, AllocError> {
    let mut rows = known_rows(alloc, sketch, kind, events)?;
    close(rows.as_mut_slice());
    for distance in (1..events.len()).rev() {
        settle(rows.as_mut_slice(), events, distance);
    }
    by_count(alloc, rows.as_slice(), events)
}

/// A row for each event: itself, and those from which an edge leads to it.
fn known_rows(
    alloc: Global,
    sketch: &Sketch,
    kind: Kind,
    events: &[Event],
) -> Result<Vec<u32>, AllocError> {
    let mut rows = Vec::new(alloc);
    for event in events {
        rows.push(known_row(sketch, kind, events, *event))?;
    }
    Ok(rows)
}

/// The event, and those from which an edge leads to it.
fn known_row(sketch: &Sketch, kind: Kind, events: &[Event], event: Event) -> u32 {
    let mut row = 0;
    for (place, other) in events.iter().enumerate() {
        if *other == event || sketch.is_edge(kind, *other, event) {
            row |= bit(place);
        }
    }
    row
}

/// What comes before one event, and this before another, comes before the other.
fn close(rows: &mut [u32]) {
    for place in 0..rows.len() {
        spread(rows, place, place);
    }
}

/// What is in the row of `first` is in each row that has `second`.
fn spread(rows: &mut [u32], first: usize, second: usize) {
    let row = row_at(rows, first);
    for other in rows.iter_mut() {
        if *other & bit(second) != 0 {
            *other |= row;
        }
    }
}

/// Each two events of one thread at this distance keep their order, unless `second` is known to come before `first`.
fn settle(rows: &mut [u32], events: &[Event], distance: usize) {
    for second in distance..events.len() {
        let first = second - distance;
        if is_one_thread(events[first], events[second]) && row_at(rows, first) & bit(second) == 0 {
            spread(rows, first, second);
        }
    }
}

/// The row of a place.
fn row_at(rows: &[u32], place: usize) -> u32 {
    rows.get(place).copied().unwrap_or(0)
}

/// The events, those with the shortest rows first.
fn by_count(alloc: Global, rows: &[u32], events: &[Event]) -> Result<Vec<Event>, AllocError> {
    let mut order = Vec::new(alloc);
    for count in 1..MAX_ACCESSES + 1 {
        push_those(rows, events, count as u32, &mut order)?;
    }
    Ok(order)
}

/// The events with so many in their rows.
fn push_those(
    rows: &[u32],
    events: &[Event],
    count: u32,
    order: &mut Vec<Event>,
) -> Result<(), AllocError> {
    for (row, event) in rows.iter().zip(events) {
        if row.count_ones() == count {
            order.push(*event)?;
        }
    }
    Ok(())
}

/// The bit of a place in a row, which has one for each access of a program.
fn bit(place: usize) -> u32 {
    if place < MAX_ACCESSES { 1 << place } else { 0 }
}
