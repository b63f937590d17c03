//! Which decision comes next, and the choices that it leaves.
use crate::orders::{OpenOrder, Wanted, best_order};
use crate::settled::is_settled;
use crate::sources::{OpenRead, open_read, reads_initial};
use crate::values::{first_thread, next_thread};
use cert_forest::Rule;
use event_rows::{Decision, EventGraph, GraphChoice, PossibleWrites, each_in};
use std::alloc::{AllocError, Global};

/// What a rule decides next in a graph without a cycle. `None` if nothing is left. `last` has the writes after which one
/// more must come for the graph to end as a known outcome.
pub fn next_decision(
    graph: &EventGraph,
    writes: &PossibleWrites,
    rule: Rule,
    last: u32,
) -> Option<Decision> {
    match (rule, first_thread(graph)) {
        (Rule::Whole, Some(t)) => Some(Decision::Value(t)),
        _ => next_of_all(graph, writes, last),
    }
}

/// What is decided next of values, sources and orders.
fn next_of_all(graph: &EventGraph, writes: &PossibleWrites, last: u32) -> Option<Decision> {
    let is_whole = graph.is_whole();
    let read = best_read(graph, writes, is_whole);
    if let Some(OpenRead { read, open: 0, .. }) = read {
        return Some(Decision::Source(read));
    }
    let wanted = if is_whole {
        Wanted::All(last)
    } else {
        Wanted::Forced
    };
    match better(read, best_order(graph, wanted)) {
        Some((open, decision)) if is_whole || open < 2 => Some(decision),
        _ => match next_thread(graph, writes) {
            Some(t) => Some(Decision::Value(t)),
            None => None,
        },
    }
}

/// The better of a source and an order, and how many of its choices close nothing.
fn better(read: Option<OpenRead>, order: Option<OpenOrder>) -> Option<(u32, Decision)> {
    match (read, order) {
        (Some(read), Some(order)) => if is_better(
            read,
            order.open,
            order.followed.saturating_add(2),
        ) {
            Some((read.open, Decision::Source(read.read)))
        } else {
            Some((order.open, Decision::Order(order.first, order.second)))
        },
        (Some(read), None) => Some((read.open, Decision::Source(read.read))),
        (None, Some(order)) => Some((order.open, Decision::Order(order.first, order.second))),
        (None, None) => None,
    }
}

/// Whether a read's sources are no more than these: first those that close nothing, then all.
fn is_better(read: OpenRead, open: u32, all: u32) -> bool {
    read.open < open || (read.open == open && read.all <= all)
}

/// The settled read without a source of whose sources the fewest close no cycle, the first of them if there are several.
fn best_read(graph: &EventGraph, writes: &PossibleWrites, is_whole: bool) -> Option<OpenRead> {
    let mut best: Option<OpenRead> = None;
    for read in each_in(graph.rows.unsourced) {
        if is_whole || is_settled(graph, writes, read) {
            let own = open_read(graph, read);
            best = match best {
                Some(other) => if is_better(other, own.open, own.all) {
                    best
                } else {
                    Some(own)
                },
                None => Some(own),
            };
            if own.open == 0 {
                return Some(own);
            }
        }
    }
    best
}

/// The choices of a decision, in the order of its node's children.
pub fn choices_of(
    alloc: Global,
    graph: &EventGraph,
    writes: &PossibleWrites,
    decision: Decision,
) -> Result<Vec<GraphChoice>, AllocError> {
    match decision {
        Decision::Value(thread) => each_value(alloc, graph, writes, thread),
        Decision::Source(read) => each_source(alloc, graph, read),
        Decision::Order(first, second) => {
            let mut choices = Vec::with_capacity(alloc, 2)?;
            choices.push(GraphChoice::Order { first, second })?;
            choices.push(GraphChoice::Order {
                first: second,
                second: first,
            })?;
            Ok(choices)
        }
    }
}

/// The values of a thread's next read, ascending.
fn each_value(
    alloc: Global,
    graph: &EventGraph,
    writes: &PossibleWrites,
    thread: u8,
) -> Result<Vec<GraphChoice>, AllocError> {
    let mut choices = Vec::new(alloc);
    if let Some(location) = graph.state(thread).next {
        for value in writes.values(location) {
            choices.push(GraphChoice::Value {
                thread,
                value: *value,
            })?;
        }
    }
    Ok(choices)
}

/// The sources of a read that are there: the initial write first, then by thread and index.
fn each_source(
    alloc: Global,
    graph: &EventGraph,
    read: u8,
) -> Result<Vec<GraphChoice>, AllocError> {
    let mut choices = Vec::new(alloc);
    if reads_initial(graph, read) {
        choices.push(GraphChoice::Source { read, write: None })?;
    }
    for d in each_in(graph.matching(read)) {
        choices.push(GraphChoice::Source {
            read,
            write: Some(d),
        })?;
    }
    Ok(choices)
}
