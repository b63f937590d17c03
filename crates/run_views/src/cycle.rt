//! A cycle of edges, which sequential consistency forbids.

use crate::edges::Edge;
use crate::events::{RunAccess, RunEvent};
use std::alloc::{AllocError, Global};

/// A tree edge of a breadth-first search: one by which it reaches an event for the first time.
#[derive(Clone, Copy)]
struct TreeEdge {
    edge: Edge,
    /// The number of the tree edge before it; none where the search starts.
    before: Option<usize>,
}

fn is_reached(tree: &[TreeEdge], event: RunEvent) -> bool {
    for reached in tree {
        if reached.edge.to == event {
            return true;
        }
    }
    false
}

/// Visits each event that isn't reached and that an edge leads to from this one.
fn push_next(
    tree: &mut Vec<TreeEdge>,
    edges: &[Edge],
    from: RunEvent,
    before: Option<usize>,
) -> Result<(), AllocError> {
    for edge in edges {
        if edge.from == from && !is_reached(tree, edge.to) {
            tree.push(TreeEdge {
                edge: *edge,
                before,
            })?;
        }
    }
    Ok(())
}

/// The tree edges into each event that a path leads to from an event, the nearest first.
fn search_tree(
    alloc: Global,
    edges: &[Edge],
    start: RunEvent,
) -> Result<Vec<TreeEdge>, AllocError> {
    let mut tree: Vec<TreeEdge> = Vec::new(alloc);
    push_next(&mut tree, edges, start, None)?;
    for number in 0..edges.len() {
        let Some(reached) = tree.get(number).copied() else {
            break;
        };
        push_next(&mut tree, edges, reached.edge.to, Some(number))?;
    }
    Ok(tree)
}

/// The number of the tree edge into an event.
fn edge_into(tree: &[TreeEdge], event: RunEvent) -> Option<usize> {
    for (number, reached) in tree.iter().enumerate() {
        if reached.edge.to == event {
            return Some(number);
        }
    }
    None
}

/// The edges of a shortest path between two events, in its order; none where there is no path.
fn shortest_path(
    alloc: Global,
    edges: &[Edge],
    from: RunEvent,
    to: RunEvent,
) -> Result<Vec<Edge>, AllocError> {
    let tree = search_tree(alloc, edges, from)?;
    let mut path = Vec::new(alloc);
    let mut last = edge_into(&tree, to);
    for _ in 0..edges.len() {
        let Some(number) = last else {
            break;
        };
        let Some(reached) = tree.get(number).copied() else {
            break;
        };
        path.push(reached.edge)?;
        last = reached.before;
    }
    path.as_mut_slice().reverse();
    Ok(path)
}

/// The edges of a shortest cycle, from the first of its accesses on; none where there is no cycle.
fn shortest_cycle(
    alloc: Global,
    edges: &[Edge],
    accesses: &[RunAccess],
) -> Result<Vec<Edge>, AllocError> {
    let mut shortest = Vec::new(alloc);
    for access in accesses {
        let event = RunEvent::Access(access.step);
        let cycle = shortest_path(alloc, edges, event, event)?;
        if shortest.is_empty() || (!cycle.is_empty() && cycle.len() < shortest.len()) {
            shortest = cycle;
        }
    }
    Ok(shortest)
}

/// The place in a list of edges where the first of their accesses has its edge.
fn first_access(edges: &[Edge]) -> usize {
    let mut first = 0;
    let mut earliest = usize::MAX;
    for (place, edge) in edges.iter().enumerate() {
        if let RunEvent::Access(step) = edge.from {
            if step < earliest {
                first = place;
                earliest = step;
            }
        }
    }
    first
}

/// The edges of a shortest cycle over an edge, from the first of its accesses on; none where there is no cycle over it.
fn cycle_over(alloc: Global, edges: &[Edge], over: Edge) -> Result<Vec<Edge>, AllocError> {
    let mut cycle = shortest_path(alloc, edges, over.to, over.from)?;
    if !cycle.is_empty() {
        cycle.push(over)?;
        let first = first_access(&cycle);
        if first < cycle.len() {
            cycle.as_mut_slice().rotate_left(first);
        }
    }
    Ok(cycle)
}

/// The edges of a cycle that sequential consistency forbids, as it is walked from the first of its accesses on: a
/// shortest one. Of several it is one over the edge that is given, if there is such a cycle. None where there is no
/// cycle.
pub(crate) fn forbidden_cycle(
    alloc: Global,
    edges: &[Edge],
    accesses: &[RunAccess],
    over: Option<Edge>,
) -> Result<Vec<Edge>, AllocError> {
    let shortest = shortest_cycle(alloc, edges, accesses)?;
    let Some(over) = over else {
        return Ok(shortest);
    };
    if shortest.contains(&over) {
        return Ok(shortest);
    }
    let other = cycle_over(alloc, edges, over)?;
    if !other.is_empty() && other.len() == shortest.len() {
        Ok(other)
    } else {
        Ok(shortest)
    }
}
