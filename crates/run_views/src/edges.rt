//! The edges of a candidate execution.

use crate::events::{Execution, RunAccess, RunEvent, write_before};
use std::alloc::{AllocError, Global};

/// The relation of which an edge is.
#[derive(Clone, Copy, PartialEq, Eq)]
pub enum EdgeRelation {
    ProgramOrder,
    ReadsFrom,
    /// The order in which the writes of a location reach memory.
    Coherence,
    /// A read comes before the write after the one that it reads from.
    FromReads,
}

impl EdgeRelation {
    /// Its short name.
    pub fn name(self) -> &'static str {
        match self {
            EdgeRelation::ProgramOrder => "po",
            EdgeRelation::ReadsFrom => "rf",
            EdgeRelation::Coherence => "co",
            EdgeRelation::FromReads => "fr",
        }
    }
}

/// A pair of a relation.
#[derive(Clone, Copy, PartialEq, Eq)]
pub struct Edge {
    pub from: RunEvent,
    pub to: RunEvent,
    pub relation: EdgeRelation,
}

/// The last access of the same thread before an access.
fn access_before(accesses: &[RunAccess], access: &RunAccess) -> Option<RunEvent> {
    let mut last = None;
    for other in accesses {
        if other.thread == access.thread && other.step < access.step {
            last = Some(RunEvent::Access(other.step));
        }
    }
    last
}

fn push_program_order(edges: &mut Vec<Edge>, accesses: &[RunAccess]) -> Result<(), AllocError> {
    for access in accesses {
        if let Some(from) = access_before(accesses, access) {
            edges.push(Edge {
                from,
                to: RunEvent::Access(access.step),
                relation: EdgeRelation::ProgramOrder,
            })?;
        }
    }
    Ok(())
}

fn push_reads_from(edges: &mut Vec<Edge>, accesses: &[RunAccess]) -> Result<(), AllocError> {
    for access in accesses {
        if let Some(from) = access.source {
            edges.push(Edge {
                from,
                to: RunEvent::Access(access.step),
                relation: EdgeRelation::ReadsFrom,
            })?;
        }
    }
    Ok(())
}

fn push_coherence(edges: &mut Vec<Edge>, execution: &Execution) -> Result<(), AllocError> {
    for store in &execution.in_memory {
        edges.push(Edge {
            from: write_before(&execution.in_memory, *store),
            to: RunEvent::Access(store.step),
            relation: EdgeRelation::Coherence,
        })?;
    }
    Ok(())
}

/// The write that reaches memory next after a write of the same location.
fn next_write(edges: &[Edge], write: RunEvent) -> Option<RunEvent> {
    for edge in edges {
        if edge.relation == EdgeRelation::Coherence && edge.from == write {
            return Some(edge.to);
        }
    }
    None
}

/// The edge from a read to the write after the one that it reads from. An XCHG that reads the write just before its own
/// has none: that edge would lead to itself.
fn from_read(edges: &[Edge], access: &RunAccess) -> Option<Edge> {
    let from = RunEvent::Access(access.step);
    let to = next_write(edges, access.source?)?;
    if to == from {
        return None;
    }
    Some(Edge {
        from,
        to,
        relation: EdgeRelation::FromReads,
    })
}

/// Adds the edges from reads to edges among which those of coherence are.
fn push_from_reads(edges: &mut Vec<Edge>, accesses: &[RunAccess]) -> Result<(), AllocError> {
    for access in accesses {
        if let Some(edge) = from_read(edges, access) {
            edges.push(edge)?;
        }
    }
    Ok(())
}

/// The edges of a run's candidate execution, each relation by its nearest pairs.
pub(crate) fn edges_of(alloc: Global, execution: &Execution) -> Result<Vec<Edge>, AllocError> {
    let mut edges = Vec::new(alloc);
    push_program_order(&mut edges, &execution.accesses)?;
    push_reads_from(&mut edges, &execution.accesses)?;
    push_coherence(&mut edges, execution)?;
    push_from_reads(&mut edges, &execution.accesses)?;
    Ok(edges)
}

/// The edge of program order that leads to an event.
fn order_into(edges: &[Edge], to: RunEvent) -> Option<Edge> {
    for edge in edges {
        if edge.relation == EdgeRelation::ProgramOrder && edge.to == to {
            return Some(*edge);
        }
    }
    None
}

/// The edge of program order that leads over the gap before an instruction of a thread, if there is one.
pub(crate) fn edge_over(
    edges: &[Edge],
    accesses: &[RunAccess],
    thread: u8,
    instruction: u8,
) -> Option<Edge> {
    for access in accesses {
        if access.thread == thread && access.instruction >= instruction {
            let to = RunEvent::Access(access.step);
            return order_into(edges, to);
        }
    }
    None
}
