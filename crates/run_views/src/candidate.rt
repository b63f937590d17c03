//! The candidate execution of a run.

use crate::cycle::forbidden_cycle;
use crate::edges::{Edge, edge_over, edges_of};
use crate::events::{Execution, execution_of};
use litmus_text::Litmus;
use std::alloc::{AllocError, Global};
use tso_machine::Step;
use tso_program::Program;

/// The edges between the events of a run, and a cycle of them that sequential consistency forbids.
#[derive(Drop)]
pub struct Candidate {
    pub(crate) execution: Execution,
    /// Each relation by its nearest pairs.
    pub edges: Vec<Edge>,
    /// The edges of the cycle as it is walked, from the first of its accesses on; none where there is no cycle.
    pub cycle: Vec<Edge>,
}

/// The edge of program order that leads over a gap, if there is one.
fn over_gap(program: &Program, execution: &Execution, edges: &[Edge], gap: u8) -> Option<Edge> {
    let (thread, instruction) = program.gap_place(gap)?;
    edge_over(edges, &execution.accesses, thread, instruction)
}

/// The candidate execution of the steps of a run of a litmus text's program. The cycle is a shortest one. Of several it
/// is one that leads over the gap, where a gap is given and one of them does.
pub fn candidate_of(
    alloc: Global,
    litmus: &Litmus<Program>,
    steps: &[Step],
    gap: Option<u8>,
) -> Result<Candidate, AllocError> {
    let execution = execution_of(alloc, litmus, steps)?;
    let edges = edges_of(alloc, &execution)?;
    let over = match gap {
        Some(gap) => over_gap(&litmus.program, &execution, &edges, gap),
        None => None,
    };
    let cycle = forbidden_cycle(alloc, &edges, &execution.accesses, over)?;
    Ok(Candidate {
        execution,
        edges,
        cycle,
    })
}
