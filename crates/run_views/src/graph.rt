//! Graphs in Graphviz's language.

use crate::candidate::{Candidate, candidate_of};
use crate::cells::push_value;
use crate::edges::{Edge, EdgeRelation};
use crate::events::{RunAccess, RunEvent};
use litmus_text::{Litmus, NameTable, location_name};
use std::alloc::{AllocError, Global};
use tso_machine::Step;
use tso_program::Program;

/// A text in double quotes.
fn push_quoted(out: &mut Vec<u8>, text: &[u8]) -> Result<(), AllocError> {
    out.push(b'"')?;
    for byte in text {
        if *byte == b'"' || *byte == b'\\' {
            out.push(b'\\')?;
        }
        out.push(*byte)?;
    }
    out.push(b'"')?;
    Ok(())
}

/// The name of a node: `run0_init_x` of an initial write, `run0_step1` of an access.
fn push_event(
    alloc: Global,
    out: &mut Vec<u8>,
    names: &NameTable,
    run: usize,
    event: RunEvent,
) -> Result<(), AllocError> {
    match event {
        RunEvent::Initial(location) => {
            let text = format!(in alloc; "run{run}_init_")?;
            out.extend_from_slice(text.as_bytes())?;
            out.extend_from_slice(location_name(names, location))?;
        }
        RunEvent::Access(step) => {
            let text = format!(in alloc; "run{run}_step{step}")?;
            out.extend_from_slice(text.as_bytes())?;
        }
    }
    Ok(())
}

fn is_used(edges: &[Edge], event: RunEvent) -> bool {
    for edge in edges {
        if edge.from == event {
            return true;
        }
    }
    false
}

/// The initial writes from which an edge leads.
fn push_initial_writes(
    alloc: Global,
    out: &mut Vec<u8>,
    litmus: &Litmus<Program>,
    run: usize,
    edges: &[Edge],
) -> Result<(), AllocError> {
    for (location, value) in litmus.program.memory().iter().enumerate() {
        let event = RunEvent::Initial(location);
        if is_used(edges, event) {
            out.extend_from_slice(b"    ")?;
            push_event(alloc, out, &litmus.names, run, event)?;
            out.extend_from_slice(b" [label=\"W ")?;
            push_value(alloc, out, &litmus.names, location, *value)?;
            out.extend_from_slice(b"\", shape=plaintext];\n")?;
        }
    }
    Ok(())
}

/// The accesses of a thread, in program order.
fn push_accesses(
    alloc: Global,
    out: &mut Vec<u8>,
    names: &NameTable,
    run: usize,
    accesses: &[RunAccess],
    thread: usize,
) -> Result<(), AllocError> {
    for access in accesses {
        if access.thread as usize == thread {
            out.extend_from_slice(b"      ")?;
            push_event(alloc, out, names, run, RunEvent::Access(access.step))?;
            out.extend_from_slice(b" [label=\"")?;
            out.extend_from_slice(&access.text)?;
            out.extend_from_slice(b"\"];\n")?;
        }
    }
    Ok(())
}

/// A cluster for each thread.
fn push_threads(
    alloc: Global,
    out: &mut Vec<u8>,
    litmus: &Litmus<Program>,
    run: usize,
    accesses: &[RunAccess],
) -> Result<(), AllocError> {
    for thread in 0..litmus.program.threads().len() {
        let text = format!(in alloc;
            "    subgraph cluster_run{run}_P{thread} {{\n      label=\"P{thread}\";\n"
        )?;
        out.extend_from_slice(text.as_bytes())?;
        push_accesses(alloc, out, &litmus.names, run, accesses, thread)?;
        out.extend_from_slice(b"    }\n")?;
    }
    Ok(())
}

/// Whether an edge counts for the rows of the picture: program order leads down, and initial writes are at the top.
fn leads_down(edge: &Edge) -> bool {
    edge.relation == EdgeRelation::ProgramOrder || matches!(edge.from, RunEvent::Initial(_))
}

fn push_edge(
    alloc: Global,
    out: &mut Vec<u8>,
    names: &NameTable,
    run: usize,
    edge: &Edge,
    is_red: bool,
) -> Result<(), AllocError> {
    out.extend_from_slice(b"    ")?;
    push_event(alloc, out, names, run, edge.from)?;
    out.extend_from_slice(b" -> ")?;
    push_event(alloc, out, names, run, edge.to)?;
    out.extend_from_slice(b" [label=\"")?;
    out.extend_from_slice(edge.relation.name().as_bytes())?;
    out.push(b'"')?;
    if !leads_down(edge) {
        out.extend_from_slice(b", constraint=false")?;
    }
    if is_red {
        out.extend_from_slice(b", color=red, fontcolor=red")?;
    }
    out.extend_from_slice(b"];\n")
}

fn push_edges(
    alloc: Global,
    out: &mut Vec<u8>,
    names: &NameTable,
    run: usize,
    edges: &[Edge],
    cycle: &[Edge],
) -> Result<(), AllocError> {
    for edge in edges {
        push_edge(alloc, out, names, run, edge, cycle.contains(edge))?;
    }
    Ok(())
}

/// A graph of the candidate executions of runs, a cluster each.
#[derive(Drop)]
pub struct RunGraph {
    text: Vec<u8>,
    runs: usize,
}

impl RunGraph {
    /// The graph of no runs.
    pub fn new(alloc: Global) -> Result<Self, AllocError> {
        let text = Vec::from_slice(alloc, b"digraph {\n  node [shape=box];\n")?;
        Ok(RunGraph { text, runs: 0 })
    }

    /// Adds the accesses of a run, and their edges.
    fn push_execution(
        &mut self,
        alloc: Global,
        litmus: &Litmus<Program>,
        candidate: &Candidate,
    ) -> Result<(), AllocError> {
        let Candidate {
            execution,
            edges,
            cycle,
        } = candidate;
        let run = self.runs;
        push_initial_writes(alloc, &mut self.text, litmus, run, edges)?;
        push_threads(alloc, &mut self.text, litmus, run, &execution.accesses)?;
        push_edges(alloc, &mut self.text, &litmus.names, run, edges, cycle)
    }

    /// Adds the candidate execution of a run of a litmus text's program, under a title: an event for each access of a
    /// step, with the instruction as it is written and what it reads and writes, in a cluster for each thread; the
    /// initial writes that are read or overwritten; and the edges. The writes of a location are in the order in which
    /// they reach memory, and a read reads from the newest write to its location that waits in its thread's buffer, or
    /// else from the last one in memory. XCHG is one event. The edges of the cycle that
    /// [`candidate_of`](crate::candidate_of) finds, if there is one, are red.
    pub fn push_run(
        &mut self,
        alloc: Global,
        litmus: &Litmus<Program>,
        title: &[u8],
        steps: &[Step],
        gap: Option<u8>,
    ) -> Result<(), AllocError> {
        let run = self.runs;
        let opening = format!(in alloc; "  subgraph cluster_run{run} {{\n    label=")?;
        self.text.extend_from_slice(opening.as_bytes())?;
        push_quoted(&mut self.text, title)?;
        self.text.extend_from_slice(b";\n")?;
        let candidate = candidate_of(alloc, litmus, steps, gap)?;
        self.push_execution(alloc, litmus, &candidate)?;
        self.text.extend_from_slice(b"  }\n")?;
        self.runs = self.runs.saturating_add(1);
        Ok(())
    }

    /// The graph's text.
    pub fn into_text(self) -> Result<Vec<u8>, AllocError> {
        let mut text = self.text;
        text.extend_from_slice(b"}\n")?;
        Ok(text)
    }
}
