//! Candidate executions.

use json_text::{JsonArray, JsonObject, JsonText};
use json_values::{location, number};
use litmus_text::{Litmus, NameTable};
use run_views::{Candidate, Edge, EdgeRelation, RunEvent, candidate_of};
use std::alloc::{AllocError, Global};
use tso_machine::Step;
use tso_program::Program;

/// An access by the number of its step, an initial write by its location's name.
fn event_value(alloc: Global, names: &NameTable, event: RunEvent) -> Result<JsonText, AllocError> {
    match event {
        RunEvent::Initial(place) => location(alloc, names, place),
        RunEvent::Access(step) => number(alloc, step),
    }
}

/// The two events of an edge.
fn pair(alloc: Global, names: &NameTable, edge: Edge) -> Result<JsonText, AllocError> {
    let mut array = JsonArray::new(alloc);
    array.add(event_value(alloc, names, edge.from)?)?;
    array.add(event_value(alloc, names, edge.to)?)?;
    array.into_json()
}

/// The edges of a relation.
fn pairs(
    alloc: Global,
    names: &NameTable,
    edges: &[Edge],
    relation: EdgeRelation,
) -> Result<JsonText, AllocError> {
    let mut array = JsonArray::new(alloc);
    for edge in edges {
        if edge.relation == relation {
            array.add(pair(alloc, names, *edge)?)?;
        }
    }
    array.into_json()
}

/// An event of a cycle, and the relation that leads on from it.
fn stage(alloc: Global, names: &NameTable, edge: Edge) -> Result<JsonText, AllocError> {
    let relation = edge.relation.name();
    let mut object = JsonObject::new(alloc);
    object.add("event", event_value(alloc, names, edge.from)?)?;
    object.add("relation", JsonText::string(alloc, relation.as_bytes())?)?;
    object.into_json()
}

/// A cycle, as it is walked.
fn stages(alloc: Global, names: &NameTable, cycle: &[Edge]) -> Result<JsonText, AllocError> {
    let mut array = JsonArray::new(alloc);
    for edge in cycle {
        array.add(stage(alloc, names, *edge)?)?;
    }
    array.into_json()
}

/// Adds the edges of a relation under its name.
fn add_relation(
    alloc: Global,
    object: &mut JsonObject,
    names: &NameTable,
    edges: &[Edge],
    relation: EdgeRelation,
) -> Result<(), AllocError> {
    object.add(relation.name(), pairs(alloc, names, edges, relation)?)
}

/// Adds the edges of each relation, and the cycle.
fn add_candidate(
    alloc: Global,
    object: &mut JsonObject,
    names: &NameTable,
    candidate: &Candidate,
) -> Result<(), AllocError> {
    let edges = &candidate.edges;
    add_relation(alloc, object, names, edges, EdgeRelation::ProgramOrder)?;
    add_relation(alloc, object, names, edges, EdgeRelation::ReadsFrom)?;
    add_relation(alloc, object, names, edges, EdgeRelation::Coherence)?;
    add_relation(alloc, object, names, edges, EdgeRelation::FromReads)?;
    object.add("cycle", stages(alloc, names, &candidate.cycle)?)
}

/// The candidate execution of the steps of a run, with the cycle that the run's graph has.
pub(crate) fn execution_value(
    alloc: Global,
    litmus: &Litmus<Program>,
    steps: &[Step],
    gap: Option<u8>,
) -> Result<JsonText, AllocError> {
    let candidate = candidate_of(alloc, litmus, steps, gap)?;
    let mut object = JsonObject::new(alloc);
    add_candidate(alloc, &mut object, &litmus.names, &candidate)?;
    object.into_json()
}
