//! Runs of complete graphs.
use crate::sequential_run::sequential_run;
use candidate_executions::Event;
use run_maker::{MadeRun, MakeFault, Sketch, SketchFault, make_run};
use search_state::{EventGraph, each_in};
use std::alloc::{AllocError, Global};
use tso_machine::Mode;
use tso_program::Shown;

/// A run of a graph, with what is shown of its outcome. `None` if the graph is not complete, or has a cycle.
pub(crate) fn shown_run(
    alloc: Global,
    graph: &EventGraph,
    shown: &Shown,
) -> Result<Option<MadeRun>, AllocError> {
    match graph.mode() {
        Mode::Sequential => Ok(Some(sequential_run(alloc, graph, shown)?)),
        Mode::Fenced(_) => buffered_run(alloc, graph, shown),
    }
}

/// A run with store buffers that passes few gaps, by the sketches and the maker of runs that are proved.
fn buffered_run(
    alloc: Global,
    graph: &EventGraph,
    shown: &Shown,
) -> Result<Option<MadeRun>, AllocError> {
    match sketch_of(alloc, graph)? {
        Some(sketch) => run_of(alloc, &sketch, shown),
        None => Ok(None),
    }
}

/// A run of a sketch, with what is shown of its outcome. `None` if the sketch is not complete, or has a cycle.
fn run_of(alloc: Global, sketch: &Sketch, shown: &Shown) -> Result<Option<MadeRun>, AllocError> {
    if sketch.find_cycle()?.is_some() {
        return Ok(None);
    }
    match make_run(alloc, sketch) {
        Ok(mut run) => {
            run.outcome.show(alloc, shown)?;
            Ok(Some(run))
        }
        Err(MakeFault::OutOfMemory) => Err(AllocError),
        Err(MakeFault::NotComplete | MakeFault::NoRun) => Ok(None),
    }
}

/// A sketch of the same choices. `None` if it refuses one.
fn sketch_of(alloc: Global, graph: &EventGraph) -> Result<Option<Sketch>, AllocError> {
    let mut sketch = Sketch::new(alloc, graph.program(), graph.mode())?;
    let is_taken = give_all_values(&mut sketch, graph)? && choose_edges(&mut sketch, graph)?;
    Ok(if is_taken { Some(sketch) } else { None })
}

/// Gives the values of all reads, thread by thread, and answers whether the sketch has taken them.
fn give_all_values(sketch: &mut Sketch, graph: &EventGraph) -> Result<bool, AllocError> {
    for t in 0..graph.thread_count() {
        if !give_values(sketch, graph, t)? {
            return Ok(false);
        }
    }
    Ok(true)
}

/// Chooses all sources and orders, and answers whether the sketch has taken them.
fn choose_edges(sketch: &mut Sketch, graph: &EventGraph) -> Result<bool, AllocError> {
    for d in each_in(graph.rows.present) {
        if !choose_source(sketch, graph, d)? || !choose_orders(sketch, graph, d)? {
            return Ok(false);
        }
    }
    Ok(true)
}

/// Gives the values of a thread's reads, in order, and answers whether the sketch has taken them.
fn give_values(sketch: &mut Sketch, graph: &EventGraph, t: u8) -> Result<bool, AllocError> {
    for i in 0..graph.state(t).accesses {
        if let Some(value) = graph.access(graph.numbering.number(t, i)).read {
            if !give_value(sketch, t, value)? {
                return Ok(false);
            }
        }
    }
    Ok(true)
}

/// Gives a value to a thread's next read, if there is one that may have it.
fn give_value(sketch: &mut Sketch, t: u8, value: u32) -> Result<bool, AllocError> {
    let Some(location) = sketch.next_read(t) else {
        return Ok(false);
    };
    let values = sketch.values_for(location)?;
    if !values.as_slice().contains(&value) {
        return Ok(false);
    }
    is_taken(sketch.give_value(t, value))
}

/// Chooses an access's source, if it is a read.
fn choose_source(sketch: &mut Sketch, graph: &EventGraph, read: u8) -> Result<bool, AllocError> {
    let access = graph.access(read);
    if access.read.is_none() {
        return Ok(true);
    }
    let source = match graph.source(read) {
        Some(write) => event_of(graph, write),
        None => Event::Initial(access.location),
    };
    is_taken(sketch.choose_source(event_of(graph, read), source))
}

/// Chooses that a write comes before those that come after it.
fn choose_orders(sketch: &mut Sketch, graph: &EventGraph, write: u8) -> Result<bool, AllocError> {
    for later in each_in(graph.rows.later.at(write)) {
        let chosen = sketch.choose_order(event_of(graph, write), event_of(graph, later));
        if !is_taken(chosen)? {
            return Ok(false);
        }
    }
    Ok(true)
}

/// Whether a choice is taken.
fn is_taken(chosen: Result<(), SketchFault>) -> Result<bool, AllocError> {
    match chosen {
        Ok(()) => Ok(true),
        Err(SketchFault::OutOfMemory) => Err(AllocError),
        Err(_) => Ok(false),
    }
}

fn event_of(graph: &EventGraph, number: u8) -> Event {
    Event::Access(
        graph.numbering.thread(number),
        graph.numbering.index(number),
    )
}
