//! Runs of complete graphs under sequential consistency.
use bit_rows::ROW_BITS;
use run_maker::MadeRun;
use search_state::{EventGraph, each_in, reached_from};
use std::alloc::{AllocError, Global};
use tso_machine::Label;
use tso_program::{Items, MAX_LOCATIONS, MAX_THREADS, Outcome, REGISTERS, Shown};

/// The labels of a run so far, and how many instructions each thread has executed.
#[derive(Drop)]
struct LabelsSoFar {
    labels: Vec<Label>,
    steps: [u8; MAX_THREADS],
}

impl LabelsSoFar {
    /// Thread t executes its instructions until it has executed so many.
    fn go_on(&mut self, t: u8, steps: u8) -> Result<(), AllocError> {
        let place = t as usize % MAX_THREADS;
        for _ in self.steps[place]..steps {
            self.labels.push(Label::Exec(t))?;
        }
        self.steps[place] = steps;
        Ok(())
    }

    /// The accesses come from which so many others are reached.
    fn access_each(&mut self, graph: &EventGraph, reached: usize) -> Result<(), AllocError> {
        for d in each_in(graph.rows.present) {
            if reached_from(&graph.rows.main, d).count_ones() as usize == reached {
                self.go_on(graph.numbering.thread(d), graph.steps_with(d))?;
            }
        }
        Ok(())
    }

    /// Each thread goes on to its end.
    fn end(&mut self, graph: &EventGraph) -> Result<(), AllocError> {
        for t in 0..graph.thread_count() {
            self.go_on(t, graph.state(t).steps)?;
        }
        Ok(())
    }
}

/// A sequential run of a complete graph, with what is shown of its outcome. Along each edge fewer accesses are reached, so
/// those from which most are reached come first.
pub(crate) fn sequential_run(
    alloc: Global,
    graph: &EventGraph,
    shown: &Shown,
) -> Result<MadeRun, AllocError> {
    let mut run = LabelsSoFar {
        labels: Vec::new(alloc),
        steps: [0; MAX_THREADS],
    };
    for fewer in 0..ROW_BITS {
        run.access_each(graph, ROW_BITS.saturating_sub(fewer + 1))?;
    }
    run.end(graph)?;
    let mut outcome = outcome_of(alloc, graph)?;
    outcome.show(alloc, shown)?;
    Ok(MadeRun {
        labels: run.labels,
        outcome,
    })
}

/// The outcome of a complete graph.
fn outcome_of(alloc: Global, graph: &EventGraph) -> Result<Outcome, AllocError> {
    let mut registers: Vec<[u32; REGISTERS]> = Vec::new(alloc);
    for t in 0..graph.thread_count() {
        registers.push(graph.state(t).last.registers)?;
    }
    let mut memory = Vec::new(alloc);
    for location in 0..graph.program().memory().len() {
        memory.push(last_value(graph, (location % MAX_LOCATIONS) as u8))?;
    }
    Ok(Outcome {
        registers: Items::of(registers),
        memory: Items::of(memory),
    })
}

/// The value with which a location ends.
fn last_value(graph: &EventGraph, location: u8) -> u32 {
    for d in each_in(graph.rows.written(location) & !graph.rows.followed) {
        if let Some(value) = graph.access(d).written {
            return value;
        }
    }
    graph.initial(location)
}
