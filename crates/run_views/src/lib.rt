//! What a run looks like: its table, a line a step, and its graph for Graphviz.
//!
//! The graph is of the run's candidate execution. Both are worked out from the steps of `tso_machine::steps`
//! alone, so they show runs of both machines and need no sketch.
//!
//! Begin with `run_table`, `RunGraph` and `candidate_of`. Free to change: how a table is put together, and graphs,
//! of whose bytes no contract speaks; `tests/judges/graphs.py` works out nodes, edges and a shortest cycle by
//! itself. Relied on: a table is exactly that of the steps, so that none of its lines can be taken for another;
//! `documents` takes from here what a step does and the edges of a run, so that all three say the same.
#![tactic(auto)]

mod candidate;
mod cells;
mod cycle;
mod edges;
mod events;
mod graph;
mod table;

pub use candidate::{Candidate, candidate_of};
pub use cells::{action_of, waits, written};
pub use edges::{Edge, EdgeRelation};
pub use events::RunEvent;
pub use graph::RunGraph;
pub use table::run_table;
