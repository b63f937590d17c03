//! The solver: a program's outcomes, and whether a set of gaps serves.
//!
//! Where a set serves there is a tree that shows it; otherwise a run that leaves an outcome which no
//! sequential run has. A run of each outcome that store buffers add answers what it can, and any other question is searched
//! from the beginning. The outcomes of a machine are those that a search for
//! early trees proposes, where the judge accepts them, or else those at which searches stop one after another.
//!
//! Begin with `sequential`, `outcomes_with_runs` and `Solver::ask`. Free to change: where the outcomes come from
//! (`outcome_list.rt`). Relied on: a table has exactly the sequential outcomes and a valid tree over them, a run that answers is
//! foreign and passes no gap of the set, and a set that serves has a valid tree.
#![tactic(auto)]

mod completeness;
mod found_outcomes;
mod known_runs;
mod outcome_list;
mod proposed;
mod solver;
mod table;
mod tree_nodes;
mod witnesses;

pub use oracle::{ForeignFault, ForeignRun, Oracle, SeqTable, Served, SolveFault, Verdict};
pub use outcome_list::{OutcomeList, outcomes, outcomes_with_runs};
pub use solver::Solver;
pub use table::sequential;
pub use witnesses::witness;
