//! Tests: calls of sketches and of the solver.
//!
//! It promises nothing beyond safety. What a call of the solver is given is read by `text_calls`.
//!
//! Begin with `push_of_solver`, `push_sketch` and `table_of`. Free to change: all that is printed, together with
//! `tests/data/solver.tsv`, and the calls of sketches with `tests/data/calls.tsv` and `tests/judges/candidates.py`.
//! Relied on: `test_calls` takes the tables from here that all calls of a program are given.
#![tactic(auto)]

mod lines;
mod made_runs;
mod refusal;
mod sketch_steps;
mod solver;

pub use cover_solver::SeqTable;
pub use refusal::SolverRefusal;
pub use sketch_steps::push_sketch;
pub use solver::{SolverCall, options, push_of_solver, table_of};
