//! Best sets of gaps that meet runs, and lower bounds of what such sets cost.
//!
//! Nothing is proved of this crate but that it is safe and ends: what it answers is a proposal. Begin with
//! `best_hitting_set` and `lower_bound`. Free to change: all of it.
#![tactic(auto)]

mod hitting_set;

pub use hitting_set::{LowerBound, OpenRun, best_hitting_set, excludes, lower_bound, run_to_meet};
