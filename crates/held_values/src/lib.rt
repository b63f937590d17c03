//! The values that a program's locations may hold, listed.
//!
//! For each value that begins somewhere, passes over the threads find the locations that it flows to: along a
//! thread from one instruction to the next ones, which registers may hold it, until no location is new.
//!
//! Begin with `held_values`. Free to change: in which order values and cells are gone through,
//! and how tables lie in memory. Relied on: the list of a location has exactly the values that it may hold
//! (`MayHold` of `tso_machine`), ascending.
#![tactic(auto)]

mod holders;
mod lists;
mod rows;

pub use lists::held_values;
pub use thread_traces::SharedValues;
