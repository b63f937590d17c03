//! What an author may not have meant in a litmus text that is read.
//!
//! A slip is no refusal: the text stands for a program, and is answered. What is said of it goes to standard error.
//!
//! Begin with `first_slip`. Free to change: what counts as a slip, which one is said first, and every word; but for
//! `unwritten_locations.rt` its functions have no clauses, and the tests show what is said. Relied on: each call ends and is
//! safe, and a location to which nothing gives a value is one (`loads_unwritten`).
#![tactic(auto)]

mod idle_jumps;
mod idle_names;
mod idle_registers;
mod near_names;
mod slip;
mod unwritten_locations;

pub use slip::{Slip, SlipKind, first_slip};
