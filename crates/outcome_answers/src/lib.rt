//! The commands `outcomes` and `witness`: what a program may leave, and a run to its condition.
//!
//! They search for runs and place nothing, so this crate stands on the solver, and on nothing that places fences. All of it is
//! over any reader, writer and store of files.
//!
//! Begin with `run_outcomes` and `run_witness`. Free to change: what is said on standard error (`advice.rt`). Relied on: a
//! list has exactly the outcomes of the machine that is asked for, and a run that is shown is one of it, or it has none.
#![tactic(auto)]

mod advice;
mod outcomes;
mod witnesses;

pub use outcomes::run_outcomes;
pub use witnesses::run_witness;
