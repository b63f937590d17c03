//! The laws of data flow in a program: which loads are dead, and which values may be held.
//!
//! A load is dead where its register is not live after it. A register or a location may hold a value that
//! flows to it from an initial value or an immediate. The functions are laws, and calling one does nothing.
//!
//! Begin with `dead_loads_keep_the_answer`, `dead_loads_keep_runs` and `runs_hold_what_they_may`. Free to
//! change: the proofs. Relied on: without its dead loads a program has the same runs, label by label, with
//! the same shown outcomes and passed gaps, and so the same answer; no run of either machine holds a value
//! that may not be held there.
#![tactic(auto)]

mod laws;

pub use laws::{
    dead_loads_add_no_values, dead_loads_keep_outcomes, dead_loads_keep_runs,
    dead_loads_keep_the_answer, dropped_loads_keep_gaps, one_pass_finds_what_is_live,
    runs_hold_what_they_may, the_lock_holds_zero_or_one,
};
