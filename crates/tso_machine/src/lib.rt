//! The sequential machine and the store buffer machine: runs, outcomes, replays.
//!
//! A machine is a function over `Listing`s in `specs/Machine.antt`; a run is a list of labels, each possible
//! in turn, that ends with every thread at its end and every buffer empty.
//!
//! Begin with `replay`, `steps` and `read_run`. Free to change: how a replay keeps buffers and memory
//! (`state.rt`, `cores.rt`). Relied on: a replay accepts exactly the runs, with their whole outcome and the
//! gaps that they pass, and otherwise names the first step that is not possible; an MFENCE in the text and a
//! gap at which the machine waits say the same (`fencing_is_the_machine_with_gaps`). `Headline` of
//! `specs/Outcomes.antt` is what an accepted line says.
#![tactic(auto)]

mod cores;
mod label;
mod laws;
mod mode;
mod replaying;
mod run_text;
mod state;
mod stepping;

pub use label::{Cause, Label, Model, Pending};
pub use laws::{
    a_run_that_passes_nothing_is_sequential, a_served_truth_is_kept, all_gaps_serve,
    all_shown_are_the_outcomes, an_answer_without_ties_costs_no_more,
    an_observed_answer_costs_no_more, every_run_is_short, examples_are_told,
    fenced_runs_pass_no_gap_of_the_set, fences_are_avoided, fencing_is_the_machine_with_gaps,
    passed_names_tell_the_fenced_runs, programs_jump_forward, runs_have_no_fault,
    sequential_runs_are_allowed, the_answer_is_the_best_allowed_set, the_answer_is_the_only_one,
    the_first_fault_is_unique, the_headline_is_the_answer, what_serves_serves_each_part,
};
pub use mode::Mode;
pub use replaying::{Ended, ReplayFault, replay, replay_shown};
pub use run_text::{RunFault, label_of, read_run, write_run};
pub use stepping::{Step, ThreadState, steps};
