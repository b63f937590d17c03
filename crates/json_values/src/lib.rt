//! What programs, runs and outcomes are made of, as JSON: names, gaps, labels, values and sentences.
//!
//! The documents are put together from these texts. None needs the lines of a litmus text, or what a step of a run does.
//!
//! Begin with `outcomes_array`, `gap_names` and `saying`. Free to change: the condition's text in a sentence. Relied on: gaps,
//! labels and outcomes are exactly those that are given, and what is said of a condition is the verb of its quantifier.
#![tactic(auto)]

mod label;
mod named;
mod outcome;
mod program;
mod sayings;

pub use label::{label_text, labels_array, runs_array};
pub use named::{gap_name, gap_names, located, location, number};
pub use outcome::{outcome_array, outcomes_array};
pub use program::{
    all_register_names, code_text, condition_text, initial_values, labels_at, location_names,
    register_values, values,
};
pub use sayings::{Scope, condition_sentence, saying, verb_of};
