//! The answer as a definition that computes, and that each question has exactly one.
//!
//! The list of a machine's outcomes is made by trying each step at each state; the answer is the best of the
//! sets that serve by these lists. Laws alone: no program runs the definition, and no search is measured by
//! it.
//!
//! Begin with `the_answer_exists`, `outcomes_are_listed` and `the_headline_tells_the_answer`. Free to change:
//! the proofs. Relied on: the contracts of `check` and `place` say that their set is `the_answer` and their
//! cost its `least_cost`.
#![tactic(auto)]

mod laws;

pub use laws::{
    each_set_serves_or_leaves_an_outcome, examples_are_computed, outcomes_are_listed,
    the_answer_exists, the_best_set_is_found, the_headline_tells_the_answer,
};
