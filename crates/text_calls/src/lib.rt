//! Tests: calls of texts, sets, costs, programs, machines and certificates.
//!
//! The words of all calls stand here too: how an input is cut, and how numbers, gaps and labels are read from
//! it. It promises nothing beyond safety.
//!
//! Begin with `push_of_text`, `push_of_litmus` and `words_of`. Free to change: all that is printed, together
//! with `tests/data/calls.tsv`. Relied on: the other libraries of the tests take their words from here.
#![tactic(auto)]

mod answers;
mod calls;
mod certificates;
mod fences;
mod formulas;
mod input;
mod lines;
mod machines;
mod observations;
mod programs;
mod questions;
mod refusal;
mod sets;
mod syntax;
mod texts;
mod tokens;

pub use answers::{push_of_litmus, push_of_text};
pub use calls::{LitmusCall, TextCall};
pub use fences::gaps_of;
pub use input::{
    byte_at, byte_of, gap_set_of, named, number_of, parts_of, place_of_then, push_bytes,
    split_at_byte, split_line, word_at, words_of,
};
pub use lines::{push_gaps_after, push_run};
pub use machines::{labels_from, outcome_of, push_outcome};
pub use questions::{equal_costs, passes_none, set_in};
pub use refusal::TextRefusal;
pub use sets::push_gaps;
