//! Litmus texts and cost files: what reads them, and the canonical text of a litmus test with its fences.
//!
//! A test has one spelling, which is read back. The writer stands apart from the reader, since the law that what is
//! written is read again needs both its grammar and its meaning. What reads texts and writes outcomes is handed on,
//! with the types in the fields and signatures of these calls.
//!
//! Begin with `read_litmus`, `write_litmus` and `read_costs`. Free to change: how the text is gathered. The spelling
//! itself is a definition (`specs/Spelling.antt`, `specs/Canonical.antt`). Relied on: what is written of a test is
//! read as its fenced program, with the same names and condition, and each label where its instruction or its fence
//! stands; a text stands for one test, and a cost file for one list of costs.
#![tactic(auto)]

mod code;
mod entries;
mod formula;
mod labels;
mod laws;
mod observed;
mod rows;
mod words;
mod writer;

pub use code::push_code;
pub use conditions::{Atom, Condition, Formula, Quantifier, holds};
pub use cost_text::{CostTextFault, given_costs, read_costs};
pub use formula::push_condition;
pub use gap_sets::{CostFault, Costs, GapSet};
pub use laws::{
    a_condition_costs_no_more, a_cost_text_gives_one_list_of_costs,
    a_litmus_text_stands_for_one_test, canonical_text_is_read, printed_parts_are_read,
    store_buffering_is_written,
};
pub use litmus_reader::{
    CodeLabel, Litmus, NameTable, Observed, ReadFault, location_name, read_fenced, read_litmus,
    register_name, store_buffering_is_read, texts_name_few_locations,
};
pub use outcome_text::write_outcome;
pub use tso_program::{
    FenceFault, FencedProgram, Items, Names, Outcome, Program, ProgramFault, Reg, Shown,
};
pub use writer::write_litmus;
