//! What the commands answer, as one JSON object each.
//!
//! With `--json` it is printed in place of the text, and the page of `--html` is made around it.
//!
//! Begin with `placed_document`, `why_document`, `document_line` and `refusal_document`. Free to change: what is said of a
//! step and of the candidate execution, which tests alone show. Relied on: gaps, costs, sets, labels,
//! outcomes and passed gaps are those of the text that the command prints, each line is JSON, and no byte is `<`.
#![tactic(auto)]

mod answer;
mod document;
mod execution;
mod fenced_model;
mod gaps;
mod lined;
mod note;
mod program;
mod refusal;
mod run;
mod step;
mod survey;
mod witness;

pub use document::{
    outcomes_document, outcomes_with_runs_document, placed_document, trace_document, why_document,
};
pub use fenced_model::FencedModel;
pub use gaps::gaps_document;
pub use json_values::{Scope, condition_sentence, verb_of};
pub use lined::LinedLitmus;
pub use note::{Note, NoteKind, document_line};
pub use refusal::{RefusalMessage, refusal_document};
pub use run::{Setting, run_value};
pub use survey::{ExecutedRun, Findings, FoundAnswer, survey_document};
pub use witness::{Sought, witness_document};
