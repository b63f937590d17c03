//! The command lines of `fencer`: from arguments to a job.
//!
//! Each command is a module with its help and its job; its parameters stand in a table (`form.rt`).
//!
//! Begin with `read_words`, `Job` and `Placement`. Free to change: the sentences of the help and of hints, which
//! tests alone show. Relied on: a job is given exactly as `clap` reads the arguments by the definitions of
//! `specs/CommandLines.antt`; no job writes a file that it reads, nor one file twice.
#![tactic(auto)]

mod arguments;
mod fences;
mod files;
mod form;
mod gaps;
mod hints;
mod job;
mod outcomes;
mod parameter;
mod place;
mod replay;
mod survey;
mod trace;
mod why;
mod witness;
mod words;

pub use hints::option_hint;
pub use job::{
    GapQuery, Job, OutcomeQuery, Placement, Run, SurveyOptions, SurveyQuery, TieQuery, TraceQuery,
    WhyQuery, WitnessQuery,
};
pub use words::read_words;
