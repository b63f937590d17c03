//! What all commands share, from texts that are read or refused to answers that are delivered, with `replay` and `trace`.
//!
//! `replay` and `trace` follow a run that is given and search for nothing, so this crate stands on nothing that searches.
//! All of it is over any reader, writer and store of files.
//!
//! Begin with `tell_refusal`, `deliver` and `run_replay`. Free to change: what is said on standard error
//! (`advice.rt`). Relied on: a refusal is its line or its document with status 1, a file that is written holds its
//! text before anything is printed, and no file is changed but those that are named.
#![tactic(auto)]

mod advice;
mod delivery;
mod document;
mod inserted;
mod notes;
mod refusals;
mod refused;
mod replays;
mod status;
mod texts;
mod traces;

pub use advice::{
    AskedText, slip_advice, tell_fences, tell_hint, tell_slip, tell_slip_compared, unkept_advice,
    unread_advice, unread_litmus,
};
pub use delivery::{Answer, deliver};
pub use document::{Told, documented, printed};
pub use inserted::{Unkept, inserted_for, keep_inserted, unkept_line};
pub use notes::{NotedText, SlipPlaces, noted_line, report_verdict, sentence_line, slip_places};
pub use refusals::{AnswerFault, Reply, no_gap_line, print_answer, solve_line};
pub use refused::{said_of, tell_refusal, written};
pub use replays::run_replay;
pub use status::check_status;
pub use texts::{Texts, read_texts};
pub use traces::run_trace;
