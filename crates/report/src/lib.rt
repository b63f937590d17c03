//! The lines that the programs print, each of exact bytes.
//!
//! An answer, an accepted set, an outcome, the passed gaps, what outcomes show of a condition, and a line for
//! each refusal. Each ends with a line feed.
//!
//! Begin with `answer_line`, `accepted_line` and `outcome_line`. Free to change: how a line is gathered. The
//! bytes themselves are definitions (`specs/`), and the contracts of both programs cite them. Relied on: the
//! places in a line are those of the gaps' numbers (`printed_places_are_the_gaps`).
#![tactic(auto)]

mod accepted;
mod answers;
mod certificate;
mod check_lines;
mod faults;
mod laws;
mod observations;
mod places;

pub use accepted::accepted_line;
pub use answers::{answer_line, labels_line, outcome_line, passed_line, without_line};
pub use certificate::certificate_line;
pub use check_lines::check_line;
pub use faults::{costs_line, litmus_line, replay_line, run_line};
pub use laws::{observations_are_told, printed_places_are_the_gaps};
pub use observations::{condition_line, frequency, is_true_of, observation_line};
