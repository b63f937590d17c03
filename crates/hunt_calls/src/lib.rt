//! Tests: scripts of calls of one search or one hunt, and what each call answers.
//!
//! A search and a hunt change from call to call, so a case is a script. It shows what no contract can: what a
//! settling does to the tree under the lock. Any oracle answers its questions.
//!
//! Begin with `push_of_hunt`, `HuntCall` and `Inquiry`. Free to change: all that is printed, together with
//! `tests/data/solver.tsv`. Relied on: `place_calls` makes two hunts by one script each (`hunt_by`).
#![tactic(auto)]

mod answers;
mod beside;
mod ceilings;
mod hunts;
mod inquiry;
mod records;
mod refusal;
mod scene;
mod search;
mod settlings;

pub use answers::{HuntCall, push_of_hunt};
pub use hunts::{Hand, hunt_by, push_end};
pub use inquiry::Inquiry;
pub use refusal::HuntRefusal;
