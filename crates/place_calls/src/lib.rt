//! Tests: what the placer finds, by which questions, and scripts of hunts that ask a solver.
//!
//! Its solvers count questions, hold one back, have runs at hand, or have no answer; so they show that
//! workers run in threads, and how a hunt ends with a fault.
//!
//! Begin with `push_of_place`, `PlaceCall` and `PlacerCall`. Free to change: all that is printed, together
//! with `tests/data/solver.tsv` and `tests/data/asks.tsv`. Relied on: `test_calls` alone stands on it.
#![tactic(auto)]

mod answers;
mod exchanges;
mod gates;
mod lacking;
mod placing;
mod refusal;
mod sharing;
mod verdicts;

pub use answers::{PlaceCall, push_of_hunt, push_of_place};
pub use exchanges::push_exchanged;
pub use placing::PlacerCall;
pub use refusal::PlaceRefusal;
