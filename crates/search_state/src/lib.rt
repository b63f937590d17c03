//! What a search that proposes has decided and knows, what its trees rest on, and what it decides next.
//!
//! `Trail` has the depth of each decision, and `Conflicts` says by it on which of them a leaf or a node rests
//! (`ConflictSet`). `KnownOutcomes` are those that leaves may name; `KnownEnds` and `known_truth` say as which of them a
//! graph must end. `next_decision` says what comes next.
//!
//! Nothing is proved of this crate but that it is safe and ends: a search proposes by it, and others judge. Numbers out
//! of range are taken modulo the size of their table, and depths above 255 share a bit. Types of `event_rows` and
//! `cert_forest` that a search by it needs are passed on. Begin with `Conflicts` and `next_decision`. Free to change: all
//! of it.
#![tactic(auto)]

mod conflict_set;
mod conflicts;
mod decisions;
mod known_ends;
mod known_outcomes;
mod orders;
mod settled;
mod sources;
mod trail;
mod truths;
mod values;

pub use cert_forest::{AccessId, Node, Rule, Runs, push_cycle, push_known, take_out};
pub use conflict_set::ConflictSet;
pub use conflicts::Conflicts;
pub use decisions::{choices_of, next_decision};
pub use event_rows::{
    Decision, EventGraph, GraphChoice, Mark, PossibleWrites, each_in, is_in, reached_from,
    round_through,
};
pub use known_ends::{KnownEnd, KnownEnds};
pub use known_outcomes::{KnownOutcomes, NumberedOutcomes};
pub use sources::read_of_nobody;
pub use trail::Trail;
pub use truths::known_truth;
