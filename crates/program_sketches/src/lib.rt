//! What a sketch of a program is, which choices it takes, and what it knows.
//!
//! A sketch of a program is a program, a mode, and what is chosen: values, sources and orders. `specs/` says which
//! choices it takes and why it refuses others, which edges it knows, and what it keeps; laws in `proofs/` say that
//! this holds at the start and after each choice, and how many choices there are at most. The code is what kinds of
//! sketches share: events compared (`event_pairs.rt`), lists of what threads do (`thread_lists.rt`), faults, and
//! what is known of truths (`known_truth.rt`).
//!
//! Begin with `first_traces`, `keeps_order` and `SketchFault`. Free to change: how events and lists are compared and
//! copied. Relied on: each definition, since contracts of sketches with rows and without them cite the same; the
//! numbers and the order of faults.
#![tactic(auto)]

mod event_pairs;
mod fault;
mod known_truth;
mod thread_lists;

pub use event_pairs::{
    has_pair, is_initial, is_one_thread, is_same, keeps_order, with_room, write_together,
};
pub use fault::SketchFault;
pub use known_truth::{Knowledge, Left, joined, negated, settled, unsettled};
pub use thread_lists::{access_at, copied, each_ends, first_traces};
