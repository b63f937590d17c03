//! The search for the best set of gaps that serves, as events on a tree of regions.
//!
//! A node stands for a region of sets. A run that these sets can't forbid splits it, a set that serves closes
//! it. There are no threads here: a call is one event.
//!
//! Begin with `SearchTree::take`, `SearchTree::split` and `SearchTree::finish`. Free to change: which open
//! node `take` gives (`best_open` in `entries.rt`), and how the nodes are kept. Relied on: the tree's type
//! keeps that a history of events reached it, and in each such state the answer is the best set so far or
//! lies in an open or held node (`the_answer_is_never_lost`).
#![tactic(auto)]

mod best;
mod ceiling;
mod entries;
mod entry;
mod fault;
mod finished;
mod laws;
mod subject;
mod tree;

pub use ceiling::{Ceiling, Reason};
pub use fault::TreeFault;
pub use finished::{Finished, Settled, SettledEvent};
pub use laws::{
    a_done_state_has_the_answer, a_seat_holds_one_node, settling_lessens_the_work,
    the_answer_is_never_lost, the_least_cost_is_the_least_ceiling,
};
pub use oracle::{ForeignRun, Served, Verdict};
pub use subject::Subject;
pub use tree::SearchTree;
