//! A search for cover trees that proposes: what it proposes is judged by others.
//!
//! The search goes through the candidate executions of a program in one graph of events. In an early tree a source is
//! decided as soon as no other thread may still write the read's value, and an order as soon as a cycle forces it; in a
//! whole tree both are decided once each read has its value. A tree that does not rest on the last choice takes the place
//! of the node above it (conflict-directed backjumping). `search_state` says what is decided next, and what a tree rests
//! on.
//!
//! Nothing is proved of this crate but that it is safe and ends. A tree that it proposes is judged by `cover_judge`, a
//! run by its replay, and where a proposal is refused or lacking, the solver that is proved stands in. Begin with
//! `ProposingSearch`. Free to change: all of it.
#![tactic(auto)]

mod backjumping_search;
mod filling;
mod made_run;
mod parts;
mod proposals;
mod proposing_search;
mod search_watch;
mod searched;
mod sequential_run;
mod shapes;

pub use proposals::{Proposal, ProposedOutcomes};
pub use proposing_search::{ProposingSearch, SearchPlan};
pub use search_watch::SearchWatch;
