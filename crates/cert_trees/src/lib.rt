//! Trees of certificates as they lie in memory, and walks over them.
//!
//! A cover tree shows which outcomes a sketch can have, a gap tree that no better set of gaps serves. A tree is
//! one list of nodes, each before its children, which copies share; a cover tree's nodes have eight bytes.
//! Contracts see the tree.
//!
//! Begin with `CoverTree`, `Node` and `Walk`. Free to change: the nodes (`node.rt`), but with the crates that push
//! them: `cert_forest`, `cover_search`, `candidate_search` and `fence_place`. Relied on: nodes spell one tree
//! (`nodes_spell_one_tree`), and a walk shows the nodes of the tree that contracts see.
#![tactic(auto)]

mod events;
mod gap_walk;
mod laws;
mod node;
mod rule;
mod tree;
mod walk;

pub use candidate_executions::Kind;
pub use events::Events;
pub use gap_walk::GapWalk;
pub use laws::nodes_spell_one_tree;
pub use node::{GapNode, NEAR_RUNS, Node, push_cycle, push_known, take_out};
pub use rule::Rule;
pub use tree::{AccessId, CoverTree, GapTree, MAX_COVER_DEPTH, MAX_GAP_DEPTH};
pub use walk::{CoverNode, Walk};
