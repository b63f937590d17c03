//! The search for cover trees.
//!
//! A tree shows that a list has each outcome of a machine. The search goes through the candidate executions of a program, and
//! closes a sketch as soon as it must end as an outcome of the list, or has a cycle. It chooses the values of all reads first,
//! a thread at a time, then sources, then orders. A child's tree that is valid without its choice takes its parent's place.
//!
//! Begin with `Search::cover`. Free to change: what is chosen next (`next_choice.rt`), and which children are judged at their
//! parent's sketch (`tree_search.rt`). Relied on: a tree is valid and within the limits of a certificate's text, and where there
//! is none a run has an outcome that the list lacks.
#![tactic(auto)]

mod access_ids;
mod accesses;
mod choice;
mod leaf;
mod next_choice;
mod open_choice;
mod run;
mod search;
mod stop;
mod tree_search;

pub use run_maker::MadeRun;
pub use search::Search;
pub use stop::SearchStop;
