//! The text of a certificate that a search proposes.
//!
//! The search asks about the best set of gaps that meets each known foreign run, and learns a run where the set does not
//! serve (implicit hitting sets). Its trees are whole or early; beside early ones the gap tree bounds regions by runs.
//!
//! Nothing is proved of this crate but that it is safe and ends. Who uses what it proposes lets it be read and judged as
//! `fencecheck` does with any file. Begin with `propose`; `proposed_rule` says of which programs it is asked, and by which
//! rule. Free to change: all of it.
#![tactic(auto)]

mod cover_text;
mod foreign_runs;
mod gap_text;
mod size;
mod text;

pub use candidate_search::{SearchPlan, SearchWatch};
pub use size::proposed_rule;
pub use text::propose;
