//! What a search may cost, and what is reported of it before it starts, for all commands that search.
//!
//! `place`, `why`, `outcomes`, `witness` and `survey` search by an `Effort`. What lies ahead is reported to people alone.
//!
//! Begin with `Effort`, `outcomes_by` and `warn_of_minutes`. Free to change: what is reported (`ahead.rt`). Relied on:
//! the outcomes are exactly those of the machine, as far as they are shown, and of which programs it is said that they may take
//! minutes (`may_take_minutes` in `specs/Extents.antt`).
#![tactic(auto)]

mod ahead;
mod effort;
mod extent;
mod outcomes;

pub use ahead::{combinations_text, report_ahead};
pub use candidate_search::SearchWatch;
pub use cover_solver::{OutcomeList, SolveFault};
pub use effort::Effort;
pub use extent::warn_of_minutes;
pub use outcomes::outcomes_by;
