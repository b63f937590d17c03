//! A run at whose outcome a condition's formula has some truth, or that there is none.
//!
//! What `fencer witness` prints: the machine of a model, with the gaps fenced that are asked for.
//!
//! Begin with `witness_text`, `WitnessText` and `WitnessFault`. Free to change: which run is shown, and how
//! its flushes are made early (`early_flushes.rt`), where each try is judged by its replay. Relied on: the
//! run is one of that machine with this truth, and its table that of its steps, or no run of it has it
//! (`IsWitnessText` in `specs/WitnessTexts.antt`).
#![tactic(auto)]

mod early_flushes;
mod fault;
mod gaps;
mod lines;
mod serial_runs;
mod witness;

pub use fault::WitnessFault;
pub use gaps::gaps_at;
pub use witness::{WitnessText, witness_text};
