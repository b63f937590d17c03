//! The states that a program's sequential runs pass through, and which instructions they execute.
//!
//! Begin with `SequentialStates::of`, `SequentialStates::within` and `SequentialStates::run_through`. Free to change:
//! which states are listed, and how they are kept and found again. Relied on: each run that is handed out is a whole
//! sequential run that executes the instruction, and where none is, no sequential run executes it.
#![tactic(auto)]

mod laws;
mod listed;
mod snapshot;
mod states;
mod walk;
mod worklist;

pub use laws::executions_are_told;
pub use states::SequentialStates;
