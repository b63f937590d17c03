//! Cost files: what each gap of a program costs, and which gaps go together.
//!
//! A line names a gap by its thread and the instruction that it lies before, and gives its cost: `0:1 5`. A line of
//! several gaps, as `0:1 1:1 5`, ties them. A gap without a line costs 1, and is a tie of its own.
//!
//! Begin with `read_costs`, `given_costs` and `CostTextFault`. Free to change: how lines are cut, and how the
//! costs are gathered. Relied on: costs are given exactly where a file says them; a refusal names the first
//! line that cannot stand, and for which cause (`RefusesCosts` in `specs/CostTexts.antt`).
#![tactic(auto)]

mod entry;
mod fault;
mod given;
mod line;
mod reader;

pub use fault::CostTextFault;
pub use given::given_costs;
pub use reader::read_costs;
