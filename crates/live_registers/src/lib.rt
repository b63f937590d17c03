//! Live registers, and the program without its dead loads.
//!
//! One pass from the end of a thread finds the registers that are live before each instruction; a load whose
//! register is not live after it becomes a copy of the register onto itself.
//!
//! Begin with `without_dead_loads`, `live_rows` and `shown_row`. Free to change: how the rows lie in memory, and
//! the order of the pass. Relied on: exactly the dead loads become copies, so one program and one question have
//! one program without dead loads (`OneIsWithoutAllDeadLoads` of `dataflow_laws`), and all else stays as it was.
#![tactic(auto)]

mod dead_loads;
mod live;

pub use dead_loads::without_dead_loads;
pub use live::{live_rows, shown_row};
