//! Who says of a set of gaps whether it serves, and what such an answer keeps.
//!
//! Who is asked about a set of gaps answers with a foreign run that passes none of them, or with the set and
//! a tree that shows that it serves. The types keep that it is so, whoever makes their values.
//!
//! Begin with `Oracle`, `Verdict` and `ForeignRun::new`. Free to change: how an outcome is looked up in a table
//! (`table.rt`). Relied on: a table has exactly the sequential outcomes, with a valid tree over them; a foreign
//! run is one; a set that serves has a valid tree. The searches stand on these alone, and on no solver.
#![tactic(auto)]

mod fault;
mod foreign_run;
mod oracle;
mod served;
mod table;

pub use fault::{ForeignFault, SolveFault};
pub use foreign_run::ForeignRun;
pub use oracle::{Oracle, Verdict};
pub use served::Served;
pub use table::SeqTable;
