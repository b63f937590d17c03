//! Partly chosen candidate executions, as rows of bits by fixed numbers of their accesses.
//!
//! Access i of thread t has the number start(t) + i, where the start of a thread is how many instructions of the threads
//! before it make accesses. So no choice moves a number, choices come in any turn, and they are taken back by a copy of
//! the rows.
//!
//! Nothing is proved of this crate but that it is safe and ends: a search proposes by it, and others judge. Numbers out
//! of range are taken modulo the size of their table. Begin with `EventGraph` and `PossibleWrites`. Free to change: all
//! of it.
#![tactic(auto)]

mod event_graph;
mod graph_choice;
mod mark;
mod numbering;
mod numbers;
mod possible_writes;
mod round;
mod row_list;
mod rows;
mod trace_end;

pub use event_graph::EventGraph;
pub use graph_choice::{Decision, GraphChoice};
pub use mark::Mark;
pub use numbering::Numbering;
pub use numbers::{Numbers, each_in, first_numbers, is_in, one, shifted};
pub use possible_writes::PossibleWrites;
pub use round::{reached_from, round_through};
pub use row_list::RowList;
pub use rows::EventRows;
pub use trace_end::TraceEnd;
