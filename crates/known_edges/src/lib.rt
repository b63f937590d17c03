//! The known edges of a sketch, in rows of bits by the numbers of its accesses.
//!
//! Once each read of a sketch has its value, each access has a number, its place among all by thread and index. Rows
//! of these numbers have the program order of each union; a choice of a source or of an order adds edges between
//! them.
//!
//! Begin with `in_order`, `Traces` and `EdgeRows`. Free to change: how a number is found (`numbered_traces.rt`),
//! what paths are kept, and which round is found (`round.rt`). Relied on: rows have exactly the known edges of the
//! mode's unions between accesses, whichever choice was made last; a round has no event twice.
#![tactic(auto)]

mod access_rows;
mod edge_rows;
mod numbered_traces;
mod order_rows;
mod round;
mod thread_rows;

pub use access_rows::has_either;
pub use edge_rows::EdgeRows;
pub use numbered_traces::{Traces, push_events};
pub use order_rows::{Ordered, in_order};
pub use round::round_of;
