//! Sketches without rows: what is chosen in them, and what follows by look-ups in lists.
//!
//! `Parts` are what a sketch consists of, rows aside: its program, its mode, what its threads do, and its sources
//! and orders. They answer by the definitions: what an event reads and writes, which edges are known, the sources
//! of a read, whether others may still come (`settled.rt`), what is known of a formula, and whether an outcome is
//! sure. A `RowlessSketch` owns such parts. Values, sources and orders are chosen in it in any sequence.
//!
//! Begin with `Parts`, `RowlessSketch::new` and `RowlessSketch::give_value`. Free to change: how a source or
//! an order is looked up, and what is remembered of a thread under its values (`next_trace.rt`). Relied on: each
//! choice, each known edge and each end is exactly that of the definitions; what is taken back leaves the sketch
//! as it was.
#![tactic(auto)]

mod ending;
mod knowledge;
mod next_trace;
mod parts;
mod rowless_sketch;
mod settled;
mod source_lists;

pub use parts::{Parts, initial_write};
pub use rowless_sketch::{RowlessSketch, ValueMark};
pub use thread_traces::SharedValues;
pub use tso_machine::Mode;
