//! What a thread does under given values: its trace, and the order of its accesses.
//!
//! A thread is walked until a read lacks a value. Its trace has its accesses with their sections, and its state where
//! it stops. `is_kept_by` says which program order between two accesses each union keeps.
//!
//! Begin with `thread_trace_of`, `SharedTrace` and `trace_combinations`. Free to change: what is kept beside a trace
//! (`write_bits.rt`), and which traces are known again (`trace_tree.rt`).
//! Relied on: traces and the values of a location are exactly those of the definitions, the values ascending, and
//! `SharedTrace::writes` misses no value that is written.
#![tactic(auto)]

mod combinations;
mod location_values;
mod sections;
mod shared_values;
mod thread_order;
mod thread_trace;
mod trace_count;
mod trace_tree;
mod walk;
mod write_bits;
mod writes;

pub use combinations::{Combinations, trace_combinations};
pub use location_values::{known_values, values_of};
pub use shared_values::{SharedValues, value_lists};
pub use thread_order::is_kept_by;
pub use thread_trace::{SharedTrace, ThreadTrace, thread_trace_at};
pub use trace_tree::TraceTree;
pub use walk::thread_trace_of;
pub use writes::{is_value, is_write_to, writes_any};
