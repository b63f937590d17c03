//! The text of an outcome: what is shown of registers and locations, by their names.
//!
//! Each register that the litmus text names and each location with its value, as far as it is shown, with a space
//! between two of them. It stands apart from the text of a test, so that what prints an outcome does not wait for
//! that.
//!
//! Begin with `write_outcome`. Free to change: how the text is gathered. Relied on: it is byte for byte that of the
//! definition (`specs/Outcomes.antt`).
#![tactic(auto)]

mod outcome;

pub use outcome::write_outcome;
