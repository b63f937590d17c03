//! A litmus text with fences: its own bytes, and an MFENCE in a cell of its own before each instruction whose gap is fenced.
//!
//! What `fencer place --insert` writes.
//!
//! Begin with `inserted_text`. Free to change: how the text is made, of which no clause speaks (`row_marks.rt`,
//! `drawing.rt`, `insertion.rt`). Relied on: whatever is made is read again, and compared with the
//! canonical text of the fenced program; what is handed out stands for the same.
#![tactic(auto)]

mod drawing;
mod inserted;
mod insertion;
mod row_marks;
mod same_test;

pub use inserted::inserted_text;
