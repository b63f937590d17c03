//! Litmus tests with the lines of their texts.

use gap_list::TextLines;
use litmus_text::Litmus;
use tso_program::Program;

/// A litmus test, and the lines of its text in which the instructions stand.
#[derive(Clone, Copy)]
pub struct LinedLitmus<'a> {
    pub litmus: &'a Litmus<Program>,
    pub lines: &'a TextLines,
}
