//! What is found of a program.

use crate::visit::Visit;
use documents::ExecutedRun;
use gap_sets::TiedCosts;
use litmus_text::Litmus;
use placed_text::AnswerText;
use tso_program::Program;

/// A litmus test, with what is found of its program.
#[derive(Drop)]
pub(crate) struct Survey {
    pub(crate) litmus: Litmus<Program>,
    /// Whether the condition holds sequentially.
    pub(crate) sequential: bool,
    /// Whether it holds with store buffers and no fence.
    pub(crate) buffered: bool,
    /// Each instruction.
    pub(crate) visits: Vec<Visit>,
    /// Runs that together execute each instruction that some run executes.
    pub(crate) runs: Vec<ExecutedRun>,
    /// What the gaps cost, and which go together.
    pub(crate) costs: TiedCosts,
    /// The answer for the condition's truth.
    pub(crate) condition: AnswerText,
    /// The answer for whole outcomes.
    pub(crate) whole: AnswerText,
}
