//! What one look at a program finds: its verdicts, the instructions that no sequential run executes, and its answers.
//!
//! What `fencer survey` prints of a file, as lines and as a document; `place` and `why` say of instructions that are
//! not executed what it says.
//!
//! Begin with `survey_text`, `SurveyText` and `unexecuted_within`. Free to change: how the number of an instruction's
//! line is found, of which no clause speaks, and what is said to people of instructions that are not executed
//! (`stretch.rt`). Relied on: the verdicts are what the quantifier says of the runs of both machines, exactly the instructions
//! are named that no sequential run executes, each other stands with a run, and both answers are those of `answer_text`
//! (`IsSurveyText` in `specs/Surveys.antt`).
#![tactic(auto)]

mod document;
mod execution;
mod finding;
mod instruction_lines;
mod lines;
mod stretch;
mod survey;
mod verdict;
mod visit;

pub use finding::{SurveyText, survey_text};
pub use stretch::{Stretch, Unexecuted, unexecuted_in};
pub use visit::unexecuted_within;
