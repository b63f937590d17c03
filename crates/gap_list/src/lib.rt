//! The list of a program's gaps with their lines, the cost file of all of them, and which gaps likely go together.
//!
//! What `fencer gaps` prints, and what `fencer place` tells on a terminal of its answer's gaps.
//!
//! Begin with `gap_list`, `fence_notes`, `cost_file` and `likely_ties`. Free to change: how the number of an
//! instruction's line is found (`TextLines::of_text`), and which gaps likely are one line of a source
//! (`shared_lines.rt`), of which no clause speaks. Relied on: the list has exactly a line for each gap, ascending, with
//! the instruction after it and its cost; the cost file is read as the costs that it was made of.
#![tactic(auto)]

mod alignment;
mod cost_lines;
mod dearest_ties;
mod list;
mod notes;
mod shapes;
mod shared_lines;
mod text_lines;
mod tied_lines;
mod tries;

pub use cost_lines::cost_file;
pub use dearest_ties::tied_file;
pub use list::{gap_list, push_instruction};
pub use notes::fence_notes;
pub use shared_lines::{SharedCode, likely_ties};
pub use text_lines::TextLines;
pub use tied_lines::tie_lines;
