//! Which rule of litmus texts a refused token breaks, and the places in texts.
//!
//! Tables of words without semantics, and what finds the place to which they apply.
//!
//! Begin with `spot_of`, `said_of` and `row_fault`: what stands where a token is refused, what is said of it, and what no
//! single token shows. Free to change: every word; its functions have no clauses, and `tests/data/messages.tsv` shows what
//! is said. Relied on: nothing but that each call ends and is safe.
#![tactic(auto)]

mod cell_rules;
mod condition_rules;
mod forms;
mod locks;
mod pointer;
mod rows;
mod rule;
mod rules;
mod shown;
mod source;
mod text_end;
mod tokens;

pub use pointer::push_pointed_line;
pub use rows::{Cells, RowFault, row_fault};
pub use rules::{COMMENT, OPEN_COMMENT, said_of};
pub use shown::{push_shown_word, shown_word};
pub use source::{Position, Source, line_of, line_start};
pub use tokens::{Spot, begins_foreign_comment, spot_of, word_at};
