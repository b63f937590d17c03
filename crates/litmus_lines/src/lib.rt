//! The lines of a litmus text before its initial values, and where its tokens stand.
//!
//! The first line has the test's name; then come quoted lines, information lines, white space and comments up
//! to `{`. They are read as bytes, without tokens. `PlacedTokens` has the tokens from `{` on with their places, for
//! messages, lists of gaps and texts with fences.
//!
//! Begin with `read_first_line`, `skip_lines` and `PlacedTokens`. Free to change: how the lines are gone
//! through, and how the places are found, of which no clause speaks. Relied on: the name and the text from `{`
//! on are exact in both directions, and no two refusals fit the lines that are skipped (`one_fault_of_lines`).
#![tactic(auto)]

mod fault;
mod first_line;
mod laws;
mod lines;
mod offsets;
mod open_comments;
mod placed_tokens;
mod skipped_lines;

pub use fault::LineFault;
pub use first_line::read_first_line;
pub use laws::one_fault_of_lines;
pub use lines::line_number;
pub use offsets::{between, bytes_from, line_begin};
pub use open_comments::open_comment;
pub use placed_tokens::PlacedTokens;
pub use skipped_lines::skip_lines;
