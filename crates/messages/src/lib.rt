//! What is said to people of a refusal.
//!
//! Tables of words without semantics. A message goes to standard error, after the line `refused ..` for
//! scripts.
//!
//! Begin with `litmus_message`, `check_message` and `Message`. Free to change: every word; its functions have
//! no clauses, and `tests/data/messages.tsv` shows what is said. Relied on: nothing but that each call ends and is
//! safe; a message that can't be made or written leaves the answer as it is.
#![tactic(auto)]

mod certificates;
mod costs;
mod fence_hints;
mod fences;
mod files;
mod hints;
mod labels;
mod litmus;
mod message;
mod misuses;
mod programs;
mod rows;

pub use certificates::{certificate_message, check_message};
pub use costs::costs_message;
pub use fences::fence_message;
pub use files::{unread_message, unwritten_message};
pub use hints::command_hint;
pub use labels::{replay_message, run_message};
pub use litmus::litmus_message;
pub use litmus_rules::{Source, shown_word, word_at};
pub use message::{Message, STDIN, file_or_input};
pub use misuses::misuse_line;
