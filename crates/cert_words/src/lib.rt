//! Words, numbers and line ends of a certificate's text.
//!
//! Each word stands after one space, and a number has no leading zeros. A call reads one of them from the
//! bytes, or says why it can't stand there.
//!
//! Begin with `word`, `number` and `can_become`. Free to change: how the bytes are gone through. Relied on:
//! words and numbers are read exactly, so that a certificate has one text; a word that the end cuts is
//! `Ended` exactly where more digits could complete it.
#![tactic(auto)]

mod completions;
mod numbers;
mod refusal;
mod words;

pub use completions::can_become;
pub use numbers::{MAX_COUNT, count, digit_within, number};
pub use refusal::{Stop, WordRefusal, Wrong, refused, refused_unless_cut, refused_word};
pub use words::{begins_word, end, ends_word, first_word, letter, name, word};
