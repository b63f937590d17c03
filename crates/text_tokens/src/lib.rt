//! What the text formats share: bytes, decimal numbers, and tokens with their lines.
//!
//! The tokens of a text are words, numbers and marks; white space and comments, which nest, are not tokens. What is
//! read is exact in both directions.
//!
//! Begin with `lex`, `after_space` and `value_up_to`. Free to change: how the list of tokens lies in memory,
//! and which line a token is said to stand on, which tests alone show. Relied on: a text has one list of
//! tokens (`a_text_has_one_list_of_tokens`), and what is written in pieces is read as their tokens
//! (`pieces_are_read_again`).
#![tactic(auto)]

mod bytes;
mod comment;
mod laws;
mod lexer;
mod numbers;
mod parts;
mod space;
mod token;

pub use bytes::{
    are_digits, are_line_spaces, blanks_len, digits_len, is_blank, is_letter, is_line_space,
    is_white_space, is_word_byte, line_spaces_len,
};
pub use laws::{
    a_text_has_one_list_of_tokens, a_whole_text_has_no_bad_token, pieces_are_read_again,
};
pub use lexer::{Tokens, lex};
pub use numbers::{plain_number, plain_number_up_to, value_up_to};
pub use parts::{begins, begins_number, mark, number, word};
pub use space::after_space;
pub use token::{Bad, Mark, Token};
