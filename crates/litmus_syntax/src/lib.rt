//! The grammar of a litmus text: from tokens to syntax with names.
//!
//! Initial values, the header row, rows, observed places and the signs of the condition. The grammar stands
//! in `specs/Grammar.antt` as relations; the readers are exact in both directions. What is read borrows its
//! names from the tokens.
//!
//! Begin with `read_body`, `read_ending` and `Code`. Free to change: how the readers are divided, how a name
//! that is given twice is found (`seen.rt`), and which part and line a refusal names, which tests alone show.
//! Relied on: what is read is what the grammar relates to the tokens, and nothing else.
#![tactic(auto)]

mod body;
mod cell;
mod code;
mod ending;
mod entry;
mod fault;
mod formula;
mod header;
mod label;
mod mnemonic;
mod observed;
mod parts;
mod place;
mod rows;
mod seen;

pub use body::{Body, read_body};
pub use cell::Cell;
pub use code::Code;
pub use ending::{Ending, read_ending};
pub use entry::Entry;
pub use fault::{Part, Refusal, SyntaxFault};
pub use formula::{Sign, SignAt, Signs};
pub use place::Place;
