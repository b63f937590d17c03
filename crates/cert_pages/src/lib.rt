//! The text of a certificate, in pages.
//!
//! A long text is written page by page, so that what a search has freed is used again, and no byte is copied when
//! it grows. The words of a long tree are written part by part, which threads share. `cert_forest` has the text's
//! definition, and reads it.
//!
//! Begin with `write_pages` and `write_cert`; `push_node` and its like write single lines and words, for a text whose
//! certificate is no value. Free to change: how long a page is, and how a tree is shared out. Relied on: the pages hold
//! the certificate's text, in order.
#![tactic(auto)]

mod draft;
mod parts;
mod words;
mod writer;

pub use words::{
    push_access, push_cycle_head, push_head, push_letter, push_node, push_number, push_run,
    push_set, push_split,
};
pub use writer::{write_cert, write_pages};
