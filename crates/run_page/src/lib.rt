//! The page of `--html`: HTML around a document of `fencer`.
//!
//! In a browser one steps through runs in it. Its sources are `page/`; `page/make.py` makes the constants of
//! `bytes.rt` from them, and the tests compare the two.
//!
//! Begin with `page_of`, the one function of the crate. Free to change: the whole page, then `page/make.py`;
//! `tests/page` shows that it draws what the document says. Relied on: the page is exactly what stands before the
//! document, the document as it is, and the rest.
#![tactic(auto)]

mod bytes;
mod page;

pub use page::page_of;
