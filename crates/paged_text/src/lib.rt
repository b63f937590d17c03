//! Long texts in pages.
//!
//! A text of many megabytes in one block needs a block as long, while it grows one more, and bytes that are copied
//! each time. In pages it takes as many small blocks, into which freed ones fit, and nothing is copied.
//!
//! Begin with `Pages::of`, `Pages::push` and `Pages::as_slice`. Free to change: how long a page is, which its
//! maker says. Relied on: pages are seen as the bytes of all of them in order.
#![tactic(auto)]

mod pages;

pub use pages::Pages;
