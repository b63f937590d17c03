//! JSON as text, without a byte that is `<`.
//!
//! Each call gives the text of a value. So a document may stand in a web page's script element as it is.
//!
//! Begin with `JsonObject`, `JsonArray` and `JsonText`. Free to change: how the text is gathered. Relied on:
//! each text is that of a value (`specs/` has the grammar), a string has escapes for `"`, `\`, each byte
//! below 0x20 and `<`, and no byte is `<`.
#![tactic(auto)]

mod array;
mod escape;
mod json;
mod laws;
mod listed;
mod object;

pub use array::JsonArray;
pub use json::JsonText;
pub use laws::{no_object_closes_early, the_example_is_written};
pub use object::JsonObject;
