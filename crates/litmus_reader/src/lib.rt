//! Which program, names and condition a litmus text stands for.
//!
//! It takes the syntax of `litmus_syntax`, numbers the locations by their first appearance, finds the
//! position of each label, and makes the program within its limits.
//!
//! Begin with `read_litmus`, `Litmus::shown_as` and `NameTable`. Free to change: how `NameTable` finds a
//! name, and in which order the parts are put together. Relied on: a test is read exactly where grammar and
//! meaning relate the text to it (`IsLitmus` in `specs/Texts.antt`), and the inner fault of `Program` is the
//! first limit that the text's program breaks.
#![tactic(auto)]

mod condition;
mod fault;
mod jumps;
mod label;
mod laws;
mod lines;
mod litmus;
mod names;
mod noted_names;
mod observed;
mod program;
mod reader;
mod shown;

pub use fault::ReadFault;
pub use label::CodeLabel;
pub use laws::{store_buffering_is_read, texts_name_few_locations};
pub use litmus::Litmus;
pub use names::{NameTable, location_name, register_name};
pub use noted_names::names_of;
pub use observed::Observed;
pub use reader::{read_fenced, read_litmus, refusal_of};
