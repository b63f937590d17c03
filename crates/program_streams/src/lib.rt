//! What the programs read and write: streams and files up to a limit, arguments, answers.
//!
//! For any program and over any reader, writer and store of files, so that contracts can name their bytes.
//! Beside these stands where a long search reports how far it is.
//!
//! Begin with `read_up_to`, `FileStore` and `print`. Free to change: how much is read at a time, and when
//! `Progress` reports. Relied on: no more than one byte past a limit is read; what a named file holds after a
//! write, with every other file as it was; what a writer took of an answer, and with which status.
#![tactic(auto)]

mod command_line;
mod console;
mod fault;
mod files;
mod groups;
mod output;
mod progress;
mod streams;
mod version;
mod words;

pub use command_line::given_words;
pub use console::{Console, Outputs, refuse};
pub use fault::{FileFault, UnreadFile, file_line};
pub use files::{
    FileStore, Obstacle, SystemFiles, TEXT_LIMIT, WritableFileStore, bytes_if_named, named_bytes,
};
pub use groups::grouped;
pub use output::{print, refuse_words};
pub use progress::Progress;
pub use streams::{read_line_up_to, read_on, read_rest_up_to, read_up_to, write_bytes};
pub use version::{VERSION, asks_version, version_line};
pub use words::{WordsFault, line_words};
