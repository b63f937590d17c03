//! Why the lines before the initial values could not be read.
use thiserror::Error;

/// Why the lines before the initial values could not be read, with the line where it shows.
#[derive(Clone, Copy, Debug, Error)]
pub enum LineFault {
    /// A line, by its number from 1, that cannot stand where it does.
    #[error("line {0} can't stand before the initial values")]
    Header(u32),
    /// The text stops on this line, from 1, and more is needed.
    #[error("the text ends on line {0} and more is needed")]
    Ended(u32),
}
