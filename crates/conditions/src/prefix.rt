//! What a writer has still to write.

/// What is written before the operand that is met next. After `Stop` comes no more: that operand is a right one.
#[derive(Clone, Copy)]
pub enum Prefix {
    Not,
    Open,
    Stop,
}
