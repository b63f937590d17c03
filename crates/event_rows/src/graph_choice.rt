//! What is chosen of a candidate execution, by the numbers of its accesses.

/// A choice, by the numbers of accesses.
#[derive(Clone, Copy)]
pub enum GraphChoice {
    /// The next read of a thread has a value.
    Value { thread: u8, value: u32 },
    /// A read has a write as its source, or the initial one of its location.
    Source { read: u8, write: Option<u8> },
    /// The first of two writes to one location comes before the second.
    Order { first: u8, second: u8 },
}

/// What a choice decides.
#[derive(Clone, Copy)]
pub enum Decision {
    /// The value of a thread's next read.
    Value(u8),
    /// The source of a read.
    Source(u8),
    /// The order of two writes to one location.
    Order(u8, u8),
}
