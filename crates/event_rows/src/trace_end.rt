//! Where a thread's trace ends under its given values.
use tso_program::{Local, REGISTERS};

/// A thread at its first read that has no value, or at its end.
#[derive(Clone, Copy)]
pub struct TraceEnd {
    pub last: Local,
    /// The section of its next access.
    pub section: u8,
    /// How many instructions it has executed.
    pub steps: u8,
    /// How many accesses it has.
    pub accesses: u8,
    /// How many values it has been given.
    pub given: u8,
    /// The location of that read.
    pub next: Option<u8>,
    /// Whether that read is an exchange.
    pub is_exchange: bool,
}

impl TraceEnd {
    /// A thread at its start.
    pub(crate) fn new(registers: [u32; REGISTERS]) -> TraceEnd {
        TraceEnd {
            last: Local {
                place: 0,
                registers,
                flag: false,
            },
            section: 0,
            steps: 0,
            accesses: 0,
            given: 0,
            next: None,
            is_exchange: false,
        }
    }

    /// The thread enters its next section.
    pub(crate) fn end_section(&mut self) {
        self.section = self.section.wrapping_add(1);
    }
}
