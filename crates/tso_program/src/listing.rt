//! Programs as they are written down.
use crate::{Instr, Items, REGISTERS};

/// A thread: its instructions, and what its registers hold at first.
#[derive(PartialEq, Eq, Debug, Drop)]
pub struct Thread {
    pub code: Items<Instr>,
    pub registers: [u32; REGISTERS],
}

/// Threads, and what the locations hold at first, without limits.
#[derive(Drop)]
pub struct Listing {
    pub threads: Items<Thread>,
    pub memory: Items<u32>,
}
