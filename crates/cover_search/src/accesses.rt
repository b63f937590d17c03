//! Reads and writes of a sketch, with their locations and their values.
ghost use Rattle.std.specs.Prelude.{◌≡◌, [], IfOk, OnOk, IfSome, All};
ghost use Rattle.candidate_executions.specs.Sketches.{IsWhole};
ghost use Rattle.program_sketches.specs.ProgramSketches.{mode_in};
ghost use Rattle.cover_search.specs.Accesses.{IsReadValue, IsWrittenValue, AreAccessesOf, IsItself, IsOfItsThread, TakesIn};

use bit_rows::ROW_BITS;
use cert_trees::AccessId;
use cover_judge::event_of;
use exec_axioms::{Event, Sketch};
use std::alloc::{AllocError, Global};

/// A read, with its location and its value.
#[derive(Clone, Copy)]
pub(crate) struct ReadValue {
    pub(crate) read: AccessId,
    pub(crate) location: u8,
    pub(crate) value: u32,
}

/// A write, with its location and its value.
#[derive(Clone, Copy)]
pub(crate) struct WrittenValue {
    pub(crate) write: AccessId,
    pub(crate) location: u8,
    pub(crate) value: u32,
}

/// What a sketch reads and writes in which each read has its value. It depends on the values alone: it is
/// listed once, and stays the same whatever sources and orders are chosen.
#[derive(Drop)]
pub(crate) struct WholeAccesses {
    pub(crate) reads: Vec<ReadValue>,
    pub(crate) writes: Vec<WrittenValue>,
    /// The first read that no write gives its value.
    pub(crate) unsourced: Option<ReadValue>,
}

impl WholeAccesses {
    /// Of no access, with room for those of a whole sketch.
    fn none(alloc: Global) -> Result<WholeAccesses, AllocError>
        ensures reads { IfOk result (λ accesses. accesses.reads.items ≡ []) }
        ensures writes { IfOk result (λ accesses. accesses.writes.items ≡ []) }
    {
        Ok(WholeAccesses {
            reads: Vec::with_capacity(alloc, ROW_BITS)?,
            writes: Vec::with_capacity(alloc, ROW_BITS)?,
            unsourced: None,
        })
    }

    /// Takes a thread's accesses in.
    fn add_thread(&mut self, sketch: &Sketch, t: u8) -> Result<(), AllocError>
        ensures { OnOk result (TakesIn sketch.now (IsOfItsThread t) self.old self.new) }
    {
        for access in 0..sketch.accesses(t) {
            self.add_access(sketch, AccessId { thread: t, access })?;
        }
        Ok(())
    }

    /// Takes an access in: with the reads if it reads, and with the writes if it writes.
    fn add_access(&mut self, sketch: &Sketch, id: AccessId) -> Result<(), AllocError>
        ensures { OnOk result (TakesIn sketch.now (IsItself id) self.old self.new) }
    {
        let Some(access) = sketch.access(event_of(id)) else {
            return Ok(());
        };
        if let Some(value) = access.read {
            self.reads.push(ReadValue {
                read: id,
                location: access.location,
                value,
            })?;
        }
        if let Some(value) = access.written {
            self.writes.push(WrittenValue {
                write: id,
                location: access.location,
                value,
            })?;
        }
        Ok(())
    }
}

/// What a sketch reads and writes in which each read has its value.
pub(crate) fn whole_accesses(alloc: Global, sketch: &Sketch) -> Result<WholeAccesses, AllocError>
    requires { IsWhole sketch.now.program (mode_in sketch.now) sketch.now.chosen }
    ensures { IfOk result (AreAccessesOf sketch.now) }
{
    let mut accesses = WholeAccesses::none(alloc)?;
    let threads = sketch.program().threads().len() as u8;
    for t in 0..threads {
        accesses.add_thread(sketch, t)?;
    }
    accesses.unsourced = first_unsourced(sketch, &accesses.reads, &accesses.writes);
    Ok(accesses)
}

/// The first of the reads that no write gives its value.
fn first_unsourced(
    sketch: &Sketch,
    reads: &[ReadValue],
    writes: &[WrittenValue],
) -> Option<ReadValue>
    requires { All (IsReadValue sketch.now) reads.now }
    ensures { IfSome result (IsReadValue sketch.now) }
{
    for read in reads {
        if !is_given(sketch, writes, *read) {
            return Some(*read);
        }
    }
    None
}

/// Whether the initial write or one of the writes gives a read its value.
fn is_given(sketch: &Sketch, writes: &[WrittenValue], read: ReadValue) -> bool {
    if gives_at_first(sketch, read) {
        return true;
    }
    for write in writes {
        if gives(*write, read) {
            return true;
        }
    }
    false
}

/// Whether the initial write of a read's location has the read's value.
fn gives_at_first(sketch: &Sketch, read: ReadValue) -> bool {
    match sketch.access(Event::Initial(read.location)) {
        Some(initial) => initial.written == Some(read.value),
        None => false,
    }
}

/// Whether another access writes to a read's location the read's value.
fn gives(write: WrittenValue, read: ReadValue) -> bool {
    write.location == read.location && write.value == read.value && write.write != read.read
}
