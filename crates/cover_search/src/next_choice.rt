//! What is chosen next.
ghost use Rattle.std.specs.Prelude.{◌≡◌, ◌<◌, None, IfOk, IfSome, MatchOption, All, length};
ghost use Rattle.candidate_executions.specs.Sketches.{IsWhole};
ghost use Rattle.program_sketches.specs.ProgramSketches.{mode_in};
ghost use Rattle.exec_axioms.specs.Complete.{IsComplete};
ghost use Rattle.cover_judge.specs.Choices.{IsValueOpen, IsSourceOpen};
ghost use Rattle.cover_search.specs.OpenChoices.{IsOpen};
ghost use Rattle.cover_search.specs.Accesses.{IsReadValue, AreAccessesOf};
ghost use Rattle.cover_search.specs.ChoicesLeft.{HasEachSource, IsInOrderWithLater, IsEachInOrder};

use crate::accesses::{ReadValue, WholeAccesses, whole_accesses};
use crate::open_choice::{needs_order, needs_source};
use cert_trees::AccessId;
use cover_judge::OpenChoice;
use exec_axioms::Sketch;
use std::alloc::{AllocError, Global};

/// What is chosen next in a sketch: the value of a thread's next read, then the source of a read, then the order of two
/// writes. `None` if the sketch is complete.
pub(crate) fn next_choice(alloc: Global, sketch: &Sketch) -> Result<Option<OpenChoice>, AllocError>
    ensures { IfOk result (λ next. MatchOption next (IsComplete sketch.now) (IsOpen sketch.now)) }
{
    match next_thread(sketch) {
        Some(t) => Ok(Some(OpenChoice::Value(t))),
        None => {
            let accesses = whole_accesses(alloc, sketch)?;
            Ok(next_of_whole(sketch, &accesses))
        }
    }
}

/// The first thread that has a next read.
fn next_thread(sketch: &Sketch) -> Option<u8>
    ensures { MatchOption result (IsWhole sketch.now.program (mode_in sketch.now) sketch.now.chosen) (IsValueOpen sketch.now) }
{
    let threads = sketch.program().threads().len() as u8;
    for t in 0..threads {
        if sketch.next_read(t).is_some() {
            return Some(t);
        }
    }
    None
}

/// What is chosen next in a sketch in which each read has its value. A read that no write gives its value comes first.
fn next_of_whole(sketch: &Sketch, accesses: &WholeAccesses) -> Option<OpenChoice>
    requires { AreAccessesOf sketch.now accesses.now }
    ensures { MatchOption result (IsComplete sketch.now) (IsOpen sketch.now) }
{
    if let Some(read) = open_unsourced(sketch, accesses) {
        return Some(OpenChoice::Source(read));
    }
    match open_read(sketch, &accesses.reads) {
        Some(read) => Some(OpenChoice::Source(read)),
        None => open_order(sketch, accesses),
    }
}

/// The read that no write gives its value, if there is one and it has no source.
fn open_unsourced(sketch: &Sketch, accesses: &WholeAccesses) -> Option<AccessId>
    requires { AreAccessesOf sketch.now accesses.now }
    ensures { IfSome result (IsSourceOpen sketch.now) }
{
    let read = accesses.unsourced?;
    if needs_source(sketch, read) {
        Some(read.read)
    } else {
        None
    }
}

/// The first read without a source.
fn open_read(sketch: &Sketch, reads: &[ReadValue]) -> Option<AccessId>
    requires whole { IsWhole sketch.now.program (mode_in sketch.now) sketch.now.chosen }
    requires reads { All (IsReadValue sketch.now) reads.now }
    ensures { MatchOption result (HasEachSource sketch.now reads.now) (IsSourceOpen sketch.now) }
{
    for read in reads {
        if needs_source(sketch, *read) {
            return Some(read.read);
        }
    }
    None
}

/// The order of the first two writes to one location that are in none.
fn open_order(sketch: &Sketch, accesses: &WholeAccesses) -> Option<OpenChoice>
    requires accesses { AreAccessesOf sketch.now accesses.now }
    requires sources { HasEachSource sketch.now accesses.now.reads.items }
    ensures { MatchOption result (IsComplete sketch.now) (IsOpen sketch.now) }
{
    for place in 0..accesses.writes.len() {
        if let Some(next) = order_with_later(sketch, accesses, place) {
            return Some(next);
        }
    }
    None
}

/// The order of the write at a place and the first later one to its location that it is in no order with.
fn order_with_later(sketch: &Sketch, accesses: &WholeAccesses, place: usize) -> Option<OpenChoice>
    requires accesses { AreAccessesOf sketch.now accesses.now }
    requires place { place < length accesses.now.writes.items }
    ensures { MatchOption result (IsInOrderWithLater sketch.now accesses.now.writes.items place) (IsOpen sketch.now) }
{
    let writes = accesses.writes.as_slice();
    for later in place + 1..writes.len() {
        if needs_order(sketch, writes[place], writes[later]) {
            return Some(OpenChoice::Order(writes[place].write, writes[later].write));
        }
    }
    None
}
