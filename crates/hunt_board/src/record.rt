//! Receipts against the record of a search.
ghost use Rattle.std.specs.Prelude.{◌≡◌, ◌↔◌, ◌<◌, ℕ, Some, IfOk, IfErr, IfSome, OnOk, IsTrue, length, replicate, false};
ghost use Rattle.std.specs.Bool.{MatchBool};
ghost use Rattle.gap_sets.specs.Regions.{open_gaps};
ghost use Rattle.hunt_board.specs.Receipts.{NameAll};
ghost use Rattle.hunt_board.specs.Internal.Marks.{IsMarked, IsNotMarked, RecordFaultIs};
ghost use Rattle.hunt_board.specs.Internal.Places.{WalkLeads, StandsOnlyAt, child_of, number_of_child};
ghost use Rattle.hunt_board.specs.Internal.Settled.{IsSameEvent, SaysSame};

use crate::{CloseFault, Receipt, ReceiptEvent};
use gap_sets::{GapSet, Region};
use search_core::{Finished, Settled, SettledEvent};
use std::alloc::{AllocError, Global};

/// Whether the receipts name the whole record: each is of a node that was settled so, no two are of one node,
/// and they are as many as the nodes.
pub(crate) fn check_receipts(
    alloc: Global,
    finished: &Finished,
    receipts: &[Receipt],
) -> Result<(), CloseFault>
    ensures named { OnOk result (NameAll finished.now.entries receipts.now) }
    ensures fault { IfErr result (RecordFaultIs finished.now.entries receipts.now) }
{
    let nodes = finished.nodes();
    let mut named = unmarked(alloc, nodes)?;
    for (number, receipt) in receipts.iter().enumerate() {
        if !mark(finished, &mut named, receipt) {
            return Err(CloseFault::Receipt(number));
        }
    }
    if receipts.len() != nodes {
        return Err(CloseFault::Count);
    }
    Ok(())
}

/// So many marks that aren't set.
fn unmarked(alloc: Global, count: usize) -> Result<Vec<bool>, AllocError>
    ensures { IfOk result (λ marks. marks.items ≡ replicate count false) }
{
    vec![in alloc; false; count]
}

/// Marks the node of the receipt, where the receipt says how it was settled and it isn't marked yet.
fn mark(finished: &Finished, named: &mut Vec<bool>, receipt: &Receipt) -> bool
    requires { length named.old.items ≡ length finished.now.entries }
    ensures { MatchBool result (IsMarked finished.now.entries receipt.now named.old.items named.new.items)
        (IsNotMarked finished.now.entries receipt.now named.old.items named.new.items) }
{
    let place = place_of(finished, &receipt.node);
    let Some(settled) = finished.settled(place) else {
        return false;
    };
    if !is_receipt_of(&settled, receipt) {
        return false;
    }
    if named[place] {
        return false;
    }
    named[place] = true;
    true
}

/// Whether the receipt says this.
fn is_receipt_of(settled: &Settled<'_>, receipt: &Receipt) -> bool
    ensures { IsTrue result ↔ SaysSame settled.now receipt.now }
{
    settled.seat == receipt.seat
        && settled.node.same(&receipt.node)
        && is_same_event(settled.event, &receipt.event)
}

/// Whether the events are the same, of a split by the gaps that its run passes.
fn is_same_event(recorded: SettledEvent<'_>, event: &ReceiptEvent) -> bool
    ensures { IsTrue result ↔ IsSameEvent recorded.entry event.now }
{
    match (recorded, event) {
        (SettledEvent::Split(run), ReceiptEvent::Split(passed)) => run.passed().same(passed),
        (SettledEvent::Cut, ReceiptEvent::Cut) => true,
        (SettledEvent::Confirmed, ReceiptEvent::Confirmed) => true,
        _ => false,
    }
}

/// Where the node of this region stands in the record, if it stands there at all: a walk from the root, at
/// each split to the child of the first gap that the node's sets must have.
fn place_of(finished: &Finished, node: &Region) -> usize
    ensures leads { WalkLeads finished.now.entries node.now 0 result }
    ensures only { StandsOnlyAt finished.now.entries node.now result }
{
    finished.recall_facts();
    let mut place = 0;
    while let Some(child) = child_of(finished, place, node) {
        place = child;
    }
    place
}

/// The place of the child on the way to the node of this region.
fn child_of(finished: &Finished, place: usize, node: &Region) -> Option<usize>
    ensures child { result ≡ child_of finished.now.entries place node.now }
    ensures later { IfSome result (λ child. place < child) }
    ensures there { IfSome result (λ child. child < length finished.now.entries) }
{
    finished.recall_facts();
    // For the proof alone: how many nodes there are is a number of this type.
    let _ = finished.nodes();
    let Some(settled) = finished.settled(place) else {
        return None;
    };
    let SettledEvent::Split(run) = settled.event else {
        return None;
    };
    let Some(first) = finished.first_child(place) else {
        unreachable!()
    };
    let number = number_of_child(run.passed(), &settled.node.never, &node.must)?;
    Some(first + number)
}

/// Which of the gaps that the run passes and the sets may have is the first one that they must have.
fn number_of_child(passed: GapSet, never: &GapSet, must: &GapSet) -> Option<usize>
    ensures value { result ≡ number_of_child passed never.now must.now }
    ensures below { IfSome result (λ number. number < length (open_gaps passed never.now)) }
{
    let mut number = 0;
    for gap in passed.iter() {
        if !never.has(gap) {
            if must.has(gap) {
                return Some(number);
            }
            number += 1;
        }
    }
    None
}
