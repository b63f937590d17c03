//! The nodes of a search, each with what became of it.
ghost use Rattle.std.specs.Prelude.{◌≡◌, ◌↔◌, ◌<◌, ℕ, false, Some, IfOk, IsTrue, MatchOption, slice_get, slice_set, length};
ghost use Rattle.gap_sets.specs.Order.{Better};
ghost use Rattle.gap_sets.specs.declared.region.Region.{Region};
ghost use Rattle.search_core.specs.declared.entry.Entry.{Entry};
ghost use Rattle.search_core.specs.Children.{children};
ghost use Rattle.search_core.specs.Entries.{entry, is_live, is_open};
ghost use Rattle.search_core.specs.States.{IsOpenAt, IsHeldAt};
ghost use Rattle.search_core.specs.Events.{open_entries};

use crate::entry::{Entry, Status};
use gap_sets::{Costs, GapSet, Region};
use std::alloc::{AllocError, Global};

/// The open node whose `must` is best, the first of equals, with its place.
pub(crate) fn best_open(costs: &Costs, entries: &[Entry]) -> Option<(usize, Region)>
    ensures { MatchOption result ((place : ℕ) (n : Region) → ¬ IsOpenAt entries.now place n) (λ found. IsOpenAt entries.now found.0 found.1) }
{
    let mut best = None;
    for (place, entry) in entries.iter().enumerate() {
        if entry.is_open() && is_first_or_better(costs, &entry.node, &best) {
            best = Some((place, entry.node));
        }
    }
    best
}

/// Whether the `must` of the node is better than that of the best so far, or there is no best yet.
fn is_first_or_better(costs: &Costs, node: &Region, best: &Option<(usize, Region)>) -> bool
    ensures { MatchOption best.now (IsTrue result) (λ found. IsTrue result ↔ Better costs.now node.now.must found.1.must) }
{
    match best {
        Some((_, best)) => costs.better(&node.must, &best.must),
        None => true,
    }
}

/// The node that the seat holds, with its place.
pub(crate) fn find_held(entries: &[Entry], seat: u8) -> Option<(usize, Region)>
    ensures { MatchOption result ((place : ℕ) (n : Region) → ¬ IsHeldAt entries.now seat place n) (λ found. IsHeldAt entries.now seat found.0 found.1) }
{
    for (place, entry) in entries.iter().enumerate() {
        if entry.is_held_by(seat) {
            return Some((place, entry.node));
        }
    }
    None
}

/// Says what became of the node at the place.
pub(crate) fn mark(entries: &mut Vec<Entry>, place: usize, node: &Region, seat: u8, status: Status)
    requires { place < length entries.old.items }
    ensures { entries.new.items ≡ slice_set entries.old.items place (entry node.now seat status) }
{
    entries[place] = Entry {
        node: *node,
        seat,
        status,
    };
}

/// The children of a node, split by a run that passes these gaps.
pub(crate) fn open_children(
    alloc: Global,
    node: &Region,
    seat: u8,
    passed: GapSet,
) -> Result<Vec<Entry>, AllocError>
    ensures { IfOk result (λ found. found.items ≡ open_entries seat (children node.now passed)) }
{
    let mut found = Vec::new(alloc);
    let mut rest = *node;
    for gap in passed.iter() {
        if !node.never.has(gap) {
            found.push(Entry {
                node: rest.with(gap),
                seat,
                status: Status::Open,
            })?;
            rest = rest.without(gap);
        }
    }
    Ok(found)
}

/// Whether no node is open.
pub(crate) fn none_open(entries: &[Entry]) -> bool
    ensures { IsTrue result ↔ ((place : ℕ) (e : Entry) → slice_get entries.now place ≡ Some e → is_open e ≡ false) }
{
    for entry in entries {
        if entry.is_open() {
            return false;
        }
    }
    true
}

/// Whether no node is open or held.
pub(crate) fn all_settled(entries: &[Entry]) -> bool
    ensures { IsTrue result ↔ ((place : ℕ) (e : Entry) → slice_get entries.now place ≡ Some e → is_live e ≡ false) }
{
    for entry in entries {
        if entry.is_live() {
            return false;
        }
    }
    true
}
