//! Rounds of related numbers, as lists of events.
ghost use Rattle.std.specs.Prelude.{◌≡◌, ◌≤◌, ◌<◌, ℕ, IfOk, length, drop};
ghost use Rattle.bit_rows.specs.Rows.{IsIn, RowHas, Reaches, HasRound};
ghost use Rattle.bit_rows.specs.declared.row.TheConstants.{ROW_BITS};
ghost use Rattle.known_edges.specs.Rounds.{GoesOnIn, HaveEvents, IsRound};

use crate::access_rows::place_of;
use bit_rows::{Relation, common, has, lowest, without};
use candidate_executions::Event;
use std::alloc::{AllocError, Global};

/// A round of the relation with no event twice. Only its list takes memory.
pub fn round_of(
    alloc: Global,
    events: &[Event],
    relation: &Relation,
) -> Result<Vec<Event>, AllocError>
    requires numbered { HaveEvents events.now relation.now }
    requires round { HasRound relation.now }
    ensures { IfOk result (λ round. IsRound events.now relation.now round.items) }
{
    let on_cycles = relation.on_cycles();
    let first = number_on_round(relation, on_cycles);
    walk(alloc, events, relation, on_cycles, first)
}

/// A number of the row to which a walk comes back that begins at the lowest.
fn number_on_round(relation: &Relation, row: u32) -> u8
    requires some { (d : ℕ) × IsIn row d }
    requires on { GoesOnIn relation.now row }
    ensures { (result < ROW_BITS) × IsIn row result }
{
    let mut open = row;
    let mut d = lowest_of(row);
    while has(open, d) {
        open = without(open, d);
        d = next_number(relation, row, d);
    }
    d
}

/// Goes from number to number of the row until it comes to an event where it was before.
fn walk(
    alloc: Global,
    events: &[Event],
    relation: &Relation,
    row: u32,
    first: u8,
) -> Result<Vec<Event>, AllocError>
    requires numbered { HaveEvents events.now relation.now }
    requires first { (first < ROW_BITS) × IsIn row first }
    requires on { GoesOnIn relation.now row }
    ensures { IfOk result (λ round. IsRound events.now relation.now round.items) }
{
    let mut path = Vec::with_capacity(alloc, row.count_ones() as usize)?;
    let mut open = row;
    let mut d = first;
    loop {
        path.push(events[d as usize])?;
        open = without(open, d);
        let next = next_number(relation, row, d);
        if let Some(place) = place_of(path.as_slice(), events[next as usize]) {
            return from_place(alloc, path, place);
        }
        d = next;
    }
}

/// The lowest number of the row to which the number is related.
fn next_number(relation: &Relation, row: u32, d: u8) -> u8
    requires below { d < ROW_BITS }
    requires there { IsIn row d }
    requires on { GoesOnIn relation.now row }
    ensures { (result < ROW_BITS) × IsIn row result × RowHas relation.now d result }
{
    lowest_of(common(relation.row(d), row))
}

/// The lowest number of a row that has some.
fn lowest_of(row: u32) -> u8
    requires { (d : ℕ) × IsIn row d }
    ensures { (result < ROW_BITS) × IsIn row result }
{
    match lowest(row) {
        Some(d) => d,
        None => unreachable!(),
    }
}

/// The list from this place on.
fn from_place(alloc: Global, path: Vec<Event>, place: usize) -> Result<Vec<Event>, AllocError>
    requires { place < length path.items }
    ensures { IfOk result (λ rest. rest.items ≡ drop place path.items) }
{
    if place == 0 {
        return Ok(path);
    }
    Vec::from_slice(alloc, &path[place..])
}
