//! Locations that are read, and to which nothing gives a value.

ghost use Rattle.std.specs.Prelude.{◌≡◌, is_some};
ghost use Rattle.slips.specs.GivenLocations.{stores_to, row_stores, rows_store, is_location, has_entry, is_given, loads_unwritten};

use crate::slip::{Remark, SlipKind};
use litmus_syntax::{Body, Cell, Code, Entry, Place};

/// What is said of the first location that a MOV of the rows loads, to which no instruction stores, and that has no initial
/// value.
pub(crate) fn unwritten_location(body: &Body<'_>) -> Option<Remark> {
    for thread in 0..body.threads {
        if let Some(remark) = unwritten_location_of(body, thread) {
            return Some(remark);
        }
    }
    None
}

/// What is said of the first such location that one thread loads.
fn unwritten_location_of(body: &Body<'_>, thread: usize) -> Option<Remark> {
    for row in &body.rows {
        if let Some(cell) = row.get(thread) {
            if let Some(remark) = unwritten_operand(body, cell) {
                return Some(remark);
            }
        }
    }
    None
}

/// What is said of the location that a MOV loads, where nothing gives it a value. Its name is four tokens after the mnemonic.
fn unwritten_operand(body: &Body<'_>, cell: &Cell<'_>) -> Option<Remark>
    ensures { is_some result ≡ loads_unwritten body.now cell.now.code }
{
    match cell.code {
        Some(Code::Load(_, location)) => {
            if is_given(body, location) {
                None
            } else {
                Some(Remark {
                    kind: SlipKind::UnwrittenLocation,
                    left: cell.left.saturating_sub(4),
                    said: "is read, and nothing writes it: it holds 0",
                })
            }
        }
        _ => None,
    }
}

/// Whether the text gives the location an initial value, or an instruction stores to it.
fn is_given(body: &Body<'_>, location: &[u8]) -> bool
    ensures { result ≡ is_given body.now location.now }
{
    has_entry(body.entries.as_slice(), location) || rows_store(body.rows.as_slice(), location)
}

/// Whether one of the initial values is the location's.
fn has_entry(entries: &[Entry<'_>], location: &[u8]) -> bool
    ensures { result ≡ has_entry location.now entries.now }
{
    entries
        .iter()
        .any(|entry| is_location(entry.place, location))
}

fn is_location(place: Place<'_>, location: &[u8]) -> bool
    ensures { result ≡ is_location location.now place.entry }
{
    match place {
        Place::Location(named) => named == location,
        Place::Register(_, _) => false,
    }
}

/// Whether some instruction stores to the location.
fn rows_store(rows: &[Vec<Cell<'_>>], location: &[u8]) -> bool
    ensures { result ≡ rows_store location.now rows.now }
{
    rows.iter().any(|row| row_stores(row.as_slice(), location))
}

fn row_stores(row: &[Cell<'_>], location: &[u8]) -> bool
    ensures { result ≡ row_stores location.now row.now }
{
    row.iter().any(|cell| stores_to(cell, location))
}

/// Whether the instruction of a cell stores to the location.
fn stores_to(cell: &Cell<'_>, location: &[u8]) -> bool
    ensures { result ≡ stores_to location.now cell.now.code }
{
    match cell.code {
        Some(Code::StoreImm(named, _) | Code::Store(named, _) | Code::Xchg(named, _)) => {
            named == location
        }
        _ => false,
    }
}
