//! The places that a text asks to be shown.
ghost use Rattle.std.specs.Prelude.{◌≡◌, IfOk, map};
ghost use Rattle.litmus_syntax.specs.Views.{place_view};
ghost use Rattle.litmus_reader.specs.Meaning.{observed_of};
ghost use Rattle.litmus_reader.specs.Internal.Filling.{byte_in};

use crate::names::NameTable;
use litmus_syntax::Place;
use std::alloc::{AllocError, Global};
use tso_program::Reg;

/// A place that a text asks to be shown: a location by its number, or a register of a thread.
#[derive(Clone, Copy, Debug)]
pub enum Observed {
    Location(u32),
    Register(u32, Reg),
}

/// A place, with its location's number.
fn with_number(names: &NameTable, place: Place<'_>) -> Observed
    ensures { result ≡ observed_of (byte_in names.now.locations) (place_view place.entry) }
{
    match place {
        Place::Location(name) => Observed::Location(u32::from(names.number(name))),
        Place::Register(thread, register) => Observed::Register(thread, register),
    }
}

/// The places in their order, with their locations' numbers.
pub(crate) fn all_observed(
    alloc: Global,
    names: &NameTable,
    places: &[Place<'_>],
) -> Result<Vec<Observed>, AllocError>
    ensures { IfOk result (λ shown. shown.items ≡ map (observed_of (byte_in names.now.locations)) (map place_view places.now)) }
{
    let mut shown = Vec::new(alloc);
    for place in places {
        shown.push(with_number(names, *place))?;
    }
    Ok(shown)
}
