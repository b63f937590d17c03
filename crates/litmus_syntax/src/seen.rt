//! The places that have an initial value.

ghost use Rattle.std.specs.Prelude.{◌≡◌, ◌||◌, false, not, IfOk, OnOk};
ghost use Rattle.litmus_syntax.specs.Views.{PlaceView, place_view};
ghost use Rattle.litmus_syntax.specs.Places.{has, same_place};

use crate::place::Place;
use indexmap::IndexSet;
use std::alloc::{AllocError, Global};

/// A set of places.
#[derive(Drop)]
pub struct Seen {
    names: IndexSet<Vec<u8>>,
    registers: IndexSet<(u32, usize)>,
}

impl Seen {
    pub fn new(alloc: Global) -> Seen
        ensures { (p : PlaceView) → has result p ≡ false }
    {
        let names = IndexSet::new(alloc);
        let registers = IndexSet::new(alloc);
        Seen { names, registers }
    }

    /// Adds a place, and says whether it is new.
    pub fn add(&mut self, alloc: Global, place: Place<'_>) -> Result<bool, AllocError>
        ensures new { IfOk result (λ new. new ≡ not (has self.old (place_view place.entry))) }
        ensures added { OnOk result ((p : PlaceView) → has self.new p ≡ (has self.old p || same_place p (place_view place.entry))) }
    {
        match place {
            Place::Location(name) => {
                let own = Vec::from_slice(alloc, name)?;
                Ok(self.names.insert(own)?)
            }
            Place::Register(thread, reg) => Ok(self.registers.insert((thread, reg.index()))?),
        }
    }
}
