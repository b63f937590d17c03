//! The values of each location, listed once.
ghost use Rattle.std.specs.Prelude.{◌≡◌, IfOk};
ghost use Rattle.thread_traces.specs.ValueLists.{AreValueLists};

use crate::location_values::values_of;
use std::alloc::{AllocError, Global};
use std::marker::Model;
use std::sync::Arc;
use tso_program::Program;

/// Values that sketches share. They never change, and a copy takes no memory.
#[derive(Drop)]
pub struct SharedValues {
    values: Arc<Vec<u32>>,
}

impl Model for SharedValues {
    ghost use Rattle.std.specs.Prelude.{List, ℕ};
    ghost use Rattle.std.specs.Arc.{arc_value};

    ghost Value = { List ℕ };

    ghost view = { λ s. (arc_value s.values).items };
}

impl SharedValues {
    /// The values, to be shared.
    pub fn of(alloc: Global, values: Vec<u32>) -> Result<SharedValues, AllocError>
        ensures { IfOk result (λ shared. shared ≡ values.items) }
    {
        Ok(SharedValues {
            values: Arc::new(alloc, values)?,
        })
    }

    /// The values in order.
    pub fn as_slice(&self) -> &[u32]
        ensures { result.now ≡ self.now }
    {
        self.values.as_slice()
    }

    /// A copy of the values, which both share.
    pub fn copy(&self) -> Result<SharedValues, AllocError>
        ensures { IfOk result (λ other. other ≡ self.now) }
    {
        Ok(SharedValues {
            values: Arc::try_clone(&self.values)?,
        })
    }
}

/// The values of each location of a program.
pub fn value_lists(alloc: Global, program: &Program) -> Result<Vec<SharedValues>, AllocError>
    ensures { IfOk result (λ lists. AreValueLists program.now lists.items) }
{
    let locations = program.memory().len();
    let mut lists = Vec::with_capacity(alloc, locations)?;
    for location in 0..locations {
        let values = values_of(alloc, program, location as u8)?;
        lists.push(SharedValues::of(alloc, values)?)?;
    }
    Ok(lists)
}
