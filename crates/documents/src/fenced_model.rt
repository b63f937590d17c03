//! Machines with some gaps fenced.

ghost use Rattle.std.specs.Prelude.{◌≡◌, ◌++◌, OnOk};
ghost use Rattle.documents.specs.FencedModels.{fences_members, machine_members};

use crate::run::add_model;
use gap_sets::GapSet;
use json_text::JsonObject;
use json_values::gap_names;
use std::alloc::{AllocError, Global};
use tso_machine::Model;
use tso_program::Program;

/// The machine of a model with these gaps fenced.
#[derive(Clone, Copy)]
pub struct FencedModel {
    pub model: Model,
    pub fences: GapSet,
}

/// Adds gaps that are fenced, where there are any.
fn add_fences(
    alloc: Global,
    object: &mut JsonObject,
    program: &Program,
    fences: &GapSet,
) -> Result<(), AllocError>
    ensures { OnOk result (object.new ≡ object.old ++ fences_members program.now fences.now) }
{
    if fences.len() > 0 {
        object.add("fences", gap_names(alloc, program, fences)?)
    } else {
        Ok(())
    }
}

/// Adds a machine, and the gaps that are fenced, where there are any.
pub(crate) fn add_fenced_model(
    alloc: Global,
    object: &mut JsonObject,
    program: &Program,
    machine: FencedModel,
) -> Result<(), AllocError>
    ensures { OnOk result (object.new ≡ object.old ++ machine_members program.now machine) }
{
    add_model(alloc, object, machine.model)?;
    add_fences(alloc, object, program, &machine.fences)
}
