//! The document of a run of which the condition's formula has some truth.

ghost use Rattle.std.specs.Prelude.{◌≡◌, ◌++◌, IfOk, OnOk};
ghost use Rattle.documents.specs.Witnesses.{run_or_null, sought_members, verb_of_witness, IsWitnessDocument};

use crate::document::begun;
use crate::lined::LinedLitmus;
use crate::run::add_model;
use gap_sets::GapSet;
use json_text::{JsonObject, JsonText};
use json_values::{Scope, gap_names, saying, verb_of};
use litmus_text::Quantifier;
use std::alloc::{AllocError, Global};
use tso_machine::Model;
use tso_program::Program;

/// Which run is sought: one of a machine with these gaps fenced, whose outcome meets the condition's formula or does not.
#[derive(Clone, Copy)]
pub struct Sought {
    pub model: Model,
    pub fences: GapSet,
    pub meets: bool,
}

/// A run, if there is one.
fn run_or_null(alloc: Global, run: Option<JsonText>) -> Result<JsonText, AllocError>
    ensures { IfOk result (λ json. json ≡ run_or_null run) }
{
    match run {
        Some(run) => Ok(run),
        None => JsonText::null(alloc),
    }
}

/// Adds which run is sought.
fn add_sought(
    alloc: Global,
    object: &mut JsonObject,
    program: &Program,
    sought: Sought,
) -> Result<(), AllocError>
    ensures { OnOk result (object.new ≡ object.old ++ sought_members program.now sought) }
{
    add_model(alloc, object, sought.model)?;
    object.add("fences", gap_names(alloc, program, &sought.fences)?)?;
    object.add("meets_condition", JsonText::truth(alloc, sought.meets)?)
}

/// What is said of a run that is sought, if there is one, or that there is none.
fn verb_of_witness(quantifier: Quantifier, meets: bool, run: &Option<JsonText>) -> &'static [u8]
    ensures { result.now ≡ verb_of_witness quantifier meets run.now }
{
    match run {
        Some(_) => verb_of(quantifier, Scope::ThisRun, meets),
        None => verb_of(quantifier, Scope::NoRun, meets),
    }
}

/// The document of a run that is sought, if there is one.
pub fn witness_document(
    alloc: Global,
    source: &LinedLitmus<'_>,
    sought: Sought,
    run: Option<JsonText>,
) -> Result<JsonObject, AllocError>
    ensures { IfOk result (IsWitnessDocument source.now.litmus.now sought run) }
{
    let litmus = source.litmus;
    let verb = verb_of_witness(litmus.condition.quantifier, sought.meets, &run);
    let says = saying(alloc, litmus, verb)?;
    let run = run_or_null(alloc, run)?;
    let mut object = begun(alloc, b"witness", source)?;
    add_sought(alloc, &mut object, &litmus.program, sought)?;
    object.add("run", run)?;
    object.add("says", says)?;
    Ok(object)
}
