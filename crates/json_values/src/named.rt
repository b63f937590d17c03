//! Values with the names of a text.
ghost use Rattle.std.specs.Prelude.{◌≡◌, [], IfOk, slice_index_or};
ghost use Rattle.json_text.specs.Texts.{quoted};
ghost use Rattle.json_values.specs.Gaps.{gap_name, gaps_array};

use gap_sets::GapSet;
use json_text::{JsonArray, JsonObject, JsonText};
use litmus_text::{NameTable, location_name};
use std::alloc::{AllocError, Global};
use tso_program::Program;

/// The number of a step or of a place.
pub fn number(alloc: Global, value: usize) -> Result<JsonText, AllocError> {
    JsonText::number(alloc, value as u64)
}

/// A location's name.
pub fn location(alloc: Global, names: &NameTable, location: usize) -> Result<JsonText, AllocError>
    ensures { IfOk result (λ json. json ≡ quoted (slice_index_or names.now.locations location [])) }
{
    JsonText::string(alloc, location_name(names, location))
}

/// A location and a value, which a load reads or a store writes.
pub fn located(
    alloc: Global,
    names: &NameTable,
    place: usize,
    value: u32,
) -> Result<JsonObject, AllocError> {
    let mut object = JsonObject::new(alloc);
    object.add("location", location(alloc, names, place)?)?;
    object.add("value", JsonText::number(alloc, u64::from(value))?)?;
    Ok(object)
}

/// A gap by its place.
pub fn gap_name(alloc: Global, program: &Program, gap: u8) -> Result<JsonText, AllocError>
    ensures { IfOk result (λ json. json ≡ quoted (gap_name program.now.threads gap)) }
{
    match program.gap_place(gap) {
        Some((thread, k)) => {
            let name = format!(in alloc; "{thread}:{k}")?;
            JsonText::string(alloc, name.as_bytes())
        }
        None => JsonText::string(alloc, b""),
    }
}

/// Gaps by their places, ascending.
pub fn gap_names(alloc: Global, program: &Program, gaps: &GapSet) -> Result<JsonText, AllocError>
    ensures { IfOk result (λ json. json ≡ gaps_array program.now.threads gaps.now) }
{
    let mut array = JsonArray::new(alloc);
    for gap in gaps.iter() {
        array.add(gap_name(alloc, program, gap)?)?;
    }
    array.into_json()
}
