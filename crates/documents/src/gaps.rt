//! The document of a program's gaps.

ghost use Rattle.std.specs.Prelude.{IfOk};
ghost use Rattle.documents.specs.Documents.{IsGapsDocument};

use crate::answer::{add_ties, costs_array};
use crate::document::begun;
use crate::lined::LinedLitmus;
use gap_sets::TiedCosts;
use json_text::JsonObject;
use std::alloc::{AllocError, Global};

/// The document of the gaps of a program, each with its cost and its line, and which go together.
pub fn gaps_document(
    alloc: Global,
    source: &LinedLitmus<'_>,
    costs: &TiedCosts,
) -> Result<JsonObject, AllocError>
    ensures { IfOk result (IsGapsDocument source.now.litmus.now costs.now) }
{
    let program = &source.litmus.program;
    let gaps = costs_array(alloc, program, source.lines, costs.costs.as_slice())?;
    let mut object = begun(alloc, b"gaps", source)?;
    object.add("gaps", gaps)?;
    add_ties(alloc, &mut object, program, &costs.ties)?;
    Ok(object)
}
