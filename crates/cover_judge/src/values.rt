//! The values that a rule takes.
ghost use Rattle.std.specs.Prelude.{◌↔◌, ◌<◌, ℕ, IfOk, Contains, length};
ghost use Rattle.std.specs.List.Sorted.{IsStrictlyIncreasing};
ghost use Rattle.tree_laws.specs.CoverTrees.{IsValueBy};
ghost use Rattle.cover_judge.specs.RuleValues.{AreListsBy};

use held_values::held_values;
use rowless_sketches::{RowlessSketch, SharedValues};
use std::alloc::{AllocError, Global};
use tree_laws::Rule;
use tso_program::Program;

/// The values that each location may hold, which the early rule takes. Sketches list those of the rule of whole ones.
pub(crate) fn lists_for(
    alloc: Global,
    rule: Rule,
    program: &Program,
) -> Result<Vec<SharedValues>, AllocError>
    ensures { IfOk result (λ lists. AreListsBy rule program.now lists.items) }
{
    match rule {
        Rule::Whole => Ok(Vec::new(alloc)),
        Rule::Early => held_values(alloc, program),
    }
}

/// The values that the rule takes for a location, ascending.
pub(crate) fn values_by(
    rule: Rule,
    lists: &[SharedValues],
    sketch: &RowlessSketch,
    location: u8,
) -> Result<SharedValues, AllocError>
    requires there { location < length sketch.now.program.memory }
    requires lists { AreListsBy rule sketch.now.program lists.now }
    ensures exact { IfOk result (λ values. (v : ℕ) → Contains values v ↔ IsValueBy rule sketch.now.program location v) }
    ensures ascending { IfOk result (λ values. IsStrictlyIncreasing values) }
{
    match rule {
        Rule::Whole => sketch.values_for(location),
        Rule::Early => lists[location as usize].copy(),
    }
}
