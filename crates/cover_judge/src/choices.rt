//! The choices that there are in a sketch, in order.
ghost use Rattle.std.specs.Prelude.{◌≡◌, ◌<◌, Some, List, IfOk, IfErr, MatchOption, length, slice_get};
ghost use Rattle.rowless_sketches.specs.ProgramSketches.{mode_in};
ghost use Rattle.tree_laws.specs.declared.choice.Choice as the_choice;
ghost use Rattle.tree_laws.specs.CoverTrees as trees;
ghost use Rattle.rowless_sketches.specs.RowlessSketches.{IsFree};
ghost use Rattle.cover_judge.specs.Choices.{AreChoicesOfBy};
ghost use Rattle.cover_judge.specs.ChoiceLists.{AreFreeSources, choices_in};
ghost use Rattle.cover_judge.specs.CoverDefects.{HasNotSoMany};
ghost use Rattle.cover_judge.specs.Judged.{IfWrong, IsAtRoot};
ghost use Rattle.cover_judge.specs.RuleValues.{AreListsBy};

use crate::allowed::{allows_order, allows_source};
use crate::fault::NodeFault;
use crate::values::values_by;
use candidate_executions::Event;
use cert_forest::AccessId;
use rowless_sketches::{RowlessSketch, SharedValues};
use std::alloc::{AllocError, Global};
use tree_laws::{Choice, OpenChoice, Rule, event_of};

/// The choices of something open, in order. Each is made where it is asked for, so they take no list of their own.
#[derive(Drop)]
pub(crate) enum Choices {
    /// The next read of a thread takes one of these values.
    Values(u8, SharedValues),
    /// A read takes one of these sources.
    Sources(AccessId, Vec<Event>),
    /// Two writes come in this order, or in the other.
    Orders(AccessId, AccessId),
}

impl Choices {
    /// How many they are.
    pub(crate) fn len(&self) -> usize
        ensures { result ≡ length (choices_in self.now) }
    {
        match self {
            Choices::Values(_, values) => values.as_slice().len(),
            Choices::Sources(_, sources) => sources.len(),
            Choices::Orders(_, _) => 2,
        }
    }

    /// The choice of this number, from 0.
    pub(crate) fn at(&self, number: usize) -> Choice
        requires { number < length (choices_in self.now) }
        ensures { slice_get (choices_in self.now) number ≡ Some result }
    {
        match self {
            Choices::Values(thread, values) => Choice::Value(*thread, values.as_slice()[number]),
            Choices::Sources(read, sources) => Choice::Source(*read, sources[number]),
            Choices::Orders(first, second) => {
                if number == 0 {
                    Choice::Order(*first, *second)
                } else {
                    Choice::Order(*second, *first)
                }
            }
        }
    }
}

/// The choices of what the rule leaves open, in order, where there are as many as this: the root is wrong where there
/// are not.
pub(crate) fn so_many_choices(
    alloc: Global,
    rule: Rule,
    lists: &[SharedValues],
    next: OpenChoice,
    count: u32,
    sketch: &RowlessSketch,
) -> Result<Choices, NodeFault>
    requires lists { AreListsBy rule sketch.now.program lists.now }
    ensures choices { IfOk result (λ choices. AreChoicesOfBy rule sketch.now next (choices_in choices)) }
    ensures many { IfOk result (λ choices. count ≡ length (choices_in choices)) }
    ensures wrong { IfErr result (IfWrong (IsAtRoot (HasNotSoMany rule sketch.now.program (mode_in sketch.now) sketch.now.chosen next count))) }
{
    let Some(choices) = open_choices(alloc, rule, lists, next, count, sketch)? else {
        return Err(NodeFault::at_root(alloc));
    };
    if choices.len() != count as usize {
        return Err(NodeFault::at_root(alloc));
    }
    Ok(choices)
}

/// The choices of what is open, in order, whether they are as many as this or not. `None` if the rule does not leave it
/// open.
fn open_choices(
    alloc: Global,
    rule: Rule,
    lists: &[SharedValues],
    next: OpenChoice,
    count: u32,
    sketch: &RowlessSketch,
) -> Result<Option<Choices>, AllocError>
    requires lists { AreListsBy rule sketch.now.program lists.now }
    ensures { IfOk result (λ found. MatchOption found ((choices : List the_choice.Choice) → AreChoicesOfBy rule sketch.now next choices → ⊥) (λ choices. AreChoicesOfBy rule sketch.now next (choices_in choices))) }
{
    match next {
        OpenChoice::Value(thread) => {
            let Some(location) = sketch.next_read(thread) else {
                return Ok(None);
            };
            let values = values_by(rule, lists, sketch, location)?;
            Ok(Some(Choices::Values(thread, values)))
        }
        OpenChoice::Source(read) => {
            if !allows_source(rule, sketch, event_of(read)) {
                return Ok(None);
            }
            open_sources(alloc, read, count, sketch)
        }
        OpenChoice::Order(first, second) => {
            if !allows_order(rule, sketch) {
                return Ok(None);
            }
            if !sketch.is_order_open(event_of(first), event_of(second)) {
                return Ok(None);
            }
            Ok(Some(Choices::Orders(first, second)))
        }
    }
}

/// The sources of a read that has its value and no source, as choices. `None` if it is no such read. Most reads whose
/// source is open in a tree have none, which takes no list.
fn open_sources(
    alloc: Global,
    read: AccessId,
    count: u32,
    sketch: &RowlessSketch,
) -> Result<Option<Choices>, AllocError>
    ensures { IfOk result (λ found. MatchOption found (IsFree sketch.now (trees.event_of read) → ⊥) (λ choices. AreFreeSources sketch.now read (choices_in choices))) }
{
    if count == 0 && sketch.lacks_source(event_of(read)) {
        return Ok(Some(Choices::Sources(read, Vec::new(alloc))));
    }
    let Some(sources) = sketch.sources_of(event_of(read))? else {
        return Ok(None);
    };
    Ok(Some(Choices::Sources(read, sources)))
}
