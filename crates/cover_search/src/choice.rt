//! Choices made in a sketch, and those that there are.
ghost use Rattle.std.specs.Prelude.{◌≡◌, [], ◌∷◌, IfOk, OnOk, OnErr, IfSome, MatchOption, map};
ghost use Rattle.program_sketches.specs.ProgramSketches.{with_chosen};
ghost use Rattle.tree_laws.specs.CoverTrees.{sketch_with};
ghost use Rattle.cover_judge.specs.Choices.{MayChoose, MayChooseEach, IsValueOpen, IsSourceOpen, AreValueChoices, AreSourceChoices, AreChoicesOf};
ghost use Rattle.cover_search.specs.OpenChoices.{IsOpen};

use candidate_executions::Event;
use cert_trees::AccessId;
use cover_judge::{Choice, OpenChoice, event_of};
use exec_axioms::{Sketch, SketchFault};
use std::alloc::{AllocError, Global};

/// Makes a choice in the sketch.
pub(crate) fn choose(sketch: &mut Sketch, choice: Choice) -> Result<(), AllocError>
    requires { MayChoose sketch.old choice }
    ensures ok { OnOk result (sketch.new ≡ with_chosen sketch.old (sketch_with sketch.old.chosen choice)) }
    ensures err { OnErr result (sketch.new ≡ sketch.old) }
{
    let chosen = match choice {
        Choice::Value(t, value) => sketch.give_value(t, value),
        Choice::Source(read, source) => sketch.choose_source(event_of(read), source),
        Choice::Order(first, second) => sketch.choose_order(event_of(first), event_of(second)),
    };
    match chosen {
        Ok(()) => Ok(()),
        Err(_) => Err(AllocError),
    }
}

/// The values of a thread's next read, ascending. `None` if the thread has no next read.
fn value_choices(alloc: Global, sketch: &Sketch, t: u8) -> Result<Option<Vec<Choice>>, AllocError>
    ensures values { IfOk result (λ found. MatchOption found (IsValueOpen sketch.now t → ⊥) (λ choices. AreValueChoices sketch.now t choices.items)) }
    ensures may { IfOk result (λ found. IfSome found (λ choices. MayChooseEach sketch.now choices.items)) }
{
    let Some(location) = sketch.next_read(t) else {
        return Ok(None);
    };
    let values = sketch.values_for(location)?;
    Ok(Some(each_value(alloc, t, &values)?))
}

/// The sources of a read that has none yet: the initial write first, then by thread and access. `None` if
/// the access is no read without a source, or if some read has no value yet.
fn source_choices(
    alloc: Global,
    sketch: &Sketch,
    read: AccessId,
) -> Result<Option<Vec<Choice>>, AllocError>
    ensures sources { IfOk result (λ found. MatchOption found (IsSourceOpen sketch.now read → ⊥) (λ choices. AreSourceChoices sketch.now read choices.items)) }
    ensures may { IfOk result (λ found. IfSome found (λ choices. MayChooseEach sketch.now choices.items)) }
{
    if sketch.source(event_of(read)).is_some() {
        return Ok(None);
    }
    match sketch.sources_of(event_of(read)) {
        Ok(sources) => Ok(Some(each_source(alloc, read, &sources)?)),
        Err(SketchFault::OutOfMemory) => Err(AllocError),
        Err(_) => Ok(None),
    }
}

/// The values of a thread's next read, as choices.
fn each_value(alloc: Global, thread: u8, values: &[u32]) -> Result<Vec<Choice>, AllocError>
    ensures { IfOk result (λ choices. choices.items ≡ map (Choice.Value thread) values.now) }
{
    values
        .iter()
        .map(|value| Choice::Value(thread, *value))
        .collect(alloc)
}

/// The sources of a read, as choices.
fn each_source(alloc: Global, read: AccessId, sources: &[Event]) -> Result<Vec<Choice>, AllocError>
    ensures { IfOk result (λ choices. choices.items ≡ map (Choice.Source read) sources.now) }
{
    sources
        .iter()
        .map(|source| Choice::Source(read, *source))
        .collect(alloc)
}

/// The choices of what is open.
pub(crate) fn choices_of(
    alloc: Global,
    sketch: &Sketch,
    next: OpenChoice,
) -> Result<Vec<Choice>, AllocError>
    requires { IsOpen sketch.now next }
    ensures choices { IfOk result (λ choices. AreChoicesOf sketch.now next choices.items) }
    ensures may { IfOk result (λ choices. MayChooseEach sketch.now choices.items) }
{
    match next {
        OpenChoice::Value(thread) => match value_choices(alloc, sketch, thread)? {
            Some(choices) => Ok(choices),
            None => unreachable!(),
        },
        OpenChoice::Source(read) => match source_choices(alloc, sketch, read)? {
            Some(choices) => Ok(choices),
            None => unreachable!(),
        },
        OpenChoice::Order(first, second) => both_orders(alloc, first, second),
    }
}

/// Both orders of two writes.
fn both_orders(alloc: Global, first: AccessId, second: AccessId) -> Result<Vec<Choice>, AllocError>
    ensures { IfOk result (λ choices. choices.items ≡ Choice.Order first second ∷ Choice.Order second first ∷ []) }
{
    let orders = [Choice::Order(first, second), Choice::Order(second, first)];
    Vec::from_slice(alloc, orders.as_slice())
}
