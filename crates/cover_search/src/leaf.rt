//! What closes a sketch at once.
ghost use Rattle.std.specs.Prelude.{◌≡◌, IfErr, IfOk, OnOk, MatchOption, List, Contains};
ghost use Rattle.tso_program.specs.declared.outcome.Outcome.{Outcome};
ghost use Rattle.tso_program.specs.declared.shown.Shown.{Shown};
ghost use Rattle.tso_program.specs.Shown.{asked};
ghost use Rattle.program_sketches.specs.ProgramSketches.{mode_in};
ghost use Rattle.program_sketches.specs.FewAccesses.{AreFewAccesses};
ghost use Rattle.exec_axioms.specs.Cycles.{IsSimpleCycle};
ghost use Rattle.tree_laws.specs.Ascending.{Ascend};
ghost use Rattle.tree_laws.specs.CoverTrees.{MustEndAsNumber};
ghost use Rattle.cover_search.specs.Covers.{IsLeafAt, IsEndNotListed, HasNumber};
ghost use Rattle.cover_search.specs.Pushing.{Pushes, IfLeaf};

use crate::access_ids::accesses_of;
use candidate_executions::{Event, Kind};
use cert_forest::{Node, push_cycle, push_known};
use exec_axioms::Sketch;
use std::alloc::{AllocError, Global};
use tso_program::{Outcome, Shown};

/// Puts the leaf of a sketch that must end as an outcome of the list, or has a cycle, after the other nodes. Answers whether
/// there is one.
pub(crate) fn leaf(
    alloc: Global,
    sketch: &Sketch,
    shown: &Shown,
    outcomes: &[Outcome],
    nodes: &mut Vec<Node>,
) -> Result<bool, AllocError>
    requires { Ascend outcomes.now }
    ensures { IfOk result (IfLeaf sketch.now shown.now outcomes.now nodes.old.items nodes.new.items) }
{
    if let Some(number) = known(sketch, shown, outcomes)? {
        push_known(nodes, number as u64)?;
        return Ok(true);
    }
    match sketch.find_cycle()? {
        Some((kind, events)) => {
            push_leaf(alloc, sketch, kind, &events, nodes)?;
            Ok(true)
        }
        None => Ok(false),
    }
}

/// The number of the outcome as which the sketch must end.
fn known(sketch: &Sketch, shown: &Shown, outcomes: &[Outcome]) -> Result<Option<usize>, AllocError>
    requires { Ascend outcomes.now }
    ensures { IfOk result (λ number. MatchOption number (IsEndNotListed sketch.now shown.now outcomes.now) (MustEndAsNumber (asked sketch.now.program shown.now) (mode_in sketch.now) outcomes.now sketch.now.chosen)) }
{
    match sketch.must_end(shown)? {
        Some(end) => Ok(number_in(outcomes, &end)),
        None => Ok(None),
    }
}

/// The place of an outcome in a list that ascends.
fn number_in(outcomes: &[Outcome], outcome: &Outcome) -> Option<usize>
    requires { Ascend outcomes.now }
    ensures { MatchOption result (Contains outcomes.now outcome.now → ⊥) (λ number. HasNumber outcomes.now number outcome.now) }
{
    match outcomes.binary_search(outcome) {
        Ok(place) => Some(place),
        Err(_) => None,
    }
}

/// Puts the leaf of a cycle after the other nodes.
fn push_leaf(
    alloc: Global,
    sketch: &Sketch,
    kind: Kind,
    events: &[Event],
    nodes: &mut Vec<Node>,
) -> Result<(), AllocError>
    requires cycle { IsSimpleCycle sketch.now kind events.now }
    requires accesses { AreFewAccesses sketch.now events.now }
    ensures { OnOk result ((shown : Shown) (outcomes : List Outcome) → Pushes (IsLeafAt sketch.now shown outcomes) nodes.old.items nodes.new.items) }
{
    sketch.recall_facts();
    let accesses = accesses_of(alloc, events)?;
    push_cycle(nodes, kind, &accesses)
}
