//! Gap trees, judged node by node.
ghost use Rattle.std.specs.Prelude.{◌≡◌, ◌↔◌, ◌∷◌, [], ℕ, List, ◌<◌, ◌≤◌, false, OnOk, IfOk, IfErr, IfSome, MatchOption, length, take, drop};
ghost use Rattle.gap_sets.specs.Gaps.{numbers_of_set};
ghost use Rattle.gap_sets.specs.Order.{Better};
ghost use Rattle.tso_program.specs.declared.question.Question.{Question};
ghost use Rattle.tso_machine.specs.declared.label.Label.{Label};
ghost use Rattle.cert_forest.specs.Trees.{Split, gap_trees_of};
ghost use Rattle.cert_forest.specs.GapNodes.{first_gap, spell_gaps};
ghost use Rattle.tree_laws.specs.GapTrees.{IsSplitBy, IsBoundBy, IsValidGap};
ghost use Rattle.cert_check.specs.Internal.Replays.{HavePassed};
ghost use Rattle.cert_check.specs.GapDefects.{HasNoSplit, FirstWrongGap};
ghost use Rattle.cover_judge.specs.Judged.{IfWrong, IsAtRoot, IsBelow};
ghost use Rattle.cert_check.specs.Internal.Children.{AreValidIn, IsWrongChildIn};
ghost use Rattle.cert_check.specs.Internal.Packed.{runs_of, IsBoundTree, IsNextRun, IsBoundWith};

use crate::packing::{Packing, run_gaps};
use cert_forest::{GapNode, GapTree, GapWalk};
use cover_judge::NodeFault;
use gap_sets::{Costs, GapSet, Region};
use std::alloc::Global;

/// What gap trees are judged by: the costs, the set that is to be the answer, and the gaps that each foreign
/// run passes. Gaps are those of the ties' names.
#[derive(Clone, Copy)]
pub(crate) struct Bounds<'a> {
    pub(crate) costs: &'a Costs,
    pub(crate) answer: GapSet,
    pub(crate) passed: &'a [GapSet],
}

/// Judges a tree for a region.
pub(crate) fn judge_gap_tree(
    alloc: Global,
    tree: &GapTree,
    region: &Region,
    bounds: &Bounds,
) -> Result<(), NodeFault>
    ensures valid { (q : Question) (runs : List (List Label)) → HavePassed q runs bounds.now.passed.now
        → OnOk result (IsValidGap q bounds.now.costs.now bounds.now.answer runs tree.now region.now) }
    ensures wrong { (q : Question) (runs : List (List Label)) → HavePassed q runs bounds.now.passed.now
        → IfErr result (IfWrong (FirstWrongGap q bounds.now.costs.now bounds.now.answer runs tree.now region.now)) }
{
    judge_gap(alloc, &mut tree.walk(), region, bounds)
}

/// Judges the first tree of a walk for a region. After a valid one the walk is past it; else it is anywhere. It recurses
/// as deep as the tree is.
#[cycle(judge_gap)]
fn judge_gap(
    alloc: Global,
    walk: &mut GapWalk<'_>,
    region: &Region,
    bounds: &Bounds,
) -> Result<(), NodeFault>
    requires { 0 < length walk.old }
    ensures after { OnOk result (walk.new ≡ drop 1 walk.old) }
    ensures valid { (q : Question) (runs : List (List Label)) → HavePassed q runs bounds.now.passed.now
        → OnOk result (IsValidGap q bounds.now.costs.now bounds.now.answer runs (first_gap walk.old) region.now) }
    ensures wrong { (q : Question) (runs : List (List Label)) → HavePassed q runs bounds.now.passed.now
        → IfErr result (IfWrong (FirstWrongGap q bounds.now.costs.now bounds.now.answer runs (first_gap walk.old) region.now)) }
{
    match walk.next_node() {
        GapNode::Bound => judge_bound(alloc, region, bounds),
        GapNode::By { run } => judge_packing(alloc, run, walk, region, bounds),
        GapNode::Split { count, run } => judge_split(alloc, run, count, walk, region, bounds),
    }
}

/// Judges a split whose children come first in the walk.
#[cycle(judge_gap)]
fn judge_split(
    alloc: Global,
    run: u64,
    count: u32,
    walk: &mut GapWalk<'_>,
    region: &Region,
    bounds: &Bounds,
) -> Result<(), NodeFault>
    requires { count ≤ length walk.old }
    ensures after { OnOk result (walk.new ≡ drop count walk.old) }
    ensures valid { (q : Question) (runs : List (List Label)) → HavePassed q runs bounds.now.passed.now
        → OnOk result (IsValidGap q bounds.now.costs.now bounds.now.answer runs (Split run (gap_trees_of (take count walk.old))) region.now) }
    ensures wrong { (q : Question) (runs : List (List Label)) → HavePassed q runs bounds.now.passed.now
        → IfErr result (IfWrong (FirstWrongGap q bounds.now.costs.now bounds.now.answer runs (Split run (gap_trees_of (take count walk.old))) region.now)) }
{
    let gaps = split_gaps(alloc, run, region, count, bounds.passed)?;
    judge_gaps(alloc, walk, region, gaps, bounds)
}

/// Judges the children of a split in order, which come first in the walk: each must have its gap, and never those before it.
#[cycle(judge_gap)]
fn judge_gaps(
    alloc: Global,
    walk: &mut GapWalk<'_>,
    region: &Region,
    gaps: GapSet,
    bounds: &Bounds,
) -> Result<(), NodeFault>
    requires { length (numbers_of_set gaps) ≤ length walk.old }
    ensures after { OnOk result (walk.new ≡ drop (length (numbers_of_set gaps)) walk.old) }
    ensures valid { (q : Question) (runs : List (List Label)) → HavePassed q runs bounds.now.passed.now
        → OnOk result (AreValidIn q bounds.now.costs.now bounds.now.answer runs (take (length (numbers_of_set gaps)) walk.old) region.now (numbers_of_set gaps)) }
    ensures wrong { (q : Question) (runs : List (List Label)) → HavePassed q runs bounds.now.passed.now
        → IfErr result (IfWrong (IsBelow (IsWrongChildIn q bounds.now.costs.now bounds.now.answer runs (take (length (numbers_of_set gaps)) walk.old) region.now (numbers_of_set gaps)))) }
{
    let mut rest = *region;
    for (number, gap) in gaps.iter().enumerate() {
        judge_gap_child(alloc, walk, &rest.with(gap), number, bounds)?;
        rest = rest.without(gap);
    }
    Ok(())
}

/// Judges the first tree of a walk, the child of this number.
#[cycle(judge_gap)]
fn judge_gap_child(
    alloc: Global,
    walk: &mut GapWalk<'_>,
    region: &Region,
    number: usize,
    bounds: &Bounds,
) -> Result<(), NodeFault>
    requires { 0 < length walk.old }
    ensures after { OnOk result (walk.new ≡ drop 1 walk.old) }
    ensures valid { (q : Question) (runs : List (List Label)) → HavePassed q runs bounds.now.passed.now
        → OnOk result (IsValidGap q bounds.now.costs.now bounds.now.answer runs (first_gap walk.old) region.now) }
    ensures wrong { (q : Question) (runs : List (List Label)) → HavePassed q runs bounds.now.passed.now
        → IfErr result (IfWrong (IsBelow (λ n path. (n ≡ number)
        × FirstWrongGap q bounds.now.costs.now bounds.now.answer runs (first_gap walk.old) region.now path))) }
{
    match judge_gap(alloc, walk, region, bounds) {
        Ok(()) => Ok(()),
        Err(fault) => Err(fault.from_parent(number)),
    }
}

/// Judges a bound by runs, of which this is the first. The others come first in the walk.
fn judge_packing(
    alloc: Global,
    first: u64,
    walk: &mut GapWalk<'_>,
    region: &Region,
    bounds: &Bounds,
) -> Result<(), NodeFault>
    requires bound { IsBoundTree (first_gap walk.old) }
    requires some { 0 < length walk.old }
    ensures after { OnOk result (walk.new ≡ drop 1 walk.old) }
    ensures valid { (q : Question) (runs : List (List Label)) → HavePassed q runs bounds.now.passed.now
        → OnOk result (IsBoundBy q bounds.now.costs.now bounds.now.answer runs region.now (first ∷ runs_of (first_gap walk.old))) }
    ensures wrong { (q : Question) (runs : List (List Label)) → HavePassed q runs bounds.now.passed.now
        → IfErr result (IfWrong (IsAtRoot (¬ IsBoundBy q bounds.now.costs.now bounds.now.answer runs region.now (first ∷ runs_of (first_gap walk.old))))) }
{
    match packed_runs(first, walk, region, bounds) {
        Some(packing) => judge_least(alloc, packing, bounds),
        None => Err(NodeFault::at_root(alloc)),
    }
}

/// This run and the others of a bound, which come first in the walk. `None` if one is not there, passes a gap that the
/// sets must have, or has a gap in common with another.
fn packed_runs(
    first: u64,
    walk: &mut GapWalk<'_>,
    region: &Region,
    bounds: &Bounds,
) -> Option<Packing>
    requires bound { IsBoundTree (first_gap walk.old) }
    requires some { 0 < length walk.old }
    ensures after { IfSome result (λ packing. walk.new ≡ drop 1 walk.old) }
    ensures packed { (q : Question) (runs : List (List Label)) → HavePassed q runs bounds.now.passed.now
        → MatchOption result (¬ IsBoundBy q bounds.now.costs.now bounds.now.answer runs region.now (first ∷ runs_of (first_gap walk.old)))
        (λ packing. IsBoundBy q bounds.now.costs.now bounds.now.answer runs region.now (first ∷ runs_of (first_gap walk.old)) ↔ IsBoundWith q bounds.now.costs.now bounds.now.answer runs region.now packing []) }
{
    let mut packing = Packing::of_region(region).with_run(first, region, bounds)?;
    while let Some(run) = next_run(walk) {
        packing = packing.with_run(run, region, bounds)?;
    }
    Some(packing)
}

/// The next run of the bound that comes first in the walk. `None` if it has no more, and then the walk is past it.
fn next_run(walk: &mut GapWalk<'_>) -> Option<u64>
    requires bound { IsBoundTree (first_gap walk.old) }
    requires some { 0 < length walk.old }
    ensures next { IsNextRun walk.old result walk.new }
    ensures some { IfSome result (λ run. 0 < length walk.new) }
    ensures shorter { length (spell_gaps walk.new) < length (spell_gaps walk.old) }
{
    match walk.next_node() {
        GapNode::By { run } => Some(run),
        GapNode::Bound => None,
        GapNode::Split { .. } => None,
    }
}

/// Judges that the least set of a packing is not better than the answer, or that a run has no gap.
fn judge_least(alloc: Global, packing: Packing, bounds: &Bounds) -> Result<(), NodeFault>
    ensures bound { OnOk result (packing.has_none ≡ false → ¬ Better bounds.now.costs.now packing.least bounds.now.answer) }
    ensures wrong { IfErr result (IfWrong (IsAtRoot ((packing.has_none ≡ false) × Better bounds.now.costs.now packing.least bounds.now.answer))) }
{
    if !packing.has_none && bounds.costs.better(&packing.least, &bounds.answer) {
        Err(NodeFault::at_root(alloc))
    } else {
        Ok(())
    }
}

/// Judges that what the sets of the region must have is not better than the answer.
fn judge_bound(alloc: Global, region: &Region, bounds: &Bounds) -> Result<(), NodeFault>
    ensures bound { OnOk result (Better bounds.now.costs.now region.now.must bounds.now.answer → ⊥) }
    ensures wrong { IfErr result (IfWrong (IsAtRoot (Better bounds.now.costs.now region.now.must bounds.now.answer))) }
{
    if bounds.costs.better(&region.must, &bounds.answer) {
        Err(NodeFault::at_root(alloc))
    } else {
        Ok(())
    }
}

/// The gaps that the run of this number passes and that the sets of the region may have, where there are
/// as many as this and it passes none that they must have.
fn split_gaps(
    alloc: Global,
    run: u64,
    region: &Region,
    count: u32,
    passed: &[GapSet],
) -> Result<GapSet, NodeFault>
    ensures split { (q : Question) (labels : List (List Label)) → HavePassed q labels passed.now
        → IfOk result (λ gaps. IsSplitBy q labels region.now run (numbers_of_set gaps)) }
    ensures as_many { IfOk result (λ gaps. count ≡ length (numbers_of_set gaps)) }
    ensures wrong { (q : Question) (labels : List (List Label)) → HavePassed q labels passed.now
        → IfErr result (IfWrong (IsAtRoot (HasNoSplit q labels region.now run count))) }
{
    let Some(gaps) = run_gaps(run, region, passed) else {
        return Err(NodeFault::at_root(alloc));
    };
    if gaps.len() != count {
        return Err(NodeFault::at_root(alloc));
    }
    Ok(gaps)
}
