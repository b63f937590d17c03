//! The search for a cover tree over a list of outcomes.
ghost use Rattle.std.specs.Prelude.{◌≡◌, ◌≤◌, ◌<◌, ◌^◌, IfErr, IfOk, IsTrue, OnOk, drop, length};
ghost use Rattle.std.specs.List.{remove_range};
ghost use Rattle.tso_program.specs.Shown.{asked};
ghost use Rattle.program_sketches.specs.ProgramSketches.{mode_in, with_chosen};
ghost use Rattle.cert_trees.specs.Nodes.{tree_of, IsTree, first_tree};
ghost use Rattle.cover_judge.specs.Choices.{AreChoicesOf, MayChoose, MayChooseEach};
ghost use Rattle.tree_laws.specs.Ascending.{Ascend};
ghost use Rattle.tree_laws.specs.CoverTrees.{sketch_with};
ghost use Rattle.cover_judge.specs.Judged.{IsValidAt, IsValidAfter};
ghost use Rattle.cover_search.specs.Covers.{IsCoverAt, node_over};
ghost use Rattle.cover_search.specs.OpenChoices.{IsOpen};
ghost use Rattle.cover_search.specs.Pushing.{Pushes, TakesPlace};
ghost use Rattle.cover_search.specs.Stops.{StopLacks};

use crate::choice::{choices_of, choose};
use crate::leaf::leaf;
use crate::next_choice::next_choice;
use crate::run::shown_run;
use crate::stop::SearchStop;
use cert_forest::{Node, Walk, take_out};
use cover_judge::{Choice, NodeFault, OpenChoice, judge};
use exec_axioms::Sketch;
use std::alloc::{AllocError, Global};
use tree_laws::Rule;
use tso_program::{Outcome, Shown};

/// A search for a cover tree over outcomes, of which this is shown.
#[derive(Drop)]
pub(crate) struct TreeSearch<'a> {
    pub(crate) alloc: Global,
    pub(crate) shown: &'a Shown,
    /// They ascend.
    pub(crate) outcomes: &'a [Outcome],
}

impl TreeSearch<'_> {
    /// Puts the nodes of a tree for the sketch after the other nodes.
    #[cycle(cover)]
    pub(crate) fn cover(&self, sketch: &mut Sketch, nodes: &mut Vec<Node>) -> Result<(), SearchStop>
        requires { Ascend self.now.outcomes.now }
        ensures kept { sketch.new ≡ sketch.old }
        ensures tree { OnOk result (Pushes (IsCoverAt sketch.old self.now.shown.now self.now.outcomes.now) nodes.old.items nodes.new.items) }
        ensures stop { IfErr result (StopLacks (asked sketch.old.program self.now.shown.now) (mode_in sketch.old) self.now.outcomes.now) }
    {
        sketch.recall_facts();
        if leaf(self.alloc, sketch, self.shown, self.outcomes, nodes)? {
            return Ok(());
        }
        match next_choice(self.alloc, sketch)? {
            Some(next) => {
                let choices = choices_of(self.alloc, sketch, next)?;
                self.cover_over(sketch, next, &choices, nodes)
            }
            None => Err(SearchStop::New(shown_run(self.alloc, sketch, self.shown)?)),
        }
    }

    /// Puts the node over what is chosen next and a tree after each of its choices after the other nodes, up to one that is
    /// valid without its choice: that takes the place of the node, and no other is needed.
    #[cycle(cover)]
    fn cover_over(
        &self,
        sketch: &mut Sketch,
        next: OpenChoice,
        choices: &[Choice],
        nodes: &mut Vec<Node>,
    ) -> Result<(), SearchStop>
        requires ascend { Ascend self.now.outcomes.now }
        requires is_open { IsOpen sketch.old next }
        requires choices { AreChoicesOf sketch.old next choices.now }
        requires may { MayChooseEach sketch.old choices.now }
        ensures kept { sketch.new ≡ sketch.old }
        ensures tree { OnOk result (Pushes (IsCoverAt sketch.old self.now.shown.now self.now.outcomes.now) nodes.old.items nodes.new.items) }
        ensures stop { IfErr result (StopLacks (asked sketch.old.program self.now.shown.now) (mode_in sketch.old) self.now.outcomes.now) }
    {
        sketch.recall_facts();
        let root = nodes.len();
        nodes.push(node_of(next, choices))?;
        for choice in choices {
            let start = nodes.len();
            self.cover_after(sketch, *choice, nodes)?;
            if self.take_place(nodes, root, start, sketch)? {
                return Ok(());
            }
        }
        Ok(())
    }

    /// Puts a tree for the sketch after a choice, which is taken back, after the other nodes.
    #[cycle(cover)]
    fn cover_after(
        &self,
        sketch: &mut Sketch,
        choice: Choice,
        nodes: &mut Vec<Node>,
    ) -> Result<(), SearchStop>
        requires ascend { Ascend self.now.outcomes.now }
        requires may { MayChoose sketch.old choice }
        ensures kept { sketch.new ≡ sketch.old }
        ensures tree { OnOk result (Pushes (IsCoverAt (with_chosen sketch.old (sketch_with sketch.old.chosen choice)) self.now.shown.now self.now.outcomes.now) nodes.old.items nodes.new.items) }
        ensures stop { IfErr result (StopLacks (asked sketch.old.program self.now.shown.now) (mode_in sketch.old) self.now.outcomes.now) }
    {
        sketch.recall_facts();
        let mark = sketch.mark()?;
        choose(sketch, choice)?;
        let covered = self.cover(sketch, nodes);
        sketch.go_back(mark);
        covered
    }

    /// Whether the last tree, that of a child whose root is the node `start`, is valid at its parent's sketch. It takes the place
    /// of the parent's node, the root, and the earlier children are gone. A leaf is never so: it would have closed the parent.
    fn take_place(
        &self,
        nodes: &mut Vec<Node>,
        root: usize,
        start: usize,
        sketch: &Sketch,
    ) -> Result<bool, AllocError>
        requires order { root ≤ start }
        requires within { start < length nodes.old.items }
        requires tree { IsTree (drop start nodes.old.items) }
        ensures { IfOk result (TakesPlace sketch.now self.now.shown.now self.now.outcomes.now (tree_of (drop start nodes.old.items)) nodes.old.items (remove_range nodes.old.items root start) nodes.new.items) }
    {
        if is_chosen_next(&nodes[root], &nodes[start]) && self.is_valid(&nodes[start..], sketch)? {
            take_out(nodes, root, start);
            return Ok(true);
        }
        Ok(false)
    }

    /// Whether the tree of these nodes is valid at the sketch. A sketch without rows is made for it.
    fn is_valid(&self, nodes: &[Node], sketch: &Sketch) -> Result<bool, AllocError>
        requires within { 0 < length nodes.now }
        requires tree { IsTree nodes.now }
        ensures { IfOk result (λ valid. IsTrue valid → IsValidAt sketch.now self.now.shown.now self.now.outcomes.now (tree_of nodes.now)) }
    {
        match judged(
            self.alloc,
            &mut Walk::over(nodes),
            sketch,
            self.shown,
            self.outcomes,
        ) {
            Ok(()) => Ok(true),
            Err(NodeFault::Wrong(_)) => Ok(false),
            Err(NodeFault::OutOfMemory) => Err(AllocError),
        }
    }
}

/// Judges the first tree of a walk at the sketch, in a sketch without rows that is made for it.
fn judged(
    alloc: Global,
    walk: &mut Walk<'_>,
    sketch: &Sketch,
    shown: &Shown,
    outcomes: &[Outcome],
) -> Result<(), NodeFault>
    requires { 0 < length walk.old }
    ensures { OnOk result (IsValidAfter Rule.Whole shown.now outcomes.now sketch.now (first_tree walk.old) sketch.now.chosen) }
{
    let mut own = sketch.rowless()?;
    judge(alloc, Rule::Whole, walk, &mut own, shown, outcomes)
}

/// The node over what is chosen next.
fn node_of(next: OpenChoice, choices: &[Choice]) -> Node
    requires { length choices.now < 2 ^ 32 }
    ensures { result ≡ node_over next (length choices.now) }
{
    let count = choices.len() as u32;
    match next {
        OpenChoice::Value(thread) => Node::Value { thread, count },
        OpenChoice::Source(read) => Node::Source { read, count },
        OpenChoice::Order(first, second) => Node::Order { first, second },
    }
}

/// Whether a child's tree may be valid without its choice, by the two roots: sources and orders are chosen in it and above it.
fn is_chosen_next(parent: &Node, child: &Node) -> bool {
    is_of_whole(parent) && is_of_whole(child)
}

/// Whether a source or an order is chosen at the node.
fn is_of_whole(node: &Node) -> bool {
    matches!(node, Node::Source { .. } | Node::Order { .. })
}
