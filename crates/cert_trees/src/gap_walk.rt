//! Walks over gap trees, node by node.
ghost use Rattle.std.specs.Prelude.{◌≡◌, ◌↔◌, [], ◌<◌, IsTrue, length};
ghost use Rattle.cert_trees.specs.GapNodes.{spell_gaps, runs_first, AreGapTrees};
ghost use Rattle.cert_trees.specs.Walks.{IsNextGap, bound_len};

use crate::node::GapNode;
use std::marker::Model;

/// The gap trees that are still to come, in order. Of the first one its root may be gone, and then its children come.
#[derive(Drop)]
pub struct GapWalk<'a> {
    left: &'a [GapNode],
}

impl<'a> Model for GapWalk<'a> {
    ghost use Rattle.std.specs.Prelude.{List};
    ghost use Rattle.std.specs.Coded.{coded_list};
    ghost use Rattle.cert_trees.specs.Trees.{Gap};
    ghost use Rattle.cert_trees.specs.GapCodes.{coded_gap};
    ghost use Rattle.cert_trees.specs.GapNodes.{gap_trees_in, AreGapTrees};

    ghost Value = { List Gap };

    ghost coded = { coded_list coded_gap };

    ghost view = { λ w. gap_trees_in w.left.now };

    ghost invariant = { λ w. AreGapTrees w.left.now };
}

impl<'a> GapWalk<'a> {
    /// A walk over the trees that these nodes spell.
    pub fn over(nodes: &'a [GapNode]) -> GapWalk<'a>
        requires { AreGapTrees nodes.now }
        ensures { spell_gaps result ≡ nodes.now }
    {
        GapWalk { left: nodes }
    }

    /// Whether no tree is left.
    pub fn is_done(&self) -> bool
        ensures { IsTrue result ↔ (self.now ≡ []) }
    {
        self.left.is_empty()
    }

    /// How many runs the first tree names, where it is a bound.
    pub fn bound_len(&self) -> usize
        ensures { result ≡ bound_len self.now }
    {
        runs_first(self.left)
    }

    /// The root of the first tree, whose children are then the first trees.
    pub fn next_node(&mut self) -> GapNode
        requires { 0 < length self.old }
        ensures { IsNextGap self.old result self.new }
    {
        match self.left.split_first() {
            Some((first, others)) => {
                self.left = others;
                *first
            }
            None => unreachable!(),
        }
    }
}

/// With how many runs of a bound these nodes begin.
fn runs_first(nodes: &[GapNode]) -> usize
    ensures { result ≡ runs_first nodes.now }
{
    let mut count = 0;
    let mut left = nodes;
    while let Some((node, others)) = left.split_first() {
        if !node.is_run() {
            return count;
        }
        count += 1;
        left = others;
    }
    count
}
