//! Trees of a certificate.
ghost use Rattle.std.specs.Prelude.{◌≡◌, ◌∷◌, [], IfOk};
ghost use Rattle.cert_trees.specs.Nodes.{spell, IsTree};
ghost use Rattle.cert_trees.specs.GapNodes.{spell_gap, IsGapTree};

use crate::gap_walk::GapWalk;
use crate::node::{GapNode, Node};
use crate::walk::Walk;
use gap_sets::MAX_GAPS;
use std::alloc::{AllocError, Global};
use std::marker::Model;
use std::sync::Arc;

/// How deep a cover tree is at most, where it is read; a root alone is of depth 1.
pub const MAX_COVER_DEPTH: u16 = 600;

/// How deep a gap tree is at most, where it is read: a node for each gap, and a leaf.
pub const MAX_GAP_DEPTH: u16 = MAX_GAPS as u16 + 1;

/// An access of a thread, written `t.i`: the thread's number, and the number of the access in its thread, from 0.
#[derive(Clone, Copy, PartialEq, Eq, Debug)]
pub struct AccessId {
    pub thread: u8,
    pub access: u8,
}

/// A tree that shows the outcome of each completion of a sketch: values for the next reads of threads, sources of reads,
/// orders of writes, and at a leaf a cycle of known edges or the outcome of a sequential run. It is seen as a tree, and
/// lies in memory as a list of plain nodes, each before its children. So dropping it takes no stack, and copies share the
/// list.
#[derive(Debug, Drop)]
pub struct CoverTree {
    nodes: Arc<Vec<Node>>,
}

impl Model for CoverTree {
    ghost use Rattle.cert_trees.specs.Trees.{Cover};
    ghost use Rattle.cert_trees.specs.CoverCodes.{coded_cover};
    ghost use Rattle.cert_trees.specs.Nodes.{tree_of, IsTree};
    ghost use Rattle.std.specs.Arc.{arc_value};

    ghost Value = { Cover };

    ghost coded = { coded_cover };

    ghost view = { λ a. tree_of (arc_value a.nodes).items };

    ghost invariant = { λ a. IsTree (arc_value a.nodes).items };
}

/// A tree that shows that no set of gaps in a region is better and serves. It is seen as a tree, and lies in memory as a
/// cover tree does: as a list of plain nodes, each before its children, which copies share.
#[derive(Drop)]
pub struct GapTree {
    nodes: Arc<Vec<GapNode>>,
}

impl Model for GapTree {
    ghost use Rattle.std.specs.Arc.{arc_value};
    ghost use Rattle.cert_trees.specs.Trees.{Gap};
    ghost use Rattle.cert_trees.specs.GapCodes.{coded_gap};
    ghost use Rattle.cert_trees.specs.GapNodes.{gap_tree_of, IsGapTree};

    ghost Value = { Gap };

    ghost coded = { coded_gap };

    ghost view = { λ a. gap_tree_of (arc_value a.nodes).items };

    ghost invariant = { λ a. IsGapTree (arc_value a.nodes).items };
}

impl CoverTree {
    /// The tree that these nodes spell.
    pub fn of_nodes(alloc: Global, mut nodes: Vec<Node>) -> Result<CoverTree, AllocError>
        requires { IsTree nodes.items }
        ensures { IfOk result (λ tree. spell tree ≡ nodes.items) }
    {
        nodes.shrink_to_fit();
        let nodes = Arc::new(alloc, nodes)?;
        Ok(CoverTree { nodes })
    }

    /// The nodes that spell the tree.
    pub fn nodes(&self) -> &[Node]
        ensures { result.now ≡ spell self.now }
    {
        &self.nodes
    }

    /// A walk over the tree.
    pub fn walk(&self) -> Walk<'_>
        ensures { result ≡ self.now ∷ [] }
    {
        Walk::over(self.nodes())
    }

    /// An equal tree, which shares the nodes.
    pub fn copy(&self) -> Result<CoverTree, AllocError>
        ensures { IfOk result (λ tree. tree ≡ self.now) }
    {
        let nodes = Arc::try_clone(&self.nodes)?;
        Ok(CoverTree { nodes })
    }
}

impl GapTree {
    /// The tree that these nodes spell.
    pub fn of_nodes(alloc: Global, mut nodes: Vec<GapNode>) -> Result<GapTree, AllocError>
        requires { IsGapTree nodes.items }
        ensures { IfOk result (λ tree. spell_gap tree ≡ nodes.items) }
    {
        nodes.shrink_to_fit();
        let nodes = Arc::new(alloc, nodes)?;
        Ok(GapTree { nodes })
    }

    /// The nodes that spell the tree.
    pub fn nodes(&self) -> &[GapNode]
        ensures { result.now ≡ spell_gap self.now }
    {
        &self.nodes
    }

    /// A walk over the tree.
    pub fn walk(&self) -> GapWalk<'_>
        ensures { result ≡ self.now ∷ [] }
    {
        GapWalk::over(self.nodes())
    }

    /// An equal tree, which shares the nodes.
    pub fn copy(&self) -> Result<GapTree, AllocError>
        ensures { IfOk result (λ tree. tree ≡ self.now) }
    {
        let nodes = Arc::try_clone(&self.nodes)?;
        Ok(GapTree { nodes })
    }
}
