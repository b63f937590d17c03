//! Walks over cover trees, node by node.
ghost use Rattle.std.specs.Prelude.{◌≡◌, ◌↔◌, ◌∷◌, [], ◌<◌, IsTrue, length};
ghost use Rattle.cert_trees.specs.declared.node.Node.TheVariants as node;
ghost use Rattle.cert_trees.specs.Nodes.{spell_all, trees_of, AreTrees, BeginsCycle, BeginsKnown};
ghost use Rattle.cert_trees.specs.Walks.{IsNext};

use crate::events::{Events, cycle_end};
use crate::node::{NEAR_RUNS, Node};
use crate::tree::AccessId;
use candidate_executions::Kind;
use std::marker::Model;

/// A node of a cover tree, without its children.
#[derive(Drop)]
pub enum CoverNode<'a> {
    /// The next read of a thread takes one of its values: so many children, one for each value.
    Value { thread: u8, count: u32 },
    /// A read takes one of its sources: so many children, one for each source.
    Source { read: AccessId, count: u32 },
    /// Of two writes to one location the first comes before the second, or the second before the first: two children.
    Order { first: AccessId, second: AccessId },
    /// A cycle of known edges: there is no consistent completion.
    Cycle { kind: Kind, events: Events<'a> },
    /// Each completion has the outcome of the sequential run with this number, from 0.
    Known { run: u64 },
}

/// The trees that are still to come, in order. Of the first one its root may be gone, and then its children come.
#[derive(Drop)]
pub struct Walk<'a> {
    left: &'a [Node],
}

impl<'a> Model for Walk<'a> {
    ghost use Rattle.std.specs.Prelude.{List};
    ghost use Rattle.std.specs.Coded.{coded_list};
    ghost use Rattle.cert_trees.specs.Trees.{Cover};
    ghost use Rattle.cert_trees.specs.CoverCodes.{coded_cover};
    ghost use Rattle.cert_trees.specs.Nodes.{trees_of, AreTrees};

    ghost Value = { List Cover };

    ghost coded = { coded_list coded_cover };

    ghost view = { λ w. trees_of w.left.now };

    ghost invariant = { λ w. AreTrees w.left.now };
}

impl<'a> Walk<'a> {
    /// A walk over the trees that these nodes spell.
    pub fn over(nodes: &'a [Node]) -> Walk<'a>
        requires { AreTrees nodes.now }
        ensures { spell_all result ≡ nodes.now }
    {
        Walk { left: nodes }
    }

    /// A walk over the trees that are left, to look ahead.
    pub fn ahead(&self) -> Walk<'a>
        ensures { result ≡ self.now }
    {
        Walk { left: self.left }
    }

    /// Whether no tree is left.
    pub fn is_done(&self) -> bool
        ensures { IsTrue result ↔ (self.now ≡ []) }
    {
        self.left.is_empty()
    }

    /// The root of the first tree, whose children are then the first trees.
    pub fn next_node(&mut self) -> CoverNode<'a>
        requires { 0 < length self.old }
        ensures { IsNext self.old result self.new }
    {
        match self.left.split_first() {
            Some((first, others)) => {
                let (node, rest) = shown(*first, others, self.left);
                self.left = rest;
                node
            }
            None => unreachable!(),
        }
    }
}

/// The node that these nodes begin with, and the nodes after it.
fn shown<'a>(first: Node, others: &'a [Node], nodes: &'a [Node]) -> (CoverNode<'a>, &'a [Node])
    requires whole { nodes.now ≡ first ∷ others.now }
    requires trees { AreTrees nodes.now }
    ensures trees { AreTrees result.1.now }
    ensures next { IsNext (trees_of nodes.now) result.0 (trees_of result.1.now) }
{
    match first {
        Node::Value { thread, count } => (CoverNode::Value { thread, count }, others),
        Node::Source { read, count } => (CoverNode::Source { read, count }, others),
        Node::Order { first, second } => (CoverNode::Order { first, second }, others),
        Node::Known { run } => (
            CoverNode::Known {
                run: u64::from(run),
            },
            others,
        ),
        Node::Far { times } => {
            let (near, rest) = known(others);
            let run = u64::from(times) * NEAR_RUNS + u64::from(near);
            (CoverNode::Known { run }, rest)
        }
        _ => cycle(nodes),
    }
}

/// The cycle that these nodes begin with, and the nodes after it.
fn cycle(nodes: &[Node]) -> (CoverNode<'_>, &[Node])
    requires begins { BeginsCycle nodes.now }
    requires trees { AreTrees nodes.now }
    ensures trees { AreTrees result.1.now }
    ensures next { IsNext (trees_of nodes.now) result.0 (trees_of result.1.now) }
{
    match cycle_end(nodes) {
        Some((kind, rest)) => {
            let events = Events::of(nodes);
            (CoverNode::Cycle { kind, events }, rest)
        }
        None => unreachable!(),
    }
}

/// The number of the node `Known` that these nodes begin with, and the nodes after it.
fn known(nodes: &[Node]) -> (u32, &[Node])
    requires { BeginsKnown nodes.now }
    ensures { nodes.now ≡ node.Known result.0 ∷ result.1.now }
{
    match nodes.split_first() {
        Some((first, rest)) => match first {
            Node::Known { run } => (*run, rest),
            _ => unreachable!(),
        },
        None => unreachable!(),
    }
}
