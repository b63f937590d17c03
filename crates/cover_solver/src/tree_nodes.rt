//! Whether nodes are those of cover trees.
ghost use Rattle.std.specs.Prelude.{◌≡◌, ◌∷◌, ◌+◌, ◌<◌, ◌≤◌, IsTrue, IfSome, length};
ghost use Rattle.cert_trees.specs.Nodes.{trees_of, AreTrees};
ghost use Rattle.cover_solver.specs.TreeNodes.{BeginWithCycle, SpellTrees, AreLeftBy};

use cert_forest::Node;

/// Whether these nodes spell trees, one at least. Numbers of runs that take two nodes are not known here.
pub(crate) fn are_trees(nodes: &[Node]) -> bool
    ensures trees { IsTrue result → AreTrees nodes.now }
    ensures some { IsTrue result → 0 < length (trees_of nodes.now) }
{
    let mut trees = 0;
    let mut start = nodes.len();
    while start > 0 {
        start -= 1;
        match trees_with(nodes[start], &nodes[start + 1..], trees) {
            Some(more) => trees = more,
            None => return false,
        }
    }
    trees > 0
}

/// How many trees a node spells with the nodes after it, which spell so many. `None` if it spells none.
fn trees_with(node: Node, rest: &[Node], trees: usize) -> Option<usize>
    requires { SpellTrees rest.now trees }
    ensures { IfSome result (SpellTrees (node ∷ rest.now)) }
{
    match node {
        Node::Value { count, .. } => over(trees, count),
        Node::Source { count, .. } => over(trees, count),
        Node::Order { .. } => over(trees, 2),
        Node::Earlier(..) => {
            if begin_with_cycle(rest) {
                Some(trees)
            } else {
                None
            }
        }
        Node::LastOne { .. } => trees.checked_add(1),
        Node::LastTwo { .. } => trees.checked_add(1),
        Node::LastThree { .. } => trees.checked_add(1),
        Node::Known { .. } => trees.checked_add(1),
        Node::EmptyCycle { .. } | Node::Far { .. } => None,
    }
}

/// How many trees there are once a node is put over so many of them. `None` if there are not so many.
fn over(trees: usize, count: u32) -> Option<usize>
    ensures { IfSome result (AreLeftBy count trees) }
{
    match trees.checked_sub(count as usize) {
        Some(others) => others.checked_add(1),
        None => None,
    }
}

/// Whether nodes begin with one of a cycle that has accesses.
fn begin_with_cycle(nodes: &[Node]) -> bool
    ensures { IsTrue result → BeginWithCycle nodes.now }
{
    match nodes.first() {
        Some(node) => matches!(
            node,
            Node::Earlier(..) | Node::LastOne { .. } | Node::LastTwo { .. } | Node::LastThree { .. }
        ),
        None => false,
    }
}
