//! Laws of nodes: each function's contract is a law, and calling it does nothing.
ghost use Rattle.cert_trees.specs.Laws.{NodesSpellOneTree, GapNodesSpellOneTree};

/// Nodes spell at most one tree, and where more nodes follow, they are those of what comes after it.
pub fn nodes_spell_one_tree()
    ensures covers { NodesSpellOneTree }
    ensures gaps { GapNodesSpellOneTree }
{}
