//! Truth by one walk over the nodes.
ghost use Rattle.std.specs.Prelude.{◌≡◌, ◌+◌, ◌<◌, ◌^◌};
ghost use Rattle.tso_program.specs.Tree.{Tree};
ghost use Rattle.tso_program.specs.declared.atom.Atom.{Atom as AtomValue};
ghost use Rattle.tso_program.specs.Truth.{truth};
ghost use Rattle.tso_program.specs.Nodes.{nodes_of};
ghost use Rattle.tso_program.specs.Internal.Walk.{passed, seen};

use crate::Outcome;
use crate::node::FormulaNode;

/// How many `End`s are still to come, after a node that is passed over.
fn passed(ends: usize, node: FormulaNode) -> usize
    requires { ends + 1 < 2 ^ 64 }
    ensures { result ≡ passed ends node }
{
    match node {
        FormulaNode::And | FormulaNode::Or => ends + 1,
        FormulaNode::End => ends.saturating_sub(1),
        _ => ends,
    }
}

/// The value after a node, and how many `End`s to pass over: an operand that can't change the value is passed over.
fn seen(outcome: &Outcome, value: bool, node: FormulaNode) -> (bool, usize)
    ensures { result ≡ seen outcome.now value node }
{
    match node {
        FormulaNode::Atom(atom) => (atom.is_true_at(outcome), 0),
        FormulaNode::Const(constant) => (constant, 0),
        FormulaNode::Not => (!value, 0),
        FormulaNode::And => (value, if value { 0 } else { 1 }),
        FormulaNode::Or => (value, if value { 1 } else { 0 }),
        FormulaNode::End => (value, 0),
    }
}

/// Whether the formula that these nodes stand for is true at the outcome.
pub fn holds(nodes: &[FormulaNode], outcome: &Outcome) -> bool
    ensures { (f : Tree AtomValue) → nodes_of f ≡ nodes.now → result ≡ truth outcome.now f }
{
    let mut value = false;
    let mut ends: usize = 0;
    for node in nodes {
        if ends > 0 {
            ends = passed(ends, *node);
        } else {
            (value, ends) = seen(outcome, value, *node);
        }
    }
    value
}
