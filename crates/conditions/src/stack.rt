//! The stack of a reader.
ghost use Rattle.std.specs.Prelude.{◌≡◌, IfOk};
ghost use Rattle.tso_program.specs.Tree.{Tree};
ghost use Rattle.tso_program.specs.declared.atom.Atom.{Atom as AtomValue};
ghost use Rattle.conditions.specs.Stack.{Before, joined, summed};
ghost use Rattle.conditions.specs.Layout.{LiesWith};

use std::alloc::AllocError;
use tso_program::FormulaNode;

/// What waits for its right operand, or for its `)`.
#[derive(Clone, Copy)]
pub enum Waiting {
    Not,
    And,
    Or,
    Open,
}

/// Each `not` at the top of the stack, and then an `and`, takes the tree that was read.
pub fn join(nodes: &mut Vec<FormulaNode>, stack: &mut Vec<Waiting>) -> Result<(), AllocError>
    ensures { (k : Before AtomValue) (f : Tree AtomValue) → LiesWith (k, f) nodes.old.items stack.old.items
        → IfOk result (λ _. LiesWith (joined k f) nodes.new.items stack.new.items) }
{
    loop {
        match stack.pop() {
            None => return Ok(()),
            Some(Waiting::Not) => nodes.push(FormulaNode::Not)?,
            Some(Waiting::And) => nodes.push(FormulaNode::End)?,
            Some(Waiting::Or) => {
                stack.push(Waiting::Or)?;
                return Ok(());
            }
            Some(Waiting::Open) => {
                stack.push(Waiting::Open)?;
                return Ok(());
            }
        }
    }
}

/// An `or` at the top of the stack takes the tree that was read.
pub fn sum(nodes: &mut Vec<FormulaNode>, stack: &mut Vec<Waiting>) -> Result<(), AllocError>
    ensures { (k : Before AtomValue) (f : Tree AtomValue) → LiesWith (k, f) nodes.old.items stack.old.items
        → IfOk result (λ _. LiesWith (summed k f) nodes.new.items stack.new.items) }
{
    match stack.pop() {
        None => Ok(()),
        Some(Waiting::Or) => {
            nodes.push(FormulaNode::End)?;
            Ok(())
        }
        Some(Waiting::Not) => Ok(stack.push(Waiting::Not)?),
        Some(Waiting::And) => Ok(stack.push(Waiting::And)?),
        Some(Waiting::Open) => Ok(stack.push(Waiting::Open)?),
    }
}
