//! Canonical tokens of formulas.
ghost use Rattle.std.specs.Prelude.{◌≡◌, List, ◌∷◌, [], IfOk, map};
ghost use mathlib.Core.List.{reverse};
ghost use Rattle.tso_program.specs.declared.atom.Atom.{Atom as AtomValue};
ghost use Rattle.tso_program.specs.declared.node.FormulaNode.{FormulaNode as NodeValue};
ghost use Rattle.tso_program.specs.Tree.{Tree};
ghost use Rattle.conditions.specs.Tokens.{sign_of_token};
ghost use Rattle.tso_program.specs.Nodes.{nodes_of};
ghost use Rattle.conditions.specs.Canonical.{is_joined, signs_of, enclosed_signs_of};
ghost use Rattle.conditions.specs.Internal.Unwind.{formula_tokens, opened, left, unwound};

use crate::prefix::Prefix;
use crate::token::Token;
use std::alloc::{AllocError, Global};
use tso_program::FormulaNode;

/// What waits before an operand is written, last first.
fn begin(tokens: &mut Vec<Token>, waiting: &mut Vec<Prefix>) -> Result<(), AllocError>
    ensures { IfOk result (λ _. (reverse tokens.new.items ≡ opened (reverse waiting.old.items) (reverse tokens.old.items))
        × (reverse waiting.new.items ≡ left (reverse waiting.old.items))) }
{
    while let Some(next) = waiting.pop() {
        match next {
            Prefix::Not => tokens.push(Token::Not)?,
            Prefix::Open => tokens.push(Token::Open)?,
            Prefix::Stop => return Ok(()),
        }
    }
    Ok(())
}

/// One node, where the nodes after it are written.
fn unwind(
    tokens: &mut Vec<Token>,
    waiting: &mut Vec<Prefix>,
    node: FormulaNode,
) -> Result<(), AllocError>
    ensures { IfOk result (λ _. (xs : List NodeValue)
        → unwound (node ∷ xs) (reverse waiting.old.items) (reverse tokens.old.items) ≡ unwound xs (reverse waiting.new.items) (reverse tokens.new.items)) }
{
    match node {
        FormulaNode::Atom(atom) => {
            tokens.push(Token::Atom(atom))?;
            begin(tokens, waiting)?;
        }
        FormulaNode::Const(constant) => {
            tokens.push(Token::Const(constant))?;
            begin(tokens, waiting)?;
        }
        FormulaNode::Not => {
            waiting.push(Prefix::Not)?;
        }
        FormulaNode::And => {
            tokens.push(Token::And)?;
        }
        FormulaNode::Or => {
            tokens.push(Token::Or)?;
        }
        FormulaNode::End => {
            tokens.push(Token::Close)?;
            waiting.push(Prefix::Open)?;
            waiting.push(Prefix::Stop)?;
        }
    }
    Ok(())
}

/// Appends the tokens of a formula to the others, last first.
fn unwind_all(
    alloc: Global,
    nodes: &[FormulaNode],
    tokens: &mut Vec<Token>,
) -> Result<(), AllocError>
    ensures { (f : Tree AtomValue) → nodes_of f ≡ nodes.now
        → IfOk result (λ _. reverse tokens.new.items ≡ formula_tokens f (reverse tokens.old.items)) }
{
    let mut waiting = Vec::new(alloc);
    let mut left = nodes.len();
    while left > 0 {
        left -= 1;
        unwind(tokens, &mut waiting, nodes[left])?;
    }
    Ok(())
}

/// Whether the nodes stand for a conjunction or a disjunction.
fn is_joined(nodes: &[FormulaNode]) -> bool
    ensures { (f : Tree AtomValue) → nodes_of f ≡ nodes.now → result ≡ is_joined f }
{
    matches!(nodes.last(), Some(FormulaNode::End))
}

/// The canonical tokens of the formula that these nodes stand for.
pub fn tokens(alloc: Global, nodes: &[FormulaNode]) -> Result<Vec<Token>, AllocError>
    ensures { (f : Tree AtomValue) → nodes_of f ≡ nodes.now → IfOk result (λ tokens. map sign_of_token tokens.items ≡ signs_of f) }
{
    let mut tokens = Vec::new(alloc);
    unwind_all(alloc, nodes, &mut tokens)?;
    tokens.reverse();
    Ok(tokens)
}

/// The canonical tokens of the formula that these nodes stand for, in parentheses, and no second ones.
pub fn enclosed_tokens(alloc: Global, nodes: &[FormulaNode]) -> Result<Vec<Token>, AllocError>
    ensures { (f : Tree AtomValue) → nodes_of f ≡ nodes.now → IfOk result (λ tokens. map sign_of_token tokens.items ≡ enclosed_signs_of f) }
{
    if is_joined(nodes) {
        return tokens(alloc, nodes);
    }
    let mut tokens = Vec::new(alloc);
    tokens.push(Token::Close)?;
    unwind_all(alloc, nodes, &mut tokens)?;
    tokens.push(Token::Open)?;
    tokens.reverse();
    Ok(tokens)
}
