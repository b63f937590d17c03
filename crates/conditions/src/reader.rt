//! Formulas from tokens.
ghost use Rattle.std.specs.Prelude.{◌≡◌, ℕ, [], ◌∷◌, Err, IfOk, map};
ghost use Rattle.conditions.specs.declared.fault.FormulaFault.TheVariants.{Refused};
ghost use Rattle.tso_program.specs.declared.atom.Atom.{Atom as AtomValue};
ghost use Rattle.tso_program.specs.Tree.{Tree};
ghost use Rattle.tso_program.specs.Nodes.{nodes_of};
ghost use Rattle.conditions.specs.Tokens.{sign_of_token};
ghost use Rattle.conditions.specs.Stack.{Before, ReaderState, next, joined, tree_read, SignsStopAt};
ghost use Rattle.conditions.specs.Layout.{Goes, LiesBefore, LiesWith, IsFormulaTree};

use crate::fault::FormulaFault;
use crate::stack::{Waiting, join, sum};
use crate::token::Token;
use std::alloc::{AllocError, Global};
use tso_program::FormulaNode;

/// An operand of one node is read.
fn operand(
    nodes: &mut Vec<FormulaNode>,
    stack: &mut Vec<Waiting>,
    node: FormulaNode,
) -> Result<(), AllocError>
    ensures { (k : Before AtomValue) (f : Tree AtomValue) → nodes_of f ≡ node ∷ []
        → LiesBefore k nodes.old.items stack.old.items → IfOk result (λ _. LiesWith (joined k f) nodes.new.items stack.new.items) }
{
    nodes.push(node)?;
    join(nodes, stack)?;
    Ok(())
}

/// The token of this index where an operand is wanted; whether one is wanted after it.
fn read_operand(
    nodes: &mut Vec<FormulaNode>,
    stack: &mut Vec<Waiting>,
    token: Token,
    at: usize,
) -> Result<bool, FormulaFault>
    ensures { (k : Before AtomValue) → LiesBefore k nodes.old.items stack.old.items
        → Goes at (next (ReaderState.Wants k) (sign_of_token token)) result nodes.new.items stack.new.items }
{
    match token {
        Token::Atom(atom) => {
            operand(nodes, stack, FormulaNode::Atom(atom))?;
            Ok(false)
        }
        Token::Const(constant) => {
            operand(nodes, stack, FormulaNode::Const(constant))?;
            Ok(false)
        }
        Token::Not => {
            stack.push(Waiting::Not)?;
            Ok(true)
        }
        Token::Open => {
            stack.push(Waiting::Open)?;
            Ok(true)
        }
        Token::And | Token::Or | Token::Close => Err(FormulaFault::Refused(at)),
    }
}

/// The token of this index after an operand; whether another operand is wanted after it.
fn read_connective(
    nodes: &mut Vec<FormulaNode>,
    stack: &mut Vec<Waiting>,
    token: Token,
    at: usize,
) -> Result<bool, FormulaFault>
    ensures { (k : Before AtomValue) (f : Tree AtomValue) → LiesWith (k, f) nodes.old.items stack.old.items
        → Goes at (next (ReaderState.Has (k, f)) (sign_of_token token)) result nodes.new.items stack.new.items }
{
    match token {
        Token::And => {
            nodes.push(FormulaNode::And)?;
            stack.push(Waiting::And)?;
            Ok(true)
        }
        Token::Or => {
            sum(nodes, stack)?;
            nodes.push(FormulaNode::Or)?;
            stack.push(Waiting::Or)?;
            Ok(true)
        }
        Token::Close => {
            sum(nodes, stack)?;
            match stack.pop() {
                Some(Waiting::Open) => {
                    join(nodes, stack)?;
                    Ok(false)
                }
                _ => Err(FormulaFault::Refused(at)),
            }
        }
        Token::Atom(_) | Token::Const(_) | Token::Not | Token::Open => {
            Err(FormulaFault::Refused(at))
        }
    }
}

/// The nodes of the formula that the tokens spell.
pub fn read(alloc: Global, tokens: &[Token]) -> Result<Vec<FormulaNode>, FormulaFault>
    ensures read { IfOk result (λ nodes. IsFormulaTree (tree_read (map sign_of_token tokens.now)) nodes.items) }
    ensures refused { (at : ℕ) → result ≡ Err (Refused at) → SignsStopAt (map sign_of_token tokens.now) at }
{
    let mut nodes = Vec::new(alloc);
    let mut stack = Vec::new(alloc);
    let mut wanted = true;
    for (at, token) in tokens.iter().enumerate() {
        wanted = if wanted {
            read_operand(&mut nodes, &mut stack, *token, at)?
        } else {
            read_connective(&mut nodes, &mut stack, *token, at)?
        };
    }
    if wanted {
        return Err(FormulaFault::Refused(tokens.len()));
    }
    sum(&mut nodes, &mut stack)?;
    if stack.is_empty() {
        Ok(nodes)
    } else {
        Err(FormulaFault::Refused(tokens.len()))
    }
}
