//! Calls of `conditions`.

use crate::input::{named, push_bytes, split_line};
use crate::machines::outcome_in;
use crate::refusal::TextRefusal;
use conditions::{
    Atom, Condition, Formula, Quantifier, Token, enclosed_tokens, formula_tokens, holds,
    read_formula,
};
use std::alloc::{AllocError, Global};
use tso_program::{Outcome, Reg};

/// The letters and signs that stand for tokens.
const TOKENS: [(&[u8], Token); 12] = [
    (
        b"a",
        Token::Atom(Atom::Register {
            thread: 0,
            register: Reg::Eax,
            value: 1,
        }),
    ),
    (
        b"b",
        Token::Atom(Atom::Register {
            thread: 1,
            register: Reg::Edi,
            value: 7,
        }),
    ),
    (
        b"c",
        Token::Atom(Atom::Location {
            location: 1,
            value: 2,
        }),
    ),
    (
        b"d",
        Token::Atom(Atom::Register {
            thread: 2,
            register: Reg::Eax,
            value: 0,
        }),
    ),
    (
        b"e",
        Token::Atom(Atom::Location {
            location: 2,
            value: 0,
        }),
    ),
    (b"t", Token::Const(true)),
    (b"f", Token::Const(false)),
    (b"!", Token::Not),
    (b"&", Token::And),
    (b"|", Token::Or),
    (b"(", Token::Open),
    (b")", Token::Close),
];

/// The letter or the sign of a token.
fn letter_of(token: Token) -> &'static [u8] {
    for (letter, it) in &TOKENS {
        if *it == token {
            return letter;
        }
    }
    b"?"
}

fn formula_of(alloc: Global, letters: &[u8]) -> Result<Formula, TextRefusal> {
    let mut tokens = Vec::new(alloc);
    for letter in letters.chunks(1) {
        tokens.push(named(&TOKENS, letter)?)?;
    }
    Ok(read_formula(alloc, tokens.as_slice())?)
}

fn push_line(tokens: &[Token], printed: &mut String) -> Result<(), AllocError> {
    for token in tokens {
        push_bytes(printed, letter_of(*token))?;
    }
    printed.push('\n')
}

fn condition(
    alloc: Global,
    quantifier: Quantifier,
    formula: &Formula,
) -> Result<Condition, AllocError> {
    let condition = Condition {
        quantifier,
        formula: formula.copy()?,
    };
    condition.copy()
}

fn push_holds(
    formula: &Formula,
    condition: &Condition,
    outcome: &Outcome,
    printed: &mut String,
) -> Result<(), TextRefusal> {
    let (alone, quantified) = (formula.holds(outcome), holds(condition, outcome));
    let quantifier = condition.quantifier;
    Ok(write!(printed, "holds {alone} {quantifier:?} {quantified}")?)
}

/// Whether a formula holds at an outcome, alone and as a condition's.
fn push_held(
    alloc: Global,
    formula: &Formula,
    outcome: &Outcome,
    printed: &mut String,
) -> Result<(), TextRefusal> {
    let condition = condition(alloc, Quantifier::Forall, formula)?;
    push_holds(formula, &condition, outcome, printed)
}

/// Whether a formula holds where thread 0 ends with EAX 1, thread 1 with EDI 7, and the two locations with 0 and 2.
fn push_truth(alloc: Global, formula: &Formula, printed: &mut String) -> Result<(), TextRefusal> {
    let outcome = outcome_in(alloc, b"1,0,0,0,0,0 0,0,0,0,0,7 0,2")?;
    push_held(alloc, formula, &outcome, printed)
}

/// Whether a formula's tokens as a condition's spell it.
fn is_read_again(
    alloc: Global,
    formula: &Formula,
    enclosed: &[Token],
) -> Result<bool, TextRefusal> {
    let again = read_formula(alloc, enclosed)?;
    Ok(formula.same(&again))
}

fn push_tokens(alloc: Global, formula: &Formula, printed: &mut String) -> Result<(), AllocError> {
    push_line(formula_tokens(alloc, formula)?.as_slice(), printed)
}

/// Whether these tokens spell a formula; its own tokens, and these.
fn push_again(
    alloc: Global,
    formula: &Formula,
    enclosed: &[Token],
    printed: &mut String,
) -> Result<(), TextRefusal> {
    let again = is_read_again(alloc, formula, enclosed)?;
    write!(printed, " again {again}\n")?;
    push_tokens(alloc, formula, printed)?;
    Ok(push_line(enclosed, printed)?)
}

fn push_spelled(alloc: Global, formula: &Formula, printed: &mut String) -> Result<(), TextRefusal> {
    let enclosed = enclosed_tokens(alloc, formula)?;
    push_again(alloc, formula, enclosed.as_slice(), printed)
}

/// Whether a formula holds at an outcome, as a condition's too; its tokens, alone and as a condition's, and whether the
/// latter spell it.
pub fn push_formula(alloc: Global, text: &[u8], printed: &mut String) -> Result<(), TextRefusal> {
    let formula = formula_of(alloc, text)?;
    push_truth(alloc, &formula, printed)?;
    push_spelled(alloc, &formula, printed)
}

/// Whether the condition that a formula holds of some outcome is the same as another condition.
fn is_same(
    alloc: Global,
    first: &Formula,
    quantifier: Quantifier,
    second: &Formula,
) -> Result<bool, AllocError> {
    let exists = condition(alloc, Quantifier::Exists, first)?;
    Ok(exists.same(&condition(alloc, quantifier, second)?))
}

fn push_compared(
    alloc: Global,
    first: &Formula,
    second: &Formula,
    printed: &mut String,
) -> Result<(), TextRefusal> {
    let conditions = is_same(alloc, first, Quantifier::Exists, second)?;
    let quantifiers = is_same(alloc, first, Quantifier::NotExists, first)?;
    let formulas = first.same(second);
    Ok(write!(
        printed,
        "formulas {formulas} conditions {conditions} quantifiers {quantifiers}\n"
    )?)
}

/// Whether the formulas of two lines are the same, alone and as conditions; and the first with two quantifiers.
pub fn push_formulas(alloc: Global, text: &[u8], printed: &mut String) -> Result<(), TextRefusal> {
    let (line, rest) = split_line(text);
    let first = formula_of(alloc, line)?;
    let second = formula_of(alloc, rest)?;
    push_compared(alloc, &first, &second, printed)
}
