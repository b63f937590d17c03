//! The condition of a text.
ghost use Rattle.std.specs.Prelude.{◌≡◌, map, IfOk};
ghost use Rattle.conditions.specs.Tokens.{sign_of_token as token_sign};
ghost use Rattle.litmus_syntax.specs.Views.{sign_view, sign_at_view};
ghost use Rattle.conditions.specs.Grammar.{sign_map};
ghost use Rattle.litmus_reader.specs.Internal.Filling.{byte_in};
ghost use Rattle.litmus_reader.specs.Meaning.{sign_of, numbered_atom};
ghost use Rattle.litmus_reader.specs.Internal.Reading.{numbered_signs, ReadsFormula};

use crate::names::NameTable;
use crate::program::atom;
use conditions::{Formula, FormulaFault, Token};
use litmus_syntax::{Part, Refusal, Sign, SignAt, Signs, SyntaxFault};
use std::alloc::{AllocError, Global};

/// A sign of the condition, with its location's number.
fn token(names: &NameTable, sign: Sign<'_>) -> Token
    ensures { token_sign result ≡ sign_map (numbered_atom (byte_in names.now.locations)) (sign_of (sign_view sign.entry)) }
{
    match sign {
        Sign::Atom(place, value) => Token::Atom(atom(names, place, value)),
        Sign::Const(value) => Token::Const(value),
        Sign::Not => Token::Not,
        Sign::And => Token::And,
        Sign::Or => Token::Or,
        Sign::Open => Token::Open,
        Sign::Close => Token::Close,
    }
}

/// The signs of the condition, with their locations' numbers.
fn numbered(
    alloc: Global,
    names: &NameTable,
    signs: &[SignAt<'_>],
) -> Result<Vec<Token>, AllocError>
    ensures { IfOk result (λ tokens. map token_sign tokens.items ≡ numbered_signs (byte_in names.now.locations) (map sign_at_view signs.now)) }
{
    let mut tokens = Vec::new(alloc);
    for sign in signs {
        tokens.push(token(names, sign.sign))?;
    }
    Ok(tokens)
}

/// The refusal of the sign with this index, or of what follows the signs.
fn refusal_at(signs: &Signs<'_>, index: usize) -> Refusal {
    let end = Refusal {
        part: Part::Ended,
        left: 0,
    };
    match signs.signs.as_slice().get(index) {
        Some(sign) => Refusal {
            part: Part::Condition,
            left: sign.left,
        },
        None => signs.refusal.unwrap_or(end),
    }
}

/// The formula that the signs spell. Where they spell none, the first token that cannot stand where it does is refused.
pub(crate) fn read_formula(
    alloc: Global,
    names: &NameTable,
    signs: &Signs<'_>,
) -> Result<Formula, SyntaxFault>
    ensures { ReadsFormula signs.now.refusal (numbered_signs (byte_in names.now.locations) (map sign_at_view signs.now.signs.items)) result }
{
    let numbered = numbered(alloc, names, signs.signs.as_slice())?;
    match conditions::read_formula(alloc, numbered.as_slice()) {
        Ok(formula) => match signs.refusal {
            None => Ok(formula),
            Some(refusal) => Err(SyntaxFault::Refused(refusal)),
        },
        Err(FormulaFault::Refused(index)) => Err(SyntaxFault::Refused(refusal_at(signs, index))),
        Err(FormulaFault::OutOfMemory) => Err(SyntaxFault::OutOfMemory),
    }
}
