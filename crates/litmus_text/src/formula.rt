//! The condition.
ghost use Rattle.std.specs.Prelude.{◌≡◌, ◌++◌, OnOk, map};
ghost use Rattle.std.specs.List.{flat_map};
ghost use Rattle.text_tokens.specs.Pieces.{text_of};
ghost use Rattle.conditions.specs.Tokens.{sign_of_token};
ghost use Rattle.litmus_text.specs.Spelling.{sign_pieces, quantifier_pieces, condition_pieces};
ghost use Rattle.litmus_text.specs.Canonical.{atom_named, sign_named, signs_named};

use crate::words::{push_location_value, push_register_value};
use conditions::{Atom, Condition, Quantifier, Token, enclosed_tokens};
use litmus_reader::{NameTable, location_name};
use std::alloc::{AllocError, Global};

fn push_atom(out: &mut Vec<u8>, names: &NameTable, atom: Atom) -> Result<(), AllocError>
    ensures { OnOk result (out.new.items ≡ out.old.items ++ text_of (sign_pieces (atom_named names.now.locations atom))) }
{
    match atom {
        Atom::Register {
            thread,
            register,
            value,
        } => push_register_value(out, thread, register, value),
        Atom::Location { location, value } => {
            push_location_value(out, location_name(names, location as usize), value)
        }
    }
}

/// A sign.
fn push_sign(out: &mut Vec<u8>, names: &NameTable, sign: Token) -> Result<(), AllocError>
    ensures { OnOk result (out.new.items ≡ out.old.items ++ text_of (sign_pieces (sign_named names.now.locations (sign_of_token sign)))) }
{
    match sign {
        Token::Atom(atom) => push_atom(out, names, atom),
        Token::Const(true) => out.extend_from_slice(b"true"),
        Token::Const(false) => out.extend_from_slice(b"false"),
        Token::Not => out.extend_from_slice(b"not "),
        Token::And => out.extend_from_slice(b" /\\ "),
        Token::Or => out.extend_from_slice(b" \\/ "),
        Token::Open => out.extend_from_slice(b"("),
        Token::Close => out.extend_from_slice(b")"),
    }
}

fn push_signs(out: &mut Vec<u8>, names: &NameTable, signs: &[Token]) -> Result<(), AllocError>
    ensures { OnOk result (out.new.items ≡ out.old.items ++ text_of (flat_map sign_pieces (map (sign_named names.now.locations) (map sign_of_token signs.now)))) }
{
    for sign in signs {
        push_sign(out, names, *sign)?;
    }
    Ok(())
}

fn push_quantifier(out: &mut Vec<u8>, quantifier: Quantifier) -> Result<(), AllocError>
    ensures { OnOk result (out.new.items ≡ out.old.items ++ text_of (quantifier_pieces quantifier)) }
{
    match quantifier {
        Quantifier::Exists => out.extend_from_slice(b"exists"),
        Quantifier::NotExists => out.extend_from_slice(b"~exists"),
        Quantifier::Forall => out.extend_from_slice(b"forall"),
    }
}

/// The quantifier and the formula.
pub fn push_condition(
    alloc: Global,
    out: &mut Vec<u8>,
    names: &NameTable,
    condition: &Condition,
) -> Result<(), AllocError>
    ensures { OnOk result (out.new.items ≡ out.old.items
        ++ text_of (condition_pieces condition.now.quantifier (signs_named names.now.locations condition.now.formula))) }
{
    let signs = enclosed_tokens(alloc, &condition.formula)?;
    push_quantifier(out, condition.quantifier)?;
    out.push(b' ')?;
    push_signs(out, names, signs.as_slice())?;
    out.push(b'\n')?;
    Ok(())
}
