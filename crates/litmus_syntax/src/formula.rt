//! The signs of a condition.

ghost use Rattle.std.specs.Prelude.{◌<◌, ◌≡◌, length, IfOk, IfSome, map, option_map};
ghost use Rattle.text_tokens.specs.Tokens.{toks};
ghost use Rattle.litmus_syntax.specs.Views.{sign_view, sign_at_view};
ghost use Rattle.litmus_syntax.specs.Exact.{ReadsSigns};
ghost use Rattle.text_tokens.specs.Steps.{Gives};
ghost use Rattle.litmus_syntax.specs.Reading.{word_sign, mark_sign, short_sign_at, atom_at, sign_at};

use crate::fault::{Part, Refusal};
use crate::parts::refused;
use crate::place::{Place, read_place_among, read_value};
use std::alloc::{AllocError, Global};
use text_tokens::{Mark, Token};

/// A sign of a formula.
#[derive(Clone, Copy, Debug)]
pub enum Sign<'t> {
    /// `t:REG=n`, `x=n` or `[x]=n`
    Atom(Place<'t>, u32),
    /// `true` or `false`
    Const(bool),
    /// `not` or `~`
    Not,
    /// `/\`
    And,
    /// `\/`
    Or,
    /// `(`
    Open,
    /// `)`
    Close,
}

/// A sign, and where it stands.
#[derive(Clone, Copy, Debug)]
pub struct SignAt<'t> {
    pub sign: Sign<'t>,
    /// How many tokens are left at its first token, that one included.
    pub left: usize,
}

/// The signs of a formula, as far as they could be read.
#[derive(Debug, Drop)]
pub struct Signs<'t> {
    pub signs: Vec<SignAt<'t>>,
    /// What stopped the reading before the end of the tokens.
    pub refusal: Option<Refusal>,
}

/// The sign that is this word.
#[tactic(auto, unfolding(crate::specs::Reading::word_sign))]
fn word_sign<'t>(word: &[u8]) -> Option<Sign<'t>>
    ensures { option_map sign_view result ≡ word_sign word.now }
{
    if word == b"true".as_slice() {
        Some(Sign::Const(true))
    } else if word == b"false".as_slice() {
        Some(Sign::Const(false))
    } else if word == b"not".as_slice() {
        Some(Sign::Not)
    } else {
        None
    }
}

/// The sign that is this mark.
fn mark_sign<'t>(mark: Mark) -> Option<Sign<'t>>
    ensures { option_map sign_view result ≡ mark_sign mark }
{
    match mark {
        Mark::Tilde => Some(Sign::Not),
        Mark::And => Some(Sign::And),
        Mark::Or => Some(Sign::Or),
        Mark::OpenParen => Some(Sign::Open),
        Mark::CloseParen => Some(Sign::Close),
        _ => None,
    }
}

/// A sign that is one token.
fn read_short_sign<'t>(tokens: &'t [Token]) -> Option<(Sign<'t>, &'t [Token])>
    ensures gives { option_map (λ x. (sign_view x.0, toks x.1.now)) result ≡ short_sign_at (toks tokens.now) }
    ensures shorter { IfSome result (λ x. length x.1.now < length tokens.now) }
{
    match tokens.split_first() {
        Some((Token::Word(word), rest)) => match word_sign(word.as_slice()) {
            Some(sign) => Some((sign, rest)),
            None => None,
        },
        Some((Token::Mark(mark), rest)) => match mark_sign(*mark) {
            Some(sign) => Some((sign, rest)),
            None => None,
        },
        _ => None,
    }
}

/// A place, `=` and a number.
#[tactic(auto, unfolding(crate::specs::Reading::atom_at))]
fn read_atom<'t>(tokens: &'t [Token], threads: usize) -> Result<(Sign<'t>, &'t [Token]), Refusal>
    ensures gives { Gives (λ x. (sign_view x.0, toks x.1.now)) result (atom_at threads (toks tokens.now)) }
    ensures shorter { IfOk result (λ x. length x.1.now < length tokens.now) }
{
    let (place, rest) = read_place_among(tokens, threads)?;
    let (value, rest) = read_value(rest, Part::Condition)?;
    Ok((Sign::Atom(place, value), rest))
}

/// A sign of a formula.
#[tactic(auto, unfolding(crate::specs::Reading::sign_at))]
fn read_sign<'t>(tokens: &'t [Token], threads: usize) -> Result<(Sign<'t>, &'t [Token]), Refusal>
    ensures gives { Gives (λ x. (sign_view x.0, toks x.1.now)) result (sign_at threads (toks tokens.now)) }
    ensures shorter { IfOk result (λ x. length x.1.now < length tokens.now) }
{
    match read_short_sign(tokens) {
        Some(read) => Ok(read),
        None => read_atom(tokens, threads),
    }
}

/// Whether an operand or a `not` must come next: at the beginning, and after a connective, a `not` or `(`.
fn wants_operand(signs: &[SignAt<'_>]) -> bool {
    match signs.last() {
        None => true,
        Some(last) => matches!(last.sign, Sign::Not | Sign::And | Sign::Or | Sign::Open),
    }
}

/// Why no sign can be read here. Where a connective is wanted, no number may stand.
fn sign_refusal(signs: &[SignAt<'_>], tokens: &[Token], refusal: Refusal) -> Refusal {
    if wants_operand(signs) {
        refusal
    } else {
        refused(tokens, Part::Condition)
    }
}

/// Reads signs up to the end of the tokens. Their order is not judged here.
///
/// A refusal names the first token that cannot stand where it does, if the order of the signs before it
/// is that of a formula. A thread past the given number is refused at its number.
pub(crate) fn read_signs<'t>(
    alloc: Global,
    tokens: &'t [Token],
    threads: usize,
) -> Result<Signs<'t>, AllocError>
    ensures { IfOk result (λ signs. ReadsSigns threads signs (toks tokens.now)) }
{
    let mut signs = Vec::new(alloc);
    let mut rest = tokens;
    while !rest.is_empty() {
        match read_sign(rest, threads) {
            Ok((sign, after)) => {
                let left = rest.len();
                signs.push(SignAt { sign, left })?;
                rest = after;
            }
            Err(refusal) => {
                let refusal = Some(sign_refusal(signs.as_slice(), rest, refusal));
                return Ok(Signs { signs, refusal });
            }
        }
    }
    let refusal = None;
    Ok(Signs { signs, refusal })
}
