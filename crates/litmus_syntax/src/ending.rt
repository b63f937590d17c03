//! What follows the rows.

ghost use Rattle.std.specs.Prelude.{◌<◌, ◌≡◌, length, IfOk};
ghost use Rattle.text_tokens.specs.Tokens.{toks};
ghost use Rattle.litmus_syntax.specs.Exact.{ReadsEnding};
ghost use Rattle.text_tokens.specs.Steps.{Gives};
ghost use Rattle.litmus_syntax.specs.Reading.{quantifier_at};

use crate::fault::{Part, Refusal, SyntaxFault};
use crate::formula::{Signs, read_signs};
use crate::observed::read_observed;
use crate::parts::{begins_word, keyword, mark};
use crate::place::Place;
use conditions::Quantifier;
use std::alloc::Global;
use text_tokens::{Mark, Token, begins};

/// What follows the rows. Names are borrowed from the tokens.
#[derive(Drop)]
pub struct Ending<'t> {
    /// The places behind `locations`, in order, repetitions included.
    pub observed: Vec<Place<'t>>,
    pub quantifier: Quantifier,
    pub signs: Signs<'t>,
}

/// `exists`, `~exists` or `forall`.
#[tactic(auto, unfolding(crate::specs::Reading::quantifier_at))]
fn read_quantifier(tokens: &[Token]) -> Result<(Quantifier, &[Token]), Refusal>
    ensures { Gives (λ x. (x.0, toks x.1.now)) result (quantifier_at (toks tokens.now)) }
{
    if begins(tokens, Mark::Tilde) {
        let rest = mark(tokens, Mark::Tilde, Part::Condition)?;
        let rest = keyword(rest, b"exists", Part::Condition)?;
        return Ok((Quantifier::NotExists, rest));
    }
    if begins_word(tokens, b"forall") {
        let rest = keyword(tokens, b"forall", Part::Condition)?;
        return Ok((Quantifier::Forall, rest));
    }
    let rest = keyword(tokens, b"exists", Part::Condition)?;
    Ok((Quantifier::Exists, rest))
}

/// Reads what follows the rows: the observed places, the quantifier, and the signs of the condition up to
/// the end of the tokens. The order of the signs is not judged here.
///
/// A refusal names the first token that cannot stand where it does, if the order of the signs before it is that
/// of a formula; one among the signs stands in `Signs`, after the signs that were read. A thread past the given
/// number is refused at its number.
pub fn read_ending<'t>(
    alloc: Global,
    tokens: &'t [Token],
    threads: usize,
) -> Result<Ending<'t>, SyntaxFault>
    ensures { ReadsEnding threads result (toks tokens.now) }
{
    let (observed, rest) = read_observed(alloc, tokens, threads)?;
    let (quantifier, rest) = read_quantifier(rest)?;
    let signs = read_signs(alloc, rest, threads)?;
    Ok(Ending {
        observed,
        quantifier,
        signs,
    })
}
