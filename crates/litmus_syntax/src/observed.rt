//! The places that a text asks to be shown.

ghost use Rattle.std.specs.Prelude.{◌<◌, ◌≡◌, length, IfOk, map};
ghost use Rattle.text_tokens.specs.Tokens.{toks};
ghost use Rattle.litmus_syntax.specs.Grammar.{IsObserved};
ghost use Rattle.litmus_syntax.specs.Views.{place_view};
ghost use Rattle.litmus_syntax.specs.Exact.{Reads};
ghost use Rattle.text_tokens.specs.Steps.{Gives};
ghost use Rattle.litmus_syntax.specs.Reading.{observed_begin_at, observed_item_at};

use crate::fault::{Part, Refusal, SyntaxFault};
use crate::parts::{begins_word, keyword, mark, separator};
use crate::place::{Place, read_place_among};
use std::alloc::Global;
use text_tokens::{Mark, Token, begins};

/// `locations [`
#[tactic(auto, unfolding(crate::specs::Reading::observed_begin_at))]
fn read_observed_begin(tokens: &[Token]) -> Result<&[Token], Refusal>
    ensures { Gives (λ rest. toks rest.now) result (observed_begin_at (toks tokens.now)) }
{
    let rest = keyword(tokens, b"locations", Part::Condition)?;
    mark(rest, Mark::OpenBracket, Part::Condition)
}

/// A place and the `;` after it, which may be missing before `]`.
#[tactic(auto, unfolding(crate::specs::Reading::observed_item_at))]
fn read_observed_item<'t>(
    tokens: &'t [Token],
    threads: usize,
) -> Result<(Place<'t>, &'t [Token]), Refusal>
    ensures gives { Gives (λ x. (place_view x.0, toks x.1.now)) result (observed_item_at threads (toks tokens.now)) }
    ensures shorter { IfOk result (λ x. length x.1.now < length tokens.now) }
{
    let (place, rest) = read_place_among(tokens, threads)?;
    let rest = separator(rest, Mark::CloseBracket, Part::Condition)?;
    Ok((place, rest))
}

/// The places behind `locations`, in order; none where that word does not come next.
pub(crate) fn read_observed<'t>(
    alloc: Global,
    tokens: &'t [Token],
    threads: usize,
) -> Result<(Vec<Place<'t>>, &'t [Token]), SyntaxFault>
    ensures { Reads (IsObserved threads) (λ x. map place_view x.0.items) (λ x. toks x.1.now) result (toks tokens.now) }
{
    let mut places = Vec::new(alloc);
    if !begins_word(tokens, b"locations") {
        return Ok((places, tokens));
    }
    let mut rest = read_observed_begin(tokens)?;
    while !begins(rest, Mark::CloseBracket) {
        let (place, after) = read_observed_item(rest, threads)?;
        places.push(place)?;
        rest = after;
    }
    let end = mark(rest, Mark::CloseBracket, Part::Condition)?;
    Ok((places, end))
}
