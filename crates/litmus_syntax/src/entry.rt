//! Initial values.

ghost use Rattle.std.specs.Prelude.{◌<◌, ◌≡◌, false, length, IfOk, map};
ghost use Rattle.text_tokens.specs.Tokens.{toks};
ghost use Rattle.litmus_syntax.specs.Grammar.{IsInitial};
ghost use Rattle.litmus_syntax.specs.Views.{PlaceView, entry_view};
ghost use Rattle.litmus_syntax.specs.Places.{has};
ghost use Rattle.litmus_syntax.specs.Exact.{Reads};
ghost use Rattle.text_tokens.specs.Steps.{Gives};
ghost use Rattle.litmus_syntax.specs.Reading.{entry_value_at};

use crate::fault::{Part, Refusal, SyntaxFault};
use crate::parts::{mark, refused, separator};
use crate::place::{Place, read_place, read_value};
use crate::seen::Seen;
use std::alloc::Global;
use text_tokens::{Mark, Token, begins};

/// An initial value.
#[derive(Clone, Copy, Debug)]
pub struct Entry<'t> {
    pub place: Place<'t>,
    pub value: u32,
    /// How many tokens are left at its first token, that one included.
    pub left: usize,
}

/// `=`, a number and the `;` after it, which may be missing before `}`.
#[tactic(auto, unfolding(crate::specs::Reading::entry_value_at))]
fn read_entry_value<'t>(tokens: &'t [Token]) -> Result<(u32, &'t [Token]), Refusal>
    ensures gives { Gives (λ x. (x.0, toks x.1.now)) result (entry_value_at (toks tokens.now)) }
    ensures shorter { IfOk result (λ x. length x.1.now < length tokens.now) }
{
    let (value, rest) = read_value(tokens, Part::Initial)?;
    let rest = separator(rest, Mark::CloseBrace, Part::Initial)?;
    Ok((value, rest))
}

/// The initial values in their braces, whose places are put into an empty set.
fn read_entries<'t>(
    alloc: Global,
    seen: &mut Seen,
    tokens: &'t [Token],
) -> Result<(Vec<Entry<'t>>, &'t [Token]), SyntaxFault>
    requires { (p : PlaceView) → has seen.old p ≡ false }
    ensures { Reads IsInitial (λ x. map entry_view x.0.items) (λ x. toks x.1.now) result (toks tokens.now) }
{
    let mut entries = Vec::new(alloc);
    let mut rest = mark(tokens, Mark::OpenBrace, Part::Header)?;
    while !begins(rest, Mark::CloseBrace) {
        let (place, after) = read_place(rest, Part::Initial)?;
        if !seen.add(alloc, place)? {
            return Err(SyntaxFault::Refused(refused(rest, Part::Initial)));
        }
        let (value, after) = read_entry_value(after)?;
        let left = rest.len();
        entries.push(Entry { place, value, left })?;
        rest = after;
    }
    let end = mark(rest, Mark::CloseBrace, Part::Initial)?;
    Ok((entries, end))
}

/// The initial values in their braces. A place that stands twice is refused at its second entry's first token.
pub fn read_initial_values<'t>(
    alloc: Global,
    tokens: &'t [Token],
) -> Result<(Vec<Entry<'t>>, &'t [Token]), SyntaxFault>
    ensures { Reads IsInitial (λ x. map entry_view x.0.items) (λ x. toks x.1.now) result (toks tokens.now) }
{
    let mut seen = Seen::new(alloc);
    read_entries(alloc, &mut seen, tokens)
}
