//! Labels.

ghost use Rattle.std.specs.Prelude.{◌<◌, ◌≡◌, [], length, map, IfOk, MatchOption};
ghost use Rattle.text_tokens.specs.Tokens.{toks};
ghost use Rattle.litmus_syntax.specs.Words.{is_label};
ghost use Rattle.litmus_syntax.specs.Views.{label_view};
ghost use Rattle.litmus_syntax.specs.Grammar.{NoneTwice};
ghost use Rattle.text_tokens.specs.Steps.{Gives};
ghost use Rattle.litmus_syntax.specs.Reading.{begins_label, label_tokens_at};

use crate::fault::{Part, Refusal};
use crate::parts::{mark, refused, word};
use crate::place::{joins_formula, opens_condition};
use indexmap::IndexSet;
use std::alloc::{AllocError, Global};
use text_tokens::{Mark, Token, begins};

/// A label of a thread, and where it stands.
#[derive(Clone, Copy)]
pub(crate) struct LabelAt<'t> {
    pub thread: usize,
    pub name: &'t [u8],
    /// How many tokens are left at its word, that one included.
    pub left: usize,
}

/// Whether a label may have this name.
#[tactic(auto, unfolding(crate::specs::Words::is_label))]
fn is_label(word: &[u8]) -> bool
    ensures { result ≡ is_label word.now }
{
    !opens_condition(word) && !joins_formula(word)
}

/// Whether a word and `:` come first.
pub(crate) fn begins_label(tokens: &[Token]) -> bool
    ensures { result ≡ begins_label (toks tokens.now) }
{
    match text_tokens::word(tokens) {
        Some((_, rest)) => begins(rest, Mark::Colon),
        None => false,
    }
}

/// A label's word and its `:`.
#[tactic(auto, unfolding(crate::specs::Reading::label_tokens_at))]
pub(crate) fn read_label<'t>(tokens: &'t [Token]) -> Result<(&'t [u8], &'t [Token]), Refusal>
    ensures gives { Gives (λ x. (x.0.now, toks x.1.now)) result (label_tokens_at (toks tokens.now)) }
    ensures shorter { IfOk result (λ x. length x.1.now < length tokens.now) }
{
    let (name, rest) = word(tokens, Part::Label)?;
    if !is_label(name) {
        return Err(refused(tokens, Part::Label));
    }
    let rest = mark(rest, Mark::Colon, Part::Label)?;
    Ok((name, rest))
}

/// The tokens left at the first label that stands in its thread already. The labels before it are put into an empty set.
fn first_repeated(
    alloc: Global,
    seen: &mut IndexSet<(usize, Vec<u8>)>,
    labels: &[LabelAt<'_>],
) -> Result<Option<usize>, AllocError>
    requires { seen.old.keys ≡ [] }
    ensures { IfOk result (λ repeated. MatchOption repeated (NoneTwice (map label_view labels.now)) (λ left. NoneTwice (map label_view labels.now) → ⊥)) }
{
    for label in labels {
        let name = Vec::from_slice(alloc, label.name)?;
        if !seen.insert((label.thread, name))? {
            return Ok(Some(label.left));
        }
    }
    Ok(None)
}

/// The tokens left at the first label that stands in its thread already.
pub(crate) fn repeated(alloc: Global, labels: &[LabelAt<'_>]) -> Result<Option<usize>, AllocError>
    ensures { IfOk result (λ repeated. MatchOption repeated (NoneTwice (map label_view labels.now)) (λ left. NoneTwice (map label_view labels.now) → ⊥)) }
{
    let mut seen = IndexSet::new(alloc);
    first_repeated(alloc, &mut seen, labels)
}
