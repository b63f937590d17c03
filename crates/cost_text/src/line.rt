//! What a line of a cost file says.
ghost use Rattle.std.specs.Prelude.{◌≡◌, ◌<◌, List, option_map, length, IfNone, IfSome, IsTrue};
ghost use Rattle.std.specs.List.{list_all};
ghost use Rattle.std.specs.Char.{is_ascii_digit};
ghost use Rattle.cost_text.specs.Internal.LineReading.{digits_at, after_colon, after_blanks, after_line_spaces, place_at, AreAllDigits, LineDigits, PlaceDigits, ReadsLine, ReadsPlaces};
ghost use Rattle.cost_text.specs.Internal.TextReading.{digits_of, IsLineOf};

use text_tokens::{are_line_spaces, blanks_len, digits_len, line_spaces_len};

/// What a line says: the text from its places on, and the digits of what they cost.
#[derive(Clone, Copy)]
pub(crate) struct CostLine<'a> {
    pub(crate) places: &'a [u8],
    pub(crate) cost: &'a [u8],
}

/// The digits of a place: the gap before this instruction of this thread.
#[derive(Clone, Copy)]
pub(crate) struct PlaceText<'a> {
    pub(crate) thread: &'a [u8],
    pub(crate) instruction: &'a [u8],
}

/// The digits that come first, at least one, and what follows them.
#[tactic(auto, unfolding(crate::specs::Internal::LineReading::digits_at))]
fn digits_at(bytes: &[u8]) -> Option<(&[u8], &[u8])>
    ensures value { option_map (λ p. (p.0.now, p.1.now)) result ≡ digits_at bytes.now }
    ensures digits { IfSome result (λ p. IsTrue (list_all is_ascii_digit p.0.now)) }
{
    let len = digits_len(bytes);
    if len > 0 {
        Some(bytes.split_at(len))
    } else {
        None
    }
}

/// What follows a `:`.
#[tactic(auto, unfolding(crate::specs::Internal::LineReading::after_colon))]
fn after_colon(bytes: &[u8]) -> Option<&[u8]>
    ensures { option_map (λ rest. rest.now) result ≡ after_colon bytes.now }
{
    match bytes {
        [b':', rest @ ..] => Some(rest),
        _ => None,
    }
}

/// What follows blanks, of which there is at least one.
#[tactic(auto, unfolding(crate::specs::Internal::LineReading::after_blanks))]
fn after_blanks(bytes: &[u8]) -> Option<&[u8]>
    ensures { option_map (λ rest. rest.now) result ≡ after_blanks bytes.now }
{
    let len = blanks_len(bytes);
    if len > 0 {
        Some(bytes.split_at(len).1)
    } else {
        None
    }
}

/// What follows the blanks and CRs in front.
fn after_line_spaces(bytes: &[u8]) -> &[u8]
    ensures { result.now ≡ after_line_spaces bytes.now }
{
    bytes.split_at(line_spaces_len(bytes)).1
}

/// The place that comes first, and what follows its blanks.
#[tactic(auto, unfolding(crate::specs::Internal::LineReading::place_at))]
pub(crate) fn place_at(bytes: &[u8]) -> Option<(PlaceText<'_>, &[u8])>
    ensures value { option_map (λ p. (digits_of p.0, p.1.now)) result ≡ place_at bytes.now }
    ensures digits { IfSome result (λ p. AreAllDigits (digits_of p.0)) }
    ensures shorter { IfSome result (λ p. length p.1.now < length bytes.now) }
{
    let (thread, rest) = digits_at(bytes)?;
    let (instruction, rest) = digits_at(after_colon(rest)?)?;
    let rest = after_blanks(rest)?;
    let place = PlaceText {
        thread,
        instruction,
    };
    Some((place, rest))
}

/// What follows the places that come first.
fn after_places(bytes: &[u8]) -> &[u8]
    ensures { (places : List PlaceDigits) × ReadsPlaces bytes.now places result.now }
{
    let mut rest = bytes;
    while let Some((_, after)) = place_at(rest) {
        rest = after;
    }
    rest
}

/// What a line says; nothing if it is not places `t:k` with blanks after each, and a cost, with blanks and CRs around.
pub(crate) fn cost_line(line: &[u8]) -> Option<CostLine<'_>>
    ensures read { IfSome result (IsLineOf line.now) }
    ensures digits { IfSome result (λ said. IsTrue (list_all is_ascii_digit said.cost.now)) }
    ensures none { IfNone result ((digits : LineDigits) → ReadsLine line.now digits → ⊥) }
{
    let places = after_line_spaces(line);
    let (_, others) = place_at(places)?;
    let (cost, rest) = digits_at(after_places(others))?;
    if are_line_spaces(rest) {
        Some(CostLine { places, cost })
    } else {
        None
    }
}
