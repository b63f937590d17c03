//! The values of `--fences` and of `--same`.

ghost use Rattle.std.specs.Prelude.{◌≡◌, ◌≤◌, ℕ, List, IfNone, IfOk, IfSome, Some, codes, map};
ghost use Rattle.std.specs.List.{IsDistinct, list_any};
ghost use Rattle.std.specs.Fmt.{decimal};
ghost use Rattle.clap.specs.Words.{first_of, found_of, rows_of};
ghost use Rattle.fencer_words.specs.CommandLines.{LacksPlaces};
ghost use Rattle.fencer_words.specs.Places.{AreGivenPlaces, Place, pieces as pieces_of, place_numbers, is_same_place, ArePlaceTexts, AreThreadTexts, IsPlaceText, ListsNoPlaces, ListsNoThreads, ListsPlaces, ListsThreads};

use crate::arguments::value_of;
use clap::ArgMatches;
use std::alloc::{AllocError, Global};
use text_tokens::plain_number_up_to;

/// The pieces of a text between which this byte stands.
fn pieces(alloc: Global, text: &[u8], mark: u8) -> Result<Vec<&[u8]>, AllocError>
    ensures { IfOk result (λ pieces. map (λ piece. piece.now) pieces.items ≡ pieces_of mark text.now) }
{
    text.split(|byte| *byte == mark).collect(alloc)
}

/// A number up to 255, without leading zeros.
fn number(text: &[u8]) -> Option<u8>
    ensures found { IfSome result (λ n. (n ≤ 255) × (text.now ≡ decimal n)) }
    ensures only { (n : ℕ) → n ≤ 255 → text.now ≡ decimal n → result ≡ Some n }
{
    let number = plain_number_up_to(255, text)?;
    Some(number as u8)
}

/// The place of two numbers.
fn place_in(parts: &[&[u8]]) -> Option<(u8, u8)>
    ensures some { IfSome result (λ place. (place.0 ≤ 255) × (place.1 ≤ 255) × (map (λ part. part.now) parts.now ≡ place_numbers place)) }
    ensures none { IfNone result ((place : Place) → place.0 ≤ 255 → place.1 ≤ 255 → map (λ part. part.now) parts.now ≡ place_numbers place → ⊥) }
{
    match parts {
        [thread, instruction] => Some((number(thread)?, number(instruction)?)),
        _ => None,
    }
}

/// The place of a gap: two numbers with a colon between them.
fn place_of(alloc: Global, text: &[u8]) -> Result<Option<(u8, u8)>, AllocError>
    ensures some { IfOk result (λ place. IfSome place (IsPlaceText text.now)) }
    ensures none { IfOk result (λ place. IfNone place ((place : Place) → IsPlaceText text.now place → ⊥)) }
{
    let parts = pieces(alloc, text, b':')?;
    Ok(place_in(parts.as_slice()))
}

/// Whether a place is among others.
fn is_among(places: &[(u8, u8)], place: (u8, u8)) -> bool
    ensures { result ≡ list_any (is_same_place place) places.now }
{
    places
        .iter()
        .any(|other| place.0 == other.0 && place.1 == other.1)
}

/// The place of each text. `None` where one has none, or has that of another.
fn places_in(alloc: Global, texts: &[&[u8]]) -> Result<Option<Vec<(u8, u8)>>, AllocError>
    ensures some { IfOk result (λ places. IfSome places (λ places. ArePlaceTexts (map (λ text. text.now) texts.now) places.items × IsDistinct is_same_place places.items)) }
    ensures none { IfOk result (λ places. IfNone places ((places : List Place) → ArePlaceTexts (map (λ text. text.now) texts.now) places → IsDistinct is_same_place places → ⊥)) }
{
    let mut places = Vec::new(alloc);
    for text in texts {
        match place_of(alloc, text)? {
            Some(place) => {
                if is_among(places.as_slice(), place) {
                    return Ok(None);
                }
                places.push(place)?;
            }
            None => return Ok(None),
        }
    }
    Ok(Some(places))
}

/// The number in each text. `None` where one has none.
fn threads_in(alloc: Global, texts: &[&[u8]]) -> Result<Option<Vec<u8>>, AllocError>
    ensures some { IfOk result (λ threads. IfSome threads (λ threads. AreThreadTexts (map (λ text. text.now) texts.now) threads.items)) }
    ensures none { IfOk result (λ threads. IfNone threads ((threads : List ℕ) → AreThreadTexts (map (λ text. text.now) texts.now) threads → ⊥)) }
{
    let mut threads = Vec::new(alloc);
    for text in texts {
        match number(text) {
            Some(thread) => threads.push(thread)?,
            None => return Ok(None),
        }
    }
    Ok(Some(threads))
}

/// The numbers of threads, with commas between them. `None` where the text is no such list.
pub fn threads_of(alloc: Global, text: &[u8]) -> Result<Option<Vec<u8>>, AllocError>
    ensures some { IfOk result (λ threads. IfSome threads (λ threads. ListsThreads text.now threads.items)) }
    ensures none { IfOk result (λ threads. IfNone threads (ListsNoThreads text.now)) }
{
    let texts = pieces(alloc, text, b',')?;
    threads_in(alloc, texts.as_slice())
}

/// The places of gaps, with commas between them. `None` where the text is no such list, or has a place twice.
fn places_of(alloc: Global, text: &[u8]) -> Result<Option<Vec<(u8, u8)>>, AllocError>
    ensures some { IfOk result (λ places. IfSome places (λ places. ListsPlaces text.now places.items)) }
    ensures none { IfOk result (λ places. IfNone places (ListsNoPlaces text.now)) }
{
    let texts = pieces(alloc, text, b',')?;
    places_in(alloc, texts.as_slice())
}

/// The places of the gaps to be fenced. `None` where the value is no list of places.
pub fn fences_in(
    alloc: Global,
    matches: &ArgMatches<'_>,
) -> Result<Option<Vec<(u8, u8)>>, AllocError>
    ensures some { IfOk result (λ places. IfSome places (λ places. AreGivenPlaces (first_of (codes "fences") (rows_of (found_of matches.now))) places.items)) }
    ensures none { IfOk result (λ places. IfNone places (LacksPlaces (rows_of (found_of matches.now)))) }
{
    match value_of(matches, "fences") {
        Some(text) => places_of(alloc, text.as_bytes()),
        None => Ok(Some(Vec::new(alloc))),
    }
}
