//! Locations whose name stands once in a text and is close to another one, as one that is misspelt.

use litmus_lines::bytes_from;
use litmus_reader::{NameTable, location_name};
use messages::{Message, Source, shown_word, word_at};
use std::alloc::{AllocError, Global};
use text_tokens::is_word_byte;

/// The fewest bytes of the longer one of two names that are close: short names are close to each other by chance.
const LONGER: usize = 3;

/// That the name of a location stands once in a litmus text and is close to another location's, with the first such
/// name, by the names of the text as it is read. `None` if there is none.
pub(crate) fn near_name_of(
    alloc: Global,
    source: Source<'_>,
    names: &NameTable,
) -> Result<Option<Message>, AllocError> {
    for number in 0..names.locations() {
        let name = location_name(names, number);
        if let (Some(near), Some(offset)) = (
            near_name(names, name),
            only_place(source.text, name),
        ) {
            let near = shown_word(alloc, near)?;
            let said = format!(in alloc;
                "is a location that stands nowhere else: did you mean {near}?"
            )?;
            return Ok(Some(Message::at_word(alloc, source, offset, name, said.as_str())?));
        }
    }
    Ok(None)
}

/// The first location's name that is close to this one.
pub(crate) fn near_name<'t>(names: &'t NameTable, name: &[u8]) -> Option<&'t [u8]> {
    for number in 0..names.locations() {
        let other = location_name(names, number);
        if are_near(name, other) {
            return Some(other);
        }
    }
    None
}

/// Where a word begins that stands once in a text.
fn only_place(text: &[u8], name: &[u8]) -> Option<usize> {
    let mut place = None;
    let mut begins = true;
    for (offset, byte) in text.iter().enumerate() {
        if begins && word_at(bytes_from(text, offset)) == name {
            if place.is_some() {
                return None;
            }
            place = Some(offset);
        }
        begins = !is_word_byte(*byte);
    }
    place
}

/// Whether one letter of a name is changed, dropped or added in the other, or two that follow each other are swapped.
fn are_near(name: &[u8], other: &[u8]) -> bool {
    let pairs = name.iter().zip(other.iter());
    let same = pairs.take_while(|pair| pair.0 == pair.1).count();
    let name_rest = bytes_from(name, same);
    let other_rest = bytes_from(other, same);
    name.len().max(other.len()) >= LONGER && are_rests_near(name_rest, other_rest)
}

/// Whether what follows the bytes with which both names begin differs so.
fn are_rests_near(name: &[u8], other: &[u8]) -> bool {
    let name_letter = begins_with_letter(name);
    let other_letter = begins_with_letter(other);
    let name_rest = bytes_from(name, 1);
    let other_rest = bytes_from(other, 1);
    (name_letter && name_rest == other)
        || (other_letter && other_rest == name)
        || (name_letter && other_letter && (name_rest == other_rest || are_swapped(name, other)))
}

fn begins_with_letter(name: &[u8]) -> bool {
    name.iter().take(1).any(|byte| byte.is_ascii_alphabetic())
}

/// Whether the first two bytes are swapped, and all later ones are the same.
fn are_swapped(name: &[u8], other: &[u8]) -> bool {
    name.get(0) == other.get(1)
        && name.get(1) == other.get(0)
        && bytes_from(name, 2) == bytes_from(other, 2)
}
