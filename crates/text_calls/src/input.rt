//! The parts of the input.
ghost use Rattle.std.specs.Prelude.{◌<◌, IfOk, length};

use crate::refusal::TextRefusal;
use gap_sets::{GapSet, MAX_GAPS};
use std::alloc::{AllocError, Global};
use text_tokens::plain_number_up_to;

/// What stands before the first line feed, and what stands after it.
pub fn split_line(bytes: &[u8]) -> (&[u8], &[u8]) {
    split_at_byte(bytes, b'\n')
}

/// What stands before the first such byte, and what stands after it.
pub fn split_at_byte(bytes: &[u8], byte: u8) -> (&[u8], &[u8]) {
    match bytes.iter().position(|other| *other == byte) {
        Some(end) => {
            let (line, rest) = bytes.split_at(end);
            (line, rest.split_at(1).1)
        }
        None => (bytes, b""),
    }
}

/// The words of a line.
pub fn words_of(alloc: Global, line: &[u8]) -> Result<Vec<&[u8]>, AllocError> {
    parts_of(alloc, line, b' ')
}

/// What stands between such bytes.
pub fn parts_of(alloc: Global, word: &[u8], byte: u8) -> Result<Vec<&[u8]>, AllocError> {
    word.split(|other| *other == byte).collect(alloc)
}

/// What a table has for a name.
pub fn named<T: Copy>(table: &[(&[u8], T)], name: &[u8]) -> Result<T, TextRefusal> {
    for (word, it) in table {
        if *word == name {
            return Ok(*it);
        }
    }
    Err(TextRefusal::Call)
}

/// The word with this index.
pub fn word_at<'w>(words: &[&'w [u8]], index: usize) -> Result<&'w [u8], TextRefusal> {
    words.get(index).copied().ok_or(TextRefusal::Call)
}

/// Which word is `then`.
pub fn place_of_then(words: &[&[u8]]) -> Result<usize, TextRefusal>
    ensures { IfOk result (λ place. place < length words.now) }
{
    for (place, word) in words.iter().enumerate() {
        if *word == b"then".as_slice() {
            return Ok(place);
        }
    }
    Err(TextRefusal::Call)
}

/// The number that a word spells.
pub fn number_of(word: &[u8]) -> Result<u32, TextRefusal> {
    plain_number_up_to(u32::MAX, word).ok_or(TextRefusal::Call)
}

/// The number up to 255 that a word spells.
pub fn byte_of(word: &[u8]) -> Result<u8, TextRefusal> {
    u8::try_from(number_of(word)?).map_err(|_| TextRefusal::Call)
}

/// The number up to 255 of the word with this index.
pub fn byte_at(words: &[&[u8]], index: usize) -> Result<u8, TextRefusal> {
    byte_of(word_at(words, index)?)
}

/// The numbers of a word, separated by commas; `-` has none.
pub fn numbers_of(alloc: Global, word: &[u8]) -> Result<Vec<u32>, TextRefusal> {
    let mut numbers = Vec::new(alloc);
    if word == b"-".as_slice() {
        return Ok(numbers);
    }
    for part in word.split(|byte| *byte == b',') {
        numbers.push(number_of(part)?)?;
    }
    Ok(numbers)
}

/// The set of the gaps below `MAX_GAPS` whose numbers a word has.
pub fn gap_set_of(alloc: Global, word: &[u8]) -> Result<GapSet, TextRefusal> {
    let mut gaps = GapSet::empty();
    for number in &numbers_of(alloc, word)? {
        let gap = u8::try_from(*number).unwrap_or(u8::MAX);
        if gap < MAX_GAPS {
            gaps = gaps.with(gap);
        }
    }
    Ok(gaps)
}

/// The set of the gaps of the word with this index.
pub fn gap_set_at(alloc: Global, words: &[&[u8]], index: usize) -> Result<GapSet, TextRefusal> {
    gap_set_of(alloc, word_at(words, index)?)
}

/// Puts ASCII bytes at the end of a text.
pub fn push_bytes(printed: &mut String, bytes: &[u8]) -> Result<(), AllocError> {
    for byte in bytes {
        printed.push(char::from(*byte))?;
    }
    Ok(())
}
