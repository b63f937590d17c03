//! The words of a line.

ghost use Rattle.std.specs.Prelude.{◌≡◌, ◌==◌, IfOk, IfErr, IsUtf8, map, string_bytes};
ghost use Rattle.std.specs.List.{slice_split};
ghost use Rattle.program_streams.specs.Words.{words_of, HasNoUtf8};
ghost use Rattle.program_streams.specs.declared.words.WordsFault.TheVariants.{NotUtf8, OutOfMemory};

use std::alloc::{AllocError, AllocFailed, Global};

/// Why a line gives no words.
#[derive(Clone, Copy)]
pub enum WordsFault {
    NotUtf8,
    OutOfMemory,
}

impl From<AllocError> for WordsFault {
    ghost from_gives = { λ _ e. e ≡ OutOfMemory };

    fn from(_e: AllocError) -> WordsFault {
        WordsFault::OutOfMemory
    }
}

impl<T: Drop> From<AllocFailed<T>> for WordsFault {
    ghost from_gives = { λ _ e. e ≡ OutOfMemory };

    fn from(_e: AllocFailed<T>) -> WordsFault {
        WordsFault::OutOfMemory
    }
}

/// The words of a line, which spaces separate.
pub fn line_words(alloc: Global, line: &[u8]) -> Result<Vec<String>, WordsFault>
    ensures words { IfOk result (λ words. map string_bytes words.items ≡ words_of line.now) }
    ensures refused { IfErr result (λ fault. fault ≡ NotUtf8 → HasNoUtf8 (words_of line.now)) }
{
    let parts = parts_of(alloc, line)?;
    let mut words = Vec::new(alloc);
    for part in &parts {
        if !part.is_empty() {
            words.push(word_of(alloc, part)?)?;
        }
    }
    Ok(words)
}

/// The parts between spaces, empty ones too.
fn parts_of(alloc: Global, line: &[u8]) -> Result<Vec<&[u8]>, AllocError>
    ensures { IfOk result (λ parts. map (λ part. part.now) parts.items ≡ slice_split (λ byte. byte == 32) line.now) }
{
    line.split(|byte| *byte == b' ').collect(alloc)
}

fn word_of(alloc: Global, part: &[u8]) -> Result<String, WordsFault>
    ensures word { IfOk result (λ word. string_bytes word ≡ part.now) }
    ensures refused { IfErr result (λ fault. fault ≡ NotUtf8 → IsUtf8 part.now → ⊥) }
{
    match String::from_utf8(Vec::from_slice(alloc, part)?) {
        Ok(word) => Ok(word),
        Err(_) => Err(WordsFault::NotUtf8),
    }
}
