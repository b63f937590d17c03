//! The first word that can't stand where it does.

ghost use Rattle.std.specs.Prelude.{◌≡◌, ◌==◌, ◌-◌, ◌&&◌, length, if◌then◌else◌};
ghost use Rattle.cert_words.specs.declared.refusal.Stop.TheVariants.{Refused, OutOfMemory};

use std::alloc::{AllocError, AllocFailed};
use thiserror::Error;

/// What is wrong with a word, or with the separator in its place.
#[derive(Clone, Copy, Debug)]
pub enum Wrong {
    /// The text is not any of these at all.
    Header,
    /// It can't stand there.
    Token,
    /// A number in it has a leading zero, or is past its limit.
    Number,
    /// It begins a node that is deeper than its tree may be.
    TooDeep,
    /// It is, or counts, more than there may be.
    TooMany,
    /// The bytes end where more are needed.
    Ended,
}

/// The first word that can't stand where it does.
#[derive(Clone, Copy, Debug)]
pub struct WordRefusal {
    pub wrong: Wrong,
    /// How many bytes are left there, the word's own included.
    pub left: usize,
}

/// Something is wrong where so many bytes are left.
pub fn refused(wrong: Wrong, left: usize) -> WordRefusal
    ensures wrong { result.wrong ≡ wrong }
    ensures left { result.left ≡ left }
{
    WordRefusal { wrong, left }
}

/// Something is wrong with the word after the space with which the bytes begin.
pub fn refused_word(wrong: Wrong, bytes: &[u8]) -> WordRefusal
    ensures wrong { result.wrong ≡ wrong }
    ensures left { result.left ≡ length bytes.now - 1 }
{
    refused(wrong, bytes.len().saturating_sub(1))
}

/// What is wrong with a word that is not of its kind, with the rest after it. Where nothing follows it and it could
/// have gone on, the bytes have ended.
pub fn refused_unless_cut(wrong: Wrong, could_go_on: bool, bytes: &[u8], rest: &[u8]) -> WordRefusal
    ensures wrong { result.wrong ≡ (if length rest.now == 0 && could_go_on then Wrong.Ended else wrong) }
    ensures left { result.left ≡ (if length rest.now == 0 && could_go_on then 0 else length bytes.now - 1) }
{
    if rest.is_empty() && could_go_on {
        refused(Wrong::Ended, 0)
    } else {
        refused_word(wrong, bytes)
    }
}

/// Why reading stopped.
#[derive(Clone, Copy, Debug, Error)]
pub enum Stop {
    #[error("the text is refused: {0:?}")]
    Refused(WordRefusal),
    #[error("out of memory")]
    OutOfMemory,
}

impl From<WordRefusal> for Stop {
    ghost from_gives = { λ r e. e ≡ Refused r };

    fn from(refusal: WordRefusal) -> Stop {
        Stop::Refused(refusal)
    }
}

impl From<AllocError> for Stop {
    ghost from_gives = { λ _ e. e ≡ OutOfMemory };

    fn from(_e: AllocError) -> Stop {
        Stop::OutOfMemory
    }
}

impl<T: Drop> From<AllocFailed<T>> for Stop {
    ghost from_gives = { λ _ e. e ≡ OutOfMemory };

    fn from(_e: AllocFailed<T>) -> Stop {
        Stop::OutOfMemory
    }
}
