//! Why bytes are no certificate's text.

ghost use Rattle.std.specs.Prelude.{◌≡◌, ℕ};
ghost use Rattle.cert_forest.specs.declared.fault.CertFault.TheVariants.{Trailing};

use cert_words::{WordRefusal, Wrong};
use thiserror::Error;

/// Why bytes are no certificate's text: the first fault from left to right. A place is a byte's offset, from 0.
#[derive(Clone, Copy, Debug, Error)]
pub enum CertFault {
    /// The first line can't become `FENCECERT 1`, `FENCECERT 2` or `FENCECERT 4`.
    #[error("the first line is neither `FENCECERT 1` nor `FENCECERT 2` nor `FENCECERT 4`")]
    Header,
    /// The token or the separator at this byte offset, from 0, can't stand there, or is no token. A gap, or a register or
    /// location that is shown, can't stand after one that isn't less.
    #[error("what is at byte {0} can't stand there")]
    Token(usize),
    /// A number in the token at this byte offset, from 0, has a leading zero, or is past its limit.
    #[error("the number at byte {0} has a leading zero or is past its limit")]
    Number(usize),
    /// The node that begins at this byte offset, from 0, is deeper than its tree may be.
    #[error("the node at byte {0} is deeper than its tree may be")]
    TooDeep(usize),
    /// A count of children, events or a bound's runs past `MAX_COUNT` of `cert_words`, or one label more than that in a run, at this
    /// byte offset, from 0.
    #[error("at byte {0} there are more children, accesses, runs or labels than there may be")]
    TooMany(usize),
    /// The bytes end where more are needed, and some certificate's text goes on after them, as far as single tokens
    /// show.
    #[error("the text ends and more is needed")]
    Ended,
    /// Bytes follow the last line, from this byte offset on, from 0.
    #[error("bytes follow the last line, from byte {0} on")]
    Trailing(usize),
    #[error("out of memory")]
    OutOfMemory,
}

/// The fault that reports a refusal in a text of so many bytes.
pub(crate) fn fault_of(refusal: WordRefusal, len: usize) -> CertFault
    ensures { (place : ℕ) → result ≡ Trailing place → ⊥ }
{
    let place = len.saturating_sub(refusal.left);
    match refusal.wrong {
        Wrong::Header => CertFault::Header,
        Wrong::Token => CertFault::Token(place),
        Wrong::Number => CertFault::Number(place),
        Wrong::TooDeep => CertFault::TooDeep(place),
        Wrong::TooMany => CertFault::TooMany(place),
        Wrong::Ended => CertFault::Ended,
    }
}
