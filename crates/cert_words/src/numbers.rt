//! Numbers, without leading zeros.

ghost use Rattle.std.specs.Prelude.{◌≡◌, ◌≤◌, ◌∷◌, [], IfOk, IfSome};
ghost use Rattle.text_tokens.specs.Numbers.{plain_number_at};
ghost use Rattle.text_tokens.specs.Steps.{Gives};
ghost use Rattle.cert_words.specs.Words.{number_within_at, count_at};

use crate::refusal::{WordRefusal, Wrong, refused_unless_cut, refused_word};
use crate::words::{short_word, word};
use text_tokens::{are_digits, plain_number};

/// How many children, events or labels there are at most.
pub const MAX_COUNT: u64 = 1024;

/// The number of one digit that is written so, if it is at most the limit.
pub fn digit_within(limit: u64, byte: u8) -> Option<u64>
    ensures value { IfSome result (λ n. plain_number_at limit (byte ∷ []) ≡ Some n) }
    ensures within { IfSome result (λ n. n ≤ limit) }
{
    if byte.is_ascii_digit() && u64::from(byte - b'0') <= limit {
        Some(u64::from(byte - b'0'))
    } else {
        None
    }
}

/// A space, and a number up to the limit.
#[tactic(auto, unfolding(crate::specs::Words::number_within_at))]
pub fn number(limit: u64, bytes: &[u8]) -> Result<(u64, &[u8]), WordRefusal>
    ensures gives { Gives (λ x. (x.0, x.1.now)) result (number_within_at limit bytes.now) }
    ensures within { IfOk result (λ x. x.0 ≤ limit) }
{
    if let Some((byte, rest)) = short_word(bytes) {
        if let Some(digit) = digit_within(limit, byte) {
            return Ok((digit, rest));
        }
    }
    let (word, rest) = word(bytes)?;
    match plain_number(limit, word) {
        Some(number) => Ok((number, rest)),
        None => {
            if !word.is_empty() && are_digits(word) {
                Err(refused_word(Wrong::Number, bytes))
            } else {
                Err(refused_unless_cut(Wrong::Token, word.is_empty(), bytes, rest))
            }
        }
    }
}

/// A space, and a number of children or events.
#[tactic(auto, unfolding(crate::specs::Words::count_at))]
pub fn count(bytes: &[u8]) -> Result<(u64, &[u8]), WordRefusal>
    ensures { Gives (λ x. (x.0, x.1.now)) result (count_at bytes.now) }
{
    let (count, rest) = number(u64::MAX, bytes)?;
    if count > MAX_COUNT {
        Err(refused_word(Wrong::TooMany, bytes))
    } else {
        Ok((count, rest))
    }
}
