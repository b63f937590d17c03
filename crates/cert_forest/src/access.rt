//! Names of accesses, `t.i`.

ghost use Rattle.std.specs.Prelude.{◌≡◌, ◌≤◌, length, IfSome};
ghost use Rattle.std.specs.List.{prefix_len};
ghost use Rattle.text_tokens.specs.Steps.{Gives};
ghost use Rattle.cert_forest.specs.Internal.Reading.{is_no_stop, access_tail, access_of, access_at};

use cert_trees::AccessId;
use cert_words::{WordRefusal, Wrong, digit_within, ends_word, refused_unless_cut, word};
use text_tokens::{are_digits, plain_number};

/// How many bytes stand before a full stop.
pub(crate) fn stop_len(bytes: &[u8]) -> usize
    ensures value { result ≡ prefix_len is_no_stop bytes.now }
    ensures within { result ≤ length bytes.now }
{
    bytes.iter().take_while(|byte| !(**byte == b'.')).count()
}

/// A full stop and the access's number.
fn access_tail(thread: u8, bytes: &[u8]) -> Option<AccessId>
    ensures { result ≡ access_tail thread bytes.now }
{
    let (_, digits) = bytes.split_first()?;
    let access = plain_number(255, digits)?;
    Some(AccessId {
        thread,
        access: access as u8,
    })
}

/// The access whose name is written so.
#[tactic(auto, unfolding(crate::specs::Internal::Reading::access_of))]
fn access_of(word: &[u8]) -> Option<AccessId>
    ensures { result ≡ access_of word.now }
{
    let (digits, tail) = word.split_at(stop_len(word));
    let thread = plain_number(255, digits)?;
    access_tail(thread as u8, tail)
}

/// Whether a number up to 255 is written so, or nothing is.
fn is_short_or_none(digits: &[u8]) -> bool {
    digits.is_empty() || plain_number(255, digits).is_some()
}

/// What is wrong with a word that names no access, and whether it could have gone on.
fn fault_of(word: &[u8]) -> (Wrong, bool) {
    let (thread, tail) = word.split_at(stop_len(word));
    match tail.split_first() {
        None => (Wrong::Token, is_short_or_none(thread)),
        Some((_, access)) => {
            let shaped = !thread.is_empty() && are_digits(thread) && are_digits(access);
            let wrong = if shaped && !access.is_empty() {
                Wrong::Number
            } else {
                Wrong::Token
            };
            (
                wrong,
                shaped && is_short_or_none(thread) && is_short_or_none(access),
            )
        }
    }
}

/// The name of an access after a space, where its two numbers have one digit each, and the bytes after it.
fn short_access(bytes: &[u8]) -> Option<(AccessId, &[u8])>
    ensures { IfSome result (λ x. access_at bytes.now ≡ Some (x.0, x.1.now)) }
{
    match bytes {
        [space, thread, stop, access, rest @ ..] => {
            if *space != b' ' || *stop != b'.' || !ends_word(rest) {
                return None;
            }
            let thread = digit_within(255, *thread)? as u8;
            let access = digit_within(255, *access)? as u8;
            Some((AccessId { thread, access }, rest))
        }
        _ => None,
    }
}

/// A space, and the name of an access.
#[tactic(auto, unfolding(crate::specs::Internal::Reading::access_at))]
pub(crate) fn access(bytes: &[u8]) -> Result<(AccessId, &[u8]), WordRefusal>
    ensures { Gives (λ x. (x.0, x.1.now)) result (access_at bytes.now) }
{
    if let Some((access, rest)) = short_access(bytes) {
        return Ok((access, rest));
    }
    let (word, rest) = word(bytes)?;
    match access_of(word) {
        Some(access) => Ok((access, rest)),
        None => {
            let (wrong, could_go_on) = fault_of(word);
            Err(refused_unless_cut(wrong, could_go_on, bytes, rest))
        }
    }
}
