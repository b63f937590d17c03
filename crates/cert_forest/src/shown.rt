//! The head of a certificate's text: its version, and what is shown.

ghost use Rattle.std.specs.Prelude.{◌≡◌, ◌<◌, IfOk, IfSome};
ghost use Rattle.std.specs.FinSet as set;
ghost use Rattle.tso_program.specs.declared.shown.TheConstants.{PLACES};
ghost use Rattle.text_tokens.specs.Steps.{Gives};
ghost use Rattle.cert_forest.specs.Internal.Reading.{digit_of, shown_location, register_of, shown_place, place_word_at, ascending_at, shown_line_at, word_line_at, or_condition, shown_words_at, front_at};
ghost use Rattle.cert_forest.specs.declared.version.Version.TheVariants.{Fourth};

use crate::Shows;
use crate::access::stop_len;
use crate::version::{Version, header, rule_of};
use cert_trees::Rule;
use cert_words::{
    WordRefusal, Wrong, begins_word, end, name, refused, refused_unless_cut, refused_word, word,
};
use text_tokens::{are_digits, plain_number};
use tso_program::{MAX_LOCATIONS, MAX_THREADS, Names, PLACES, REGISTER_PLACES, REGISTERS};

/// What stands in place of names where a condition's truth is shown.
const CONDITION: &[u8; 9] = b"condition";
/// What stands in place of names where all is shown.
const ALL: &[u8; 3] = b"all";
/// How many registers and locations can be named.
const MAX_PLACES: u8 = PLACES as u8;
/// How many registers can be named: their places come before those of locations.
const MAX_REGISTERS: u8 = REGISTER_PLACES as u8;
/// How many registers a thread has.
const THREAD_REGISTERS: u8 = REGISTERS as u8;
/// The greatest number of a thread.
const LAST_THREAD: u8 = MAX_THREADS as u8 - 1;
/// The greatest number of a location.
const LAST_LOCATION: u8 = MAX_LOCATIONS as u8 - 1;

/// The digit up to a limit that is written so.
fn digit_of(limit: u8, byte: u8) -> Option<u8>
    requires { limit < 10 }
    ensures { result ≡ digit_of limit byte }
{
    if b'0' <= byte && byte <= b'0' + limit {
        Some(byte - b'0')
    } else {
        None
    }
}

/// `lN`.
fn location_of(first: u8, digit: u8) -> Option<u8>
    ensures value { result ≡ shown_location first digit }
    ensures within { IfSome result (λ place. place < PLACES) }
{
    if first != b'l' {
        return None;
    }
    let location = digit_of(LAST_LOCATION, digit)?;
    Some(MAX_REGISTERS + location)
}

/// `rT.R`.
fn register_of(first: u8, thread: u8, stop: u8, register: u8) -> Option<u8>
    ensures value { result ≡ register_of first thread stop register }
    ensures within { IfSome result (λ place. place < PLACES) }
{
    if first != b'r' || stop != b'.' {
        return None;
    }
    let thread = digit_of(LAST_THREAD, thread)?;
    let register = digit_of(THREAD_REGISTERS - 1, register)?;
    Some(THREAD_REGISTERS * thread + register)
}

/// The place whose word this is.
fn place_of(word: &[u8]) -> Option<u8>
    ensures value { result ≡ shown_place word.now }
    ensures within { IfSome result (λ place. place < PLACES) }
{
    match word {
        [first, digit] => location_of(*first, *digit),
        [first, thread, stop, register] => register_of(*first, *thread, *stop, *register),
        _ => None,
    }
}

/// Whether a word that is cut, of at least one byte, can become that of a place from the least on.
fn could_go_on(word: &[u8], least: u8) -> bool {
    match word {
        [b'l'] => least < MAX_PLACES,
        [b'r'] => least < MAX_REGISTERS,
        [b'r', thread] | [b'r', thread, b'.'] => match digit_of(LAST_THREAD, *thread) {
            Some(thread) => least < THREAD_REGISTERS * (thread + 1),
            None => false,
        },
        _ => false,
    }
}

/// Whether the bytes are digits, at least one.
fn is_number(bytes: &[u8]) -> bool {
    !bytes.is_empty() && are_digits(bytes)
}

/// What is wrong with a word that is that of no place.
fn fault_of(word: &[u8], is_cut: bool) -> Wrong {
    let is_numbered = match word {
        [b'l', digits @ ..] => is_number(digits),
        [b'r', names @ ..] => is_register(names, is_cut),
        _ => false,
    };
    if is_numbered {
        Wrong::Number
    } else {
        Wrong::Token
    }
}

/// Whether these are a thread's and a register's number, or a thread's alone that is too large where the
/// rest is cut.
fn is_register(names: &[u8], is_cut: bool) -> bool {
    let (thread, tail) = names.split_at(stop_len(names));
    if !is_number(thread) {
        return false;
    }
    match tail.split_first() {
        Some((_, register)) => {
            is_number(register)
                || is_cut
                    && register.is_empty()
                    && plain_number(u64::from(LAST_THREAD), thread).is_none()
        }
        None => is_cut && plain_number(u64::from(LAST_THREAD), thread).is_none(),
    }
}

/// What is wrong where the bytes end after a space: the space can't stand where no place may follow.
fn after_space(least: u8) -> WordRefusal {
    if least < MAX_PLACES {
        refused(Wrong::Ended, 0)
    } else {
        refused(Wrong::Token, 1)
    }
}

/// A space, and the word of a place, which is to be the least or a later one.
#[tactic(auto, unfolding(crate::specs::Internal::Reading::place_word_at))]
fn place(least: u8, bytes: &[u8]) -> Result<(u8, &[u8]), WordRefusal>
    ensures gives { Gives (λ x. (x.0, x.1.now)) result (place_word_at bytes.now) }
    ensures below { IfOk result (λ x. x.0 < PLACES) }
{
    let (word, rest) = word(bytes)?;
    match place_of(word) {
        Some(place) => Ok((place, rest)),
        None => {
            if bytes.len() == 1 {
                return Err(after_space(least));
            }
            let wrong = fault_of(word, rest.is_empty());
            Err(refused_unless_cut(wrong, could_go_on(word, least), bytes, rest))
        }
    }
}

/// The registers and locations at ascending places, as long as words follow.
fn places(bytes: &[u8]) -> Result<(Names, &[u8]), WordRefusal>
    ensures { Gives (λ x. (x.0, x.1.now)) result (ascending_at place_word_at PLACES 0 set.empty bytes.now) }
{
    let mut found = Names::none();
    let mut least: u8 = 0;
    let mut rest = bytes;
    for _ in 0..MAX_PLACES {
        if !begins_word(rest) {
            return Ok((found, rest));
        }
        let (place, after) = place(least, rest)?;
        if place < least {
            return Err(refused_word(Wrong::Token, rest));
        }
        found = found.with_place(place);
        least = place + 1;
        rest = after;
    }
    if begins_word(rest) {
        return Err(after_all(rest));
    }
    Ok((found, rest))
}

/// What is wrong with a word after `MAX_PLACES` places.
fn after_all(bytes: &[u8]) -> WordRefusal {
    match place(MAX_PLACES, bytes) {
        Ok(_) => refused_word(Wrong::Token, bytes),
        Err(refusal) => refusal,
    }
}

#[tactic(auto, unfolding(crate::specs::Internal::Reading::shown_line_at))]
fn shown_line(bytes: &[u8]) -> Result<(Names, &[u8]), WordRefusal>
    ensures { Gives (λ x. (x.0, x.1.now)) result (shown_line_at bytes.now) }
{
    let rest = name(b"shown", bytes)?;
    match places(rest) {
        Ok((names, rest)) => {
            let rest = end(rest)?;
            Ok((names, rest))
        }
        Err(refusal) => Err(refusal),
    }
}

/// The line `shown` with this word.
#[tactic(auto, unfolding(crate::specs::Internal::Reading::word_line_at))]
fn word_line<'t>(said: &[u8], bytes: &'t [u8]) -> Result<&'t [u8], WordRefusal>
    ensures { Gives (λ x. x.now) result (word_line_at said.now bytes.now) }
{
    let text = name(b"shown", bytes)?;
    let (word, rest) = word(text)?;
    if word == said {
        let rest = end(rest)?;
        Ok(rest)
    } else {
        Err(refused_unless_cut(Wrong::Token, said.starts_with(word), text, rest))
    }
}

/// Whether the line goes on like `shown` and a word that begins with this letter.
fn is_begun(letter: u8, bytes: &[u8]) -> bool {
    match bytes {
        [b's', b'h', b'o', b'w', b'n', b' ', first, ..] => *first == letter,
        _ => false,
    }
}

/// The line of names, or else `shown condition`.
fn names_or_condition(bytes: &[u8]) -> Result<(Shows, &[u8]), WordRefusal>
    ensures { Gives (λ x. (x.0, x.1.now)) result (or_condition (shown_line_at bytes.now) bytes.now) }
{
    match shown_line(bytes) {
        Ok((names, rest)) => Ok((Shows::Only(names), rest)),
        Err(refusal) => match word_line(CONDITION, bytes) {
            Ok(rest) => Ok((Shows::Condition, rest)),
            Err(other) => Err(if is_begun(b'c', bytes) {
                other
            } else {
                refusal
            }),
        },
    }
}

/// The line of names, or else `shown condition` or `shown all`.
fn any_line(bytes: &[u8]) -> Result<(Shows, &[u8]), WordRefusal>
    ensures { Gives (λ x. (x.0, x.1.now)) result (shown_words_at Fourth bytes.now) }
{
    match names_or_condition(bytes) {
        Ok((shown, rest)) => Ok((shown, rest)),
        Err(refusal) => match word_line(ALL, bytes) {
            Ok(rest) => Ok((Shows::All, rest)),
            Err(other) => Err(if is_begun(b'a', bytes) {
                other
            } else {
                refusal
            }),
        },
    }
}

/// What is shown: in the first version all, and in the others what a line says.
fn shown(version: Version, bytes: &[u8]) -> Result<(Shows, &[u8]), WordRefusal>
    ensures { Gives (λ x. (x.0, x.1.now)) result (shown_words_at version bytes.now) }
{
    match version {
        Version::First => Ok((Shows::All, bytes)),
        Version::Second => names_or_condition(bytes),
        Version::Fourth => any_line(bytes),
    }
}

/// The rule of the version that the first line says, and what is shown.
#[tactic(auto, unfolding(crate::specs::Internal::Reading::front_at))]
pub(crate) fn head(bytes: &[u8]) -> Result<(Rule, Shows, &[u8]), WordRefusal>
    ensures { Gives (λ x. ((x.0, x.1), x.2.now)) result (front_at bytes.now) }
{
    let (version, rest) = header(bytes)?;
    match shown(version, rest) {
        Ok((shown, rest)) => Ok((rule_of(version), shown, rest)),
        Err(refusal) => Err(refusal),
    }
}
