//! The first line of a certificate's text, which says its version.

ghost use Rattle.std.specs.Prelude.{◌≡◌};
ghost use Rattle.text_tokens.specs.Steps.{Gives};
ghost use Rattle.cert_forest.specs.Internal.Reading.{version_at, header_at, rule_of};

use cert_trees::Rule;
use cert_words::{WordRefusal, Wrong, end, name, refused, refused_unless_cut, word};

/// The version of a certificate's text. There is no version 3.
#[derive(Clone, Copy)]
pub(crate) enum Version {
    /// All is shown.
    First,
    /// A line says what is shown.
    Second,
    /// A line says what is shown, and bounds name runs.
    Fourth,
}

/// By which rule the trees of a version are judged.
pub(crate) fn rule_of(version: Version) -> Rule
    ensures { result ≡ rule_of version }
{
    match version {
        Version::First | Version::Second => Rule::Whole,
        Version::Fourth => Rule::Early,
    }
}

/// The second word of the first line.
#[tactic(auto, unfolding(crate::specs::Internal::Reading::version_at))]
fn version_word(bytes: &[u8]) -> Result<(Version, &[u8]), WordRefusal>
    ensures { Gives (λ x. (x.0, x.1.now)) result (version_at bytes.now) }
{
    let (word, rest) = word(bytes)?;
    if word == b"1".as_slice() {
        Ok((Version::First, rest))
    } else if word == b"2".as_slice() {
        Ok((Version::Second, rest))
    } else if word == b"4".as_slice() {
        Ok((Version::Fourth, rest))
    } else {
        Err(refused_unless_cut(Wrong::Token, word.is_empty(), bytes, rest))
    }
}

#[tactic(auto, unfolding(crate::specs::Internal::Reading::header_at))]
fn first_line(bytes: &[u8]) -> Result<(Version, &[u8]), WordRefusal>
    ensures { Gives (λ x. (x.0, x.1.now)) result (header_at bytes.now) }
{
    let rest = name(b"FENCECERT", bytes)?;
    let (version, rest) = version_word(rest)?;
    let rest = end(rest)?;
    Ok((version, rest))
}

/// The first line, which says what the text is.
pub(crate) fn header(bytes: &[u8]) -> Result<(Version, &[u8]), WordRefusal>
    ensures { Gives (λ x. (x.0, x.1.now)) result (header_at bytes.now) }
{
    match first_line(bytes) {
        Ok((version, rest)) => Ok((version, rest)),
        Err(refusal) => {
            if refusal.wrong == Wrong::Ended {
                Err(refusal)
            } else {
                Err(refused(Wrong::Header, 0))
            }
        }
    }
}
