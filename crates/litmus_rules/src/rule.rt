//! Rules about a word that can't stand where it does.

use crate::tokens::Spot;

/// A sentence, and the words of which it is said. Words are equal without regard to capitals; a kind of token is a word
/// in angle brackets.
pub(crate) struct Rule {
    /// The words that may stand before.
    pub(crate) after: &'static [&'static str],
    /// The words, and kinds, of which the rule is.
    pub(crate) words: &'static [&'static str],
    /// The sentence without its subject, which is the word.
    pub(crate) said: &'static str,
}

/// Every word.
pub(crate) const ANY: &[&str] = &[];

/// The names of the registers.
pub(crate) const REGISTERS: &[&str] = &["EAX", "EBX", "ECX", "EDX", "ESI", "EDI"];

/// The words of the format that no location and no label has as its name.
pub(crate) const RESERVED: &[&str] = &[
    "locations",
    "exists",
    "forall",
    "filter",
    "not",
    "true",
    "false",
];

/// The mnemonics of jumps.
pub(crate) const JUMPS: &[&str] = &["JE", "JNE", "JMP"];

/// Whether a list of words holds this one.
fn lists(list: &[&str], word: &[u8]) -> bool {
    list.iter()
        .any(|one| one.as_bytes().eq_ignore_ascii_case(word))
}

impl Rule {
    /// Whether the rule is of this token.
    fn is_of(&self, spot: &Spot<'_>) -> bool {
        let Rule { after, words, .. } = self;
        (after.is_empty() || lists(after, spot.before))
            && (words.is_empty() || lists(words, spot.word) || lists(words, spot.kind))
    }
}

/// What the first rule that is of a token says.
pub(crate) fn first_said(rules: &[Rule], spot: &Spot<'_>) -> Option<&'static str> {
    for rule in rules {
        if rule.is_of(spot) {
            return Some(rule.said);
        }
    }
    None
}
