//! What arguments that are no command of `fencer` may mean.

use crate::fence_hints::fences_hint;
use crate::message::Message;
use std::alloc::{AllocError, Global};

/// The names of the commands.
const COMMANDS: &[&str] = &[
    "replay", "outcomes", "place", "trace", "why", "gaps", "witness", "survey",
];

/// What arguments of `fencer` that are no command may mean, as a line; nothing where that is not known.
pub fn command_hint(alloc: Global, words: &[String]) -> Result<Vec<u8>, AllocError> {
    let text = hint_text(alloc, words)?;
    if text.is_empty() {
        return Ok(Vec::new(alloc));
    }
    Message::of_file(alloc, "fencer", text.as_str())?.written(alloc, false)
}

/// What arguments that are no command may mean. It is empty where that is not known.
fn hint_text(alloc: Global, words: &[String]) -> Result<String, AllocError> {
    let text = fences_hint(alloc, words)?;
    if !text.is_empty() {
        return Ok(text);
    }
    let meant = match words {
        [first, rest @ ..] => meant_by(alloc, first.as_str(), rest)?,
        [] => String::new(alloc),
    };
    if meant.is_empty() {
        Ok(meant)
    } else {
        format!(in alloc; "did you mean `fencer {meant}`?")
    }
}

/// The arguments that a first one and those after it may mean; none where that is not known.
fn meant_by(alloc: Global, first: &str, rest: &[String]) -> Result<String, AllocError> {
    match first {
        "-V" | "-v" | "version" => String::from_str(alloc, "--version"),
        "help" => match rest {
            [command] if is_command(command.as_str()) => { format!(in alloc; "{command} --help") }
            _ => String::from_str(alloc, "--help"),
        },
        _ if !is_command(first) && is_litmus(first) => format!(in alloc; "place {first}"),
        _ => Ok(String::new(alloc)),
    }
}

fn is_command(word: &str) -> bool {
    COMMANDS.iter().any(|command| *command == word)
}

/// Whether a word may name a litmus file; `-` is standard input.
pub(crate) fn is_litmus(word: &str) -> bool {
    word == "-" || word.as_bytes().ends_with(b".litmus")
}
