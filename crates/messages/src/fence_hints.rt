//! What arguments with `--fences` that are no command of `fencer` may mean.

use crate::hints::is_litmus;
use litmus_lines::bytes_from;
use litmus_rules::shown_word;
use std::alloc::{AllocError, Global};

/// The option as it stands alone, and with its value.
const OPTION: &[u8] = b"--fences";

const OPTION_WITH: &[u8] = b"--fences=";

/// The gaps that `--fences` may mean, and whether they are written so.
#[derive(Drop)]
struct MeantGaps {
    gaps: Vec<u8>,
    is_written_so: bool,
}

/// What arguments with `--fences` may mean: another command that takes it, gaps with commas between them, or gaps before a
/// litmus file. It is empty where that is not known.
pub(crate) fn fences_hint(alloc: Global, words: &[String]) -> Result<String, AllocError> {
    let Some(number) = option_in(words) else {
        return Ok(String::new(alloc));
    };
    match words {
        [command, ..] if takes_none(command.as_str()) => {
            let command = command.as_str();
            format!(in alloc;
                "{command} takes no --fences: `fencer outcomes --fences` lists the outcomes with such fences, and `fencer witness --fences` shows a run"
            )
        }
        _ => {
            let MeantGaps {
                gaps,
                is_written_so,
            } = gaps_meant(alloc, words, number)?;
            if is_written_so {
                return taken_hint(alloc, words, number);
            }
            let gaps = shown_word(alloc, &gaps)?;
            format!(in alloc; "did you mean `--fences {gaps}`?")
        }
    }
}

/// That a litmus file is taken for the gaps of the option with this number, where it stands right after it.
fn taken_hint(alloc: Global, words: &[String], number: usize) -> Result<String, AllocError> {
    match words.split_at(number.min(words.len())) {
        ([command, ..], [option, file, ..])
            if takes_some(command.as_str())
                && option.as_bytes() == OPTION
                && is_litmus(file.as_str()) => {
            let file = shown_word(alloc, file.as_bytes())?;
            format!(in alloc;
                "{file} is taken for the gaps of --fences, which stand before it, as `--fences 0:1,1:1 {file}`"
            )
        }
        _ => Ok(String::new(alloc)),
    }
}

/// Whether a command takes fences.
fn takes_some(command: &str) -> bool {
    command == "outcomes" || command == "witness"
}

/// Whether a command searches for fences, and takes none.
fn takes_none(command: &str) -> bool {
    command == "place" || command == "why"
}

/// The number of the argument with the option.
fn option_in(words: &[String]) -> Option<usize> {
    words.iter().position(|word| word.as_bytes() == OPTION
        || word.as_bytes().starts_with(OPTION_WITH))
}

/// The gaps that the option with this number may mean: its value with commas in place of blanks, and the gaps after it.
fn gaps_meant(alloc: Global, words: &[String], number: usize) -> Result<MeantGaps, AllocError> {
    let mut gaps = Vec::new(alloc);
    let mut given = 0usize;
    let mut has_blank = false;
    for word in words.iter().skip(number) {
        let value = value_of(word.as_bytes());
        if !value.is_empty() {
            if !are_gaps(value) {
                break;
            }
            given = given.saturating_add(1);
            has_blank = has_blank || value.iter().any(|byte| *byte == b' ');
            push_gaps(&mut gaps, value)?;
        }
    }
    let is_written_so = given < 2 && !has_blank;
    Ok(MeantGaps {
        gaps,
        is_written_so,
    })
}

/// The value in an argument: what stands after the option, where it is that, and else the argument.
fn value_of(word: &[u8]) -> &[u8] {
    if word.starts_with(OPTION_WITH) {
        bytes_from(word, OPTION_WITH.len())
    } else if word == OPTION {
        b""
    } else {
        word
    }
}

/// Whether a value is of digits, colons, commas and blanks, with a colon.
fn are_gaps(value: &[u8]) -> bool {
    value
        .iter()
        .all(|byte| byte.is_ascii_digit() || b":, ".contains(byte))
        && value.iter().any(|byte| *byte == b':')
}

/// Adds gaps, with one comma before each.
fn push_gaps(gaps: &mut Vec<u8>, value: &[u8]) -> Result<(), AllocError> {
    let mut is_next = true;
    for byte in value {
        if *byte == b' ' || *byte == b',' {
            is_next = true;
        } else {
            if is_next && !gaps.is_empty() {
                gaps.push(b',')?;
            }
            is_next = false;
            gaps.push(*byte)?;
        }
    }
    Ok(())
}
