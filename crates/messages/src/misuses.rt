//! Arguments that name no certificate.

use litmus_rules::shown_word;
use std::alloc::{AllocError, Global};

/// Why these arguments of `fencecheck` name no litmus file with its certificate, as a line. Nothing is said of a call for
/// help.
pub fn misuse_line(alloc: Global, words: &[String]) -> Result<Vec<u8>, AllocError> {
    Ok(misuse_text(alloc, words)?.into_bytes())
}

fn misuse_text(alloc: Global, words: &[String]) -> Result<String, AllocError> {
    match option_in(words) {
        Some(b"--help" | b"-h") => Ok(String::new(alloc)),
        Some(word) => {
            let word = shown_word(alloc, word)?;
            format!(in alloc; "error: {word} is no option; the cost file is the third argument\n")
        }
        None => String::from_str(alloc, said_of_count(words.len())),
    }
}

/// The first argument that is written as an option; `-` alone is standard input.
fn option_in(words: &[String]) -> Option<&[u8]> {
    for word in words {
        if word.len() > 1 && word.as_bytes().starts_with(b"-") {
            return Some(word.as_bytes());
        }
    }
    None
}

/// What is said of so many arguments.
fn said_of_count(count: usize) -> &'static str {
    if count == 1 {
        "error: the certificate is missing\n"
    } else {
        "error: there are more than three arguments\n"
    }
}
