//! The lines between the first line of a text and its initial values.
ghost use Rattle.std.specs.Prelude.{◌≡◌, ◌==◌, ℕ, List, slice_index, IfSome, IfNone, IfOk, IfErr, IsOkAnd};
ghost use Rattle.std.specs.List.{list_all};
ghost use Rattle.litmus_lines.specs.FirstLine.{is_inside};
ghost use Rattle.litmus_lines.specs.SkippedLines.{is_quoted, is_information, is_skipped, IsSkippedLine, AreSkipped};
ghost use Rattle.litmus_lines.specs.Faults.{is_front_of_skipped, ended_at, fault_at, RefusesLines};

use crate::fault::LineFault;
use crate::lines::{line_number, split_line};
use text_tokens::after_space;

fn is_quoted(line: &[u8]) -> bool
    ensures { result ≡ is_quoted line.now }
{
    line.len() > 0 && line[0] == b'"' && line.split_at(1).1.contains(&b'"')
}

fn is_information(line: &[u8]) -> bool
    ensures { result ≡ is_information line.now }
{
    line.len() > 0 && line[0].is_ascii_alphabetic() && line.contains(&b'=')
}

fn is_skipped(line: &[u8]) -> bool
    ensures { result ≡ is_skipped line.now }
{
    is_quoted(line) || is_information(line)
}

/// What follows the LF of a quoted or an information line with which the text begins.
fn after_skipped(text: &[u8]) -> Option<&[u8]>
    ensures some { IfSome result (λ rest. IsSkippedLine text.now rest.now) }
    ensures only { IfSome result (λ found. (rest : List ℕ) → IsSkippedLine text.now rest → found.now ≡ rest) }
    ensures none { IfNone result ((rest : List ℕ) → IsSkippedLine text.now rest → ⊥) }
{
    let Some((line, rest)) = split_line(text) else {
        return None;
    };
    if is_skipped(line) { Some(rest) } else { None }
}

fn begins_brace(text: &[u8]) -> bool
    ensures { result ≡ (slice_index text.now 0 == 123) }
{
    text.len() > 0 && text[0] == b'{'
}

fn has_no_end(text: &[u8]) -> bool
    ensures { result ≡ list_all is_inside text.now }
{
    text.iter().all(|byte| *byte != b'\n')
}

fn is_front_of_skipped(text: &[u8]) -> bool
    ensures { result ≡ is_front_of_skipped text.now }
{
    text.len() == 0 || text[0] == b'"' || text[0].is_ascii_alphabetic()
}

/// The fault of a text that stops where more is needed.
fn ended(bytes: &[u8]) -> LineFault
    ensures { result ≡ ended_at bytes.now }
{
    LineFault::Ended(line_number(bytes, bytes.len()))
}

/// The fault at the end of the bytes where no line begins that is skipped.
fn no_skipped_line(bytes: &[u8], text: &[u8]) -> LineFault
    ensures { result ≡ fault_at bytes.now text.now }
{
    if has_no_end(text) && is_front_of_skipped(text) {
        ended(bytes)
    } else {
        LineFault::Header(line_number(bytes, bytes.len().saturating_sub(text.len())))
    }
}

/// The end of the bytes from `{` on, after the lines that are skipped. The lines are the end of the bytes; a fault has the line in the bytes.
pub fn skip_lines<'a>(bytes: &[u8], lines: &'a [u8]) -> Result<&'a [u8], LineFault>
    ensures found { IfOk result (λ rest. AreSkipped lines.now rest.now) }
    ensures only { (rest : List ℕ) → AreSkipped lines.now rest → IsOkAnd result (λ found. found.now ≡ rest) }
    ensures refused { IfErr result (λ fault. RefusesLines bytes.now lines.now fault) }
{
    let mut rest = lines;
    while !rest.is_empty() {
        let Some(text) = after_space(rest) else {
            return Err(ended(bytes));
        };
        if begins_brace(text) {
            return Ok(text);
        }
        let Some(others) = after_skipped(text) else {
            return Err(no_skipped_line(bytes, text));
        };
        rest = others;
    }
    Err(ended(bytes))
}
