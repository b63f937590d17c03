//! The first line of a text.
ghost use Rattle.std.specs.Prelude.{◌≡◌, ◌≤◌, ℕ, List, ⊤, length, option_map, IfOk, IfErr, IsOkAnd};
ghost use Rattle.std.specs.List.{prefix_len};
ghost use Rattle.litmus_lines.specs.FirstLine.{is_visible, IsFirstLine};
ghost use Rattle.litmus_lines.specs.Internal.FirstLineReading.{heading_name};
ghost use Rattle.litmus_lines.specs.Faults.{RefusesFirstLine};

use crate::fault::LineFault;
use crate::lines::split_line;
use text_tokens::{are_line_spaces, blanks_len};

fn is_visible(byte: u8) -> bool
    ensures { result ≡ is_visible byte }
{
    b'!' <= byte && byte <= b'~'
}

/// How many bytes from the front on are visible characters.
fn visible_len(bytes: &[u8]) -> usize
    ensures value { result ≡ prefix_len is_visible bytes.now }
    ensures within { result ≤ length bytes.now }
{
    bytes.iter().take_while(|byte| is_visible(**byte)).count()
}

/// The name that a first line gives, which is given without its LF.
#[tactic(auto, unfolding(crate::specs::Internal::FirstLineReading::heading_name))]
fn heading_name(line: &[u8]) -> Option<&[u8]>
    ensures { option_map (λ name. name.now) result ≡ heading_name line.now }
{
    let rest = line.strip_prefix(b"X86")?;
    let (blanks, rest) = rest.split_at(blanks_len(rest));
    let (name, trailing) = rest.split_at(visible_len(rest));
    if blanks.is_empty() || name.is_empty() || !are_line_spaces(trailing) {
        None
    } else {
        Some(name)
    }
}

/// The name in the first line, and the text after that line's LF.
pub fn read_first_line(bytes: &[u8]) -> Result<(&[u8], &[u8]), LineFault>
    ensures found { IfOk result (λ p. IsFirstLine bytes.now p.0.now p.1.now) }
    ensures only { (name rest : List ℕ) → IsFirstLine bytes.now name rest
        → IsOkAnd result (λ p. (p.0.now ≡ name) × (p.1.now ≡ rest)) }
    ensures refused { IfErr result (λ fault. RefusesFirstLine bytes.now fault) }
{
    let Some((line, rest)) = split_line(bytes) else {
        return Err(LineFault::Ended(1));
    };
    match heading_name(line) {
        Some(name) => Ok((name, rest)),
        None => Err(LineFault::Header(1)),
    }
}
