//! Strings.
ghost use Rattle.std.specs.Prelude.{◌≡◌, ◌++◌, ◌<◌, OnOk};
ghost use Rattle.json_text.specs.Texts.{hex_digit, unicode_escape, needs_backslash, needs_number, escaped, quoted};

use std::alloc::AllocError;

/// The digit of a number below 16.
fn hex_digit(number: u8) -> u8
    requires { number < 16 }
    ensures { result ≡ hex_digit number }
{
    if number < 10 {
        b'0' + number
    } else {
        b'a' - 10 + number
    }
}

/// `\u003c` and the like
fn push_unicode(out: &mut Vec<u8>, byte: u8) -> Result<(), AllocError>
    ensures { OnOk result (out.new.items ≡ out.old.items ++ unicode_escape byte) }
{
    out.extend_from_slice(b"\\u00")?;
    out.push(hex_digit(byte / 16))?;
    out.push(hex_digit(byte % 16))?;
    Ok(())
}

/// Whether a byte needs a `\` before it.
fn needs_backslash(byte: u8) -> bool
    ensures { result ≡ needs_backslash byte }
{
    byte == b'"' || byte == b'\\'
}

/// Whether a byte is written by its number.
fn needs_number(byte: u8) -> bool
    ensures { result ≡ needs_number byte }
{
    byte < b' ' || byte == b'<'
}

/// A byte of a string.
#[tactic(auto, unfolding(crate::specs::Texts::escaped))]
fn push_byte(out: &mut Vec<u8>, byte: u8) -> Result<(), AllocError>
    ensures { OnOk result (out.new.items ≡ out.old.items ++ escaped byte) }
{
    if needs_backslash(byte) {
        return out.extend_from_slice(&[b'\\', byte]);
    }
    if needs_number(byte) {
        return push_unicode(out, byte);
    }
    out.push(byte)?;
    Ok(())
}

/// A string: in quotes, with `\` before a quote and before itself, and `\u00` and two digits for a byte below 0x20 and
/// for `<`.
pub(crate) fn push_quoted(out: &mut Vec<u8>, text: &[u8]) -> Result<(), AllocError>
    ensures { OnOk result (out.new.items ≡ out.old.items ++ quoted text.now) }
{
    out.push(b'"')?;
    for byte in text {
        push_byte(out, *byte)?;
    }
    out.push(b'"')?;
    Ok(())
}
