//! Words and numbers at the end of a text.
ghost use Rattle.std.specs.Prelude.{◌≡◌, ◌++◌, [], OnOk, nat_lt, if◌then◌else◌};
ghost use Rattle.text_tokens.specs.Pieces.{text_of};
ghost use Rattle.litmus_syntax.specs.Views.{Location, Register};
ghost use Rattle.litmus_text.specs.Spelling.{register_pieces, valued_pieces, gap};
ghost use Rattle.std.specs.Fmt.{decimal};

use itoa::Buffer;
use litmus_reader::register_name;
use std::alloc::AllocError;
use tso_program::Reg;

pub fn push_number(out: &mut Vec<u8>, number: u32) -> Result<(), AllocError>
    ensures { OnOk result (out.new.items ≡ out.old.items ++ decimal number) }
{
    let mut digits = Buffer::new();
    out.extend_from_slice(digits.format(number).as_bytes())
}

pub fn push_register(out: &mut Vec<u8>, register: Reg) -> Result<(), AllocError>
    ensures { OnOk result (out.new.items ≡ out.old.items ++ text_of (register_pieces register)) }
{
    out.extend_from_slice(register_name(register).as_bytes())
}

/// A space, if parts stand before this one.
pub fn push_gap(out: &mut Vec<u8>, parts: usize) -> Result<(), AllocError>
    ensures { OnOk result (out.new.items ≡ out.old.items ++ (if nat_lt 0 parts then text_of gap else [])) }
{
    if parts > 0 {
        out.push(b' ')?;
    }
    Ok(())
}

/// `x=n`
pub fn push_location_value(out: &mut Vec<u8>, name: &[u8], value: u32) -> Result<(), AllocError>
    ensures { OnOk result (out.new.items ≡ out.old.items ++ text_of (valued_pieces (Location name.now) value)) }
{
    out.extend_from_slice(name)?;
    out.push(b'=')?;
    push_number(out, value)
}

/// `t:REG=n`
pub fn push_register_value(
    out: &mut Vec<u8>,
    thread: u32,
    register: Reg,
    value: u32,
) -> Result<(), AllocError>
    ensures { OnOk result (out.new.items ≡ out.old.items ++ text_of (valued_pieces (Register thread register) value)) }
{
    push_number(out, thread)?;
    out.push(b':')?;
    push_register(out, register)?;
    out.push(b'=')?;
    push_number(out, value)
}
