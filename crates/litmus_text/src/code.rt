//! Instructions.
ghost use Rattle.std.specs.Prelude.{◌≡◌, ◌++◌, ◌∷◌, OnOk, codes};
ghost use Rattle.text_tokens.specs.Pieces.{text_of};
ghost use Rattle.tso_program.specs.Fences.{gaps_in};
ghost use Rattle.litmus_reader.specs.Names.{register_name};
ghost use Rattle.litmus_text.specs.Spelling.{memory_pieces, immediate_pieces, jump_pieces, code_pieces};
ghost use Rattle.litmus_text.specs.Canonical.{location_name_at, label_name_at, own_labels, moved_labels, code_named};

use crate::labels::label_name;
use crate::words::{push_number, push_register};
use gap_sets::GapSet;
use litmus_reader::{Litmus, NameTable, location_name};
use std::alloc::AllocError;
use tso_program::{Instr, Program, Reg};

/// `[x]`
fn push_memory(out: &mut Vec<u8>, names: &NameTable, location: u8) -> Result<(), AllocError>
    ensures { OnOk result (out.new.items ≡ out.old.items ++ text_of (memory_pieces (location_name_at names.now.locations location))) }
{
    out.push(b'[')?;
    out.extend_from_slice(location_name(names, location as usize))?;
    out.push(b']')?;
    Ok(())
}

/// `$n`
fn push_immediate(out: &mut Vec<u8>, value: u32) -> Result<(), AllocError>
    ensures { OnOk result (out.new.items ≡ out.old.items ++ text_of (immediate_pieces value)) }
{
    out.push(b'$')?;
    push_number(out, value)
}

/// `MOV REG,` and the like
fn push_to_register(out: &mut Vec<u8>, mnemonic: &[u8], register: Reg) -> Result<(), AllocError>
    ensures { OnOk result (out.new.items ≡ out.old.items ++ (mnemonic.now ++ 32 ∷ (register_name register ++ codes ","))) }
{
    out.extend_from_slice(mnemonic)?;
    out.push(b' ')?;
    push_register(out, register)?;
    out.push(b',')?;
    Ok(())
}

/// `MOV [x],` and the like
fn push_to_memory(
    out: &mut Vec<u8>,
    mnemonic: &[u8],
    names: &NameTable,
    location: u8,
) -> Result<(), AllocError>
    ensures { OnOk result (out.new.items ≡ out.old.items ++ (mnemonic.now ++ (codes " [" ++ (location_name_at names.now.locations location ++ codes "],")))) }
{
    out.extend_from_slice(mnemonic)?;
    out.push(b' ')?;
    push_memory(out, names, location)?;
    out.push(b',')?;
    Ok(())
}

/// `JE NAME` and the like
fn push_jump(
    out: &mut Vec<u8>,
    mnemonic: &[u8],
    litmus: &Litmus<Program>,
    gaps: &GapSet,
    t: u8,
    place: u8,
) -> Result<(), AllocError>
    ensures { OnOk result (out.new.items ≡ out.old.items ++ text_of (jump_pieces mnemonic.now
        (label_name_at (own_labels (moved_labels (gaps_in litmus.now.program gaps.now) 0 litmus.now.labels) t) place))) }
{
    out.extend_from_slice(mnemonic)?;
    out.push(b' ')?;
    out.extend_from_slice(label_name(litmus, gaps, t, place))
}

/// An instruction of thread t of the fenced program.
pub fn push_code(
    out: &mut Vec<u8>,
    litmus: &Litmus<Program>,
    gaps: &GapSet,
    t: u8,
    code: Instr,
) -> Result<(), AllocError>
    ensures { OnOk result (out.new.items ≡ out.old.items ++ text_of (code_pieces (code_named litmus.now.names.locations (own_labels (moved_labels (gaps_in litmus.now.program gaps.now) 0 litmus.now.labels) t) code))) }
{
    match code {
        Instr::LoadImm(register, value) => {
            push_to_register(out, b"MOV", register)?;
            push_immediate(out, value)
        }
        Instr::Copy(register, from) => {
            push_to_register(out, b"MOV", register)?;
            push_register(out, from)
        }
        Instr::Load(register, location) => {
            push_to_register(out, b"MOV", register)?;
            push_memory(out, &litmus.names, location)
        }
        Instr::StoreImm(location, value) => {
            push_to_memory(out, b"MOV", &litmus.names, location)?;
            push_immediate(out, value)
        }
        Instr::Store(location, register) => {
            push_to_memory(out, b"MOV", &litmus.names, location)?;
            push_register(out, register)
        }
        Instr::Xchg(location, register) => {
            push_to_memory(out, b"XCHG", &litmus.names, location)?;
            push_register(out, register)
        }
        Instr::Fence => out.extend_from_slice(b"MFENCE"),
        Instr::CmpImm(register, value) => {
            push_to_register(out, b"CMP", register)?;
            push_immediate(out, value)
        }
        Instr::CmpReg(register, other) => {
            push_to_register(out, b"CMP", register)?;
            push_register(out, other)
        }
        Instr::Je(place) => push_jump(out, b"JE", litmus, gaps, t, place),
        Instr::Jne(place) => push_jump(out, b"JNE", litmus, gaps, t, place),
        Instr::Jmp(place) => push_jump(out, b"JMP", litmus, gaps, t, place),
    }
}
