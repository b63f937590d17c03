//! Registers that are compared, and that nothing of their thread writes.

use crate::slip::{Remark, SlipKind};
use litmus_syntax::{Body, Cell, Code, Entry, Place};
use tso_program::Reg;

/// What is said of the first register that a CMP of the rows names, to which its thread writes nothing, and that has no
/// initial value.
pub(crate) fn idle_register(body: &Body<'_>) -> Option<Remark> {
    for thread in 0..body.threads {
        if let Some(remark) = idle_register_of(body, thread) {
            return Some(remark);
        }
    }
    None
}

/// What is said of the first register that a CMP of one thread names, to which the thread writes nothing.
fn idle_register_of(body: &Body<'_>, thread: usize) -> Option<Remark> {
    for row in &body.rows {
        if let Some(cell) = row.get(thread) {
            if let Some(remark) = idle_operand(body, thread, cell) {
                return Some(remark);
            }
        }
    }
    None
}

/// What is said of the first register that a CMP names, to which its thread writes nothing. The first operand of a CMP is
/// one token after its mnemonic, the second three.
fn idle_operand(body: &Body<'_>, thread: usize, cell: &Cell<'_>) -> Option<Remark> {
    let (first, second) = compared_by(cell)?;
    let after = if !is_given(body, thread, first) {
        1
    } else if second.is_some_and(|register| !is_given(body, thread, register)) {
        3
    } else {
        return None;
    };
    let kind = SlipKind::UnwrittenRegister;
    let left = cell.left.saturating_sub(after);
    let said = "is compared, and nothing of its thread writes it: it holds 0";
    Some(Remark { kind, left, said })
}

/// The registers that a CMP names.
fn compared_by(cell: &Cell<'_>) -> Option<(Reg, Option<Reg>)> {
    match cell.code {
        Some(Code::CmpImm(register, _)) => Some((register, None)),
        Some(Code::CmpReg(register, other)) => Some((register, Some(other))),
        _ => None,
    }
}

/// Whether the text gives the register an initial value, or an instruction of its thread writes to it.
fn is_given(body: &Body<'_>, thread: usize, register: Reg) -> bool {
    has_entry(body.entries.as_slice(), thread, register)
        || is_written(body.rows.as_slice(), thread, register)
}

/// Whether one of the initial values is the register's.
fn has_entry(entries: &[Entry<'_>], thread: usize, register: Reg) -> bool {
    for entry in entries {
        if is_place_of(entry.place, thread, register) {
            return true;
        }
    }
    false
}

fn is_place_of(place: Place<'_>, thread: usize, register: Reg) -> bool {
    match place {
        Place::Register(own, named) => own as usize == thread && named == register,
        Place::Location(_) => false,
    }
}

/// Whether some instruction of the thread writes to the register.
fn is_written(rows: &[Vec<Cell<'_>>], thread: usize, register: Reg) -> bool {
    for row in rows {
        if let Some(cell) = row.get(thread) {
            if written_by(cell) == Some(register) {
                return true;
            }
        }
    }
    false
}

/// The register to which the instruction of a cell writes.
fn written_by(cell: &Cell<'_>) -> Option<Reg> {
    match cell.code {
        Some(
            Code::LoadImm(register, _)
            | Code::Copy(register, _)
            | Code::Load(register, _)
            | Code::Xchg(_, register),
        ) => Some(register),
        _ => None,
    }
}
