//! Jumps on a comparison that no CMP has made.

use crate::slip::{Remark, SlipKind};
use litmus_syntax::{Cell, Code};

/// What is said of the first JE or JNE of the rows that stands before any CMP of its thread. Jumps lead forward alone, so
/// the flag is then as it was at first.
pub(crate) fn idle_jump(rows: &[Vec<Cell<'_>>], threads: usize) -> Option<Remark> {
    for thread in 0..threads {
        if let Some(remark) = idle_jump_of(rows, thread) {
            return Some(remark);
        }
    }
    None
}

/// What is said of the first JE or JNE of one thread that stands before any CMP of it.
fn idle_jump_of(rows: &[Vec<Cell<'_>>], thread: usize) -> Option<Remark> {
    for row in rows {
        if let Some(cell) = row.get(thread) {
            match cell.code {
                Some(Code::CmpImm(..) | Code::CmpReg(..)) => return None,
                Some(code) => {
                    if let Some(said) = said_of_jump(code) {
                        let kind = SlipKind::JumpBeforeCmp;
                        let left = cell.left;
                        return Some(Remark { kind, left, said });
                    }
                }
                None => {}
            }
        }
    }
    None
}

/// What is said of a jump on a comparison, where none was made.
fn said_of_jump(code: Code<'_>) -> Option<&'static str> {
    match code {
        Code::Je(_) => Some("stands before any CMP of its thread: it never jumps"),
        Code::Jne(_) => Some("stands before any CMP of its thread: it always jumps"),
        _ => None,
    }
}
