//! Which instructions are alike. No clause rests on it.
use tso_program::Instr;

/// Whether two instructions are the same up to names of registers, locations and labels, and to numbers.
pub(crate) fn are_alike(first: Instr, second: Instr) -> bool {
    match (first, second) {
        (Instr::LoadImm(..), Instr::LoadImm(..))
        | (Instr::Copy(..), Instr::Copy(..))
        | (Instr::Load(..), Instr::Load(..))
        | (Instr::StoreImm(..), Instr::StoreImm(..))
        | (Instr::Store(..), Instr::Store(..))
        | (Instr::Xchg(..), Instr::Xchg(..))
        | (Instr::Fence, Instr::Fence)
        | (Instr::CmpImm(..), Instr::CmpImm(..))
        | (Instr::CmpReg(..), Instr::CmpReg(..))
        | (Instr::Je(_), Instr::Je(_))
        | (Instr::Jne(_), Instr::Jne(_))
        | (Instr::Jmp(_), Instr::Jmp(_)) => true,
        _ => false,
    }
}

/// Whether two instructions of one thread are likely one line that is come to twice: the same up to registers, and a jump that
/// a condition decides whichever way it goes.
pub(crate) fn are_one_line(first: Instr, second: Instr) -> bool {
    match (first, second) {
        (Instr::LoadImm(_, number), Instr::LoadImm(_, other))
        | (Instr::CmpImm(_, number), Instr::CmpImm(_, other)) => number == other,
        (Instr::Load(_, place), Instr::Load(_, other))
        | (Instr::Store(place, _), Instr::Store(other, _))
        | (Instr::Xchg(place, _), Instr::Xchg(other, _)) => place == other,
        (Instr::StoreImm(place, number), Instr::StoreImm(other, other_number)) => {
            place == other && number == other_number
        }
        _ => are_alike(first, second) || is_decided(first) && is_decided(second),
    }
}

/// Whether it is a jump that a condition decides.
pub(crate) fn is_decided(instruction: Instr) -> bool {
    match instruction {
        Instr::Je(_) | Instr::Jne(_) => true,
        _ => false,
    }
}

/// Whether it looks at memory.
pub(crate) fn is_look(instruction: Instr) -> bool {
    match instruction {
        Instr::Load(..) | Instr::Xchg(..) => true,
        _ => false,
    }
}
