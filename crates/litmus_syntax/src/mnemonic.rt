//! Mnemonics.

ghost use Rattle.std.specs.Prelude.{◌≡◌};
ghost use Rattle.litmus_syntax.specs.Words.{mnemonic_of};

use crate::parts::is_either;

/// The first word of an instruction.
#[derive(Clone, Copy)]
pub(crate) enum Mnemonic {
    Mov,
    Xchg,
    Mfence,
    Cmp,
    Je,
    Jne,
    Jmp,
}

/// The mnemonic that is written so, in capitals or small letters.
#[tactic(auto, unfolding(crate::specs::Words::mnemonic_of))]
pub(crate) fn mnemonic_of(word: &[u8]) -> Option<Mnemonic>
    ensures { result ≡ mnemonic_of word.now }
{
    if is_either(word, b"MOV", b"mov") {
        Some(Mnemonic::Mov)
    } else if is_either(word, b"XCHG", b"xchg") {
        Some(Mnemonic::Xchg)
    } else if is_either(word, b"MFENCE", b"mfence") {
        Some(Mnemonic::Mfence)
    } else if is_either(word, b"CMP", b"cmp") {
        Some(Mnemonic::Cmp)
    } else if is_either(word, b"JE", b"je") {
        Some(Mnemonic::Je)
    } else if is_either(word, b"JNE", b"jne") {
        Some(Mnemonic::Jne)
    } else if is_either(word, b"JMP", b"jmp") {
        Some(Mnemonic::Jmp)
    } else {
        None
    }
}
