//! Instructions.

ghost use Rattle.std.specs.Prelude.{◌<◌, ◌≤◌, ◌≡◌, length, IfOk};
ghost use Rattle.text_tokens.specs.Tokens.{toks};
ghost use Rattle.litmus_syntax.specs.Views.{code_view};
ghost use Rattle.text_tokens.specs.Steps.{Gives};
ghost use Rattle.litmus_syntax.specs.Reading.{immediate_at, into_register_at, into_location_at, move_at, exchange_at, compared_with_at, compare_at, operands_at, code_at};

use crate::fault::{Part, Refusal};
use crate::mnemonic::{Mnemonic, mnemonic_of};
use crate::parts::{begins_any_word, mark, number, refused, word};
use crate::place::{read_memory, read_register};
use text_tokens::{Mark, Token, begins};
use tso_program::Reg;

/// An instruction, whose location or label is named.
#[derive(Clone, Copy, Debug)]
pub enum Code<'t> {
    /// Puts a number into a register.
    LoadImm(Reg, u32),
    /// Puts the second register's value into the first.
    Copy(Reg, Reg),
    /// Loads a location into a register.
    Load(Reg, &'t [u8]),
    /// Stores a number to a location.
    StoreImm(&'t [u8], u32),
    /// Stores a register to a location.
    Store(&'t [u8], Reg),
    /// XCHG: exchanges a location and a register.
    Xchg(&'t [u8], Reg),
    /// MFENCE
    Fence,
    /// Compares a register with a number.
    CmpImm(Reg, u32),
    /// Compares two registers.
    CmpReg(Reg, Reg),
    /// Jumps to a label where the last comparison found equals.
    Je(&'t [u8]),
    /// Jumps to a label where it did not.
    Jne(&'t [u8]),
    /// Jumps to a label.
    Jmp(&'t [u8]),
}

/// `$n` or `n`
#[tactic(auto, unfolding(crate::specs::Reading::immediate_at))]
fn read_immediate<'t>(tokens: &'t [Token]) -> Result<(u32, &'t [Token]), Refusal>
    ensures gives { Gives (λ x. (x.0, toks x.1.now)) result (immediate_at (toks tokens.now)) }
    ensures shorter { IfOk result (λ x. length x.1.now < length tokens.now) }
{
    if begins(tokens, Mark::Dollar) {
        let rest = mark(tokens, Mark::Dollar, Part::Operand)?;
        return number(rest, Part::Operand);
    }
    number(tokens, Part::Operand)
}

/// What is moved into a register.
#[tactic(auto, unfolding(crate::specs::Reading::into_register_at))]
fn read_into_register<'t>(reg: Reg, tokens: &'t [Token]) -> Result<(Code<'t>, &'t [Token]), Refusal>
    ensures gives { Gives (λ x. (code_view x.0, toks x.1.now)) result (into_register_at reg (toks tokens.now)) }
    ensures shorter { IfOk result (λ x. length x.1.now < length tokens.now) }
{
    if begins(tokens, Mark::OpenBracket) {
        let (name, rest) = read_memory(tokens, Part::Operand)?;
        return Ok((Code::Load(reg, name), rest));
    }
    if begins_any_word(tokens) {
        let (source, rest) = read_register(tokens, Part::Operand)?;
        return Ok((Code::Copy(reg, source), rest));
    }
    let (value, rest) = read_immediate(tokens)?;
    Ok((Code::LoadImm(reg, value), rest))
}

/// What is moved into a location.
#[tactic(auto, unfolding(crate::specs::Reading::into_location_at))]
fn read_into_location<'t>(
    name: &'t [u8],
    tokens: &'t [Token],
) -> Result<(Code<'t>, &'t [Token]), Refusal>
    ensures gives { Gives (λ x. (code_view x.0, toks x.1.now)) result (into_location_at name.entry.now (toks tokens.now)) }
    ensures shorter { IfOk result (λ x. length x.1.now < length tokens.now) }
{
    if begins_any_word(tokens) {
        let (source, rest) = read_register(tokens, Part::Operand)?;
        return Ok((Code::Store(name, source), rest));
    }
    let (value, rest) = read_immediate(tokens)?;
    Ok((Code::StoreImm(name, value), rest))
}

/// The operands of MOV.
#[tactic(auto, unfolding(crate::specs::Reading::move_at))]
fn read_move<'t>(tokens: &'t [Token]) -> Result<(Code<'t>, &'t [Token]), Refusal>
    ensures gives { Gives (λ x. (code_view x.0, toks x.1.now)) result (move_at (toks tokens.now)) }
    ensures shorter { IfOk result (λ x. length x.1.now < length tokens.now) }
{
    if begins(tokens, Mark::OpenBracket) {
        let (name, rest) = read_memory(tokens, Part::Operand)?;
        let rest = mark(rest, Mark::Comma, Part::Operand)?;
        return read_into_location(name, rest);
    }
    let (reg, rest) = read_register(tokens, Part::Operand)?;
    let rest = mark(rest, Mark::Comma, Part::Operand)?;
    read_into_register(reg, rest)
}

/// The operands of XCHG, in either order.
#[tactic(auto, unfolding(crate::specs::Reading::exchange_at))]
fn read_exchange<'t>(tokens: &'t [Token]) -> Result<(Code<'t>, &'t [Token]), Refusal>
    ensures gives { Gives (λ x. (code_view x.0, toks x.1.now)) result (exchange_at (toks tokens.now)) }
    ensures shorter { IfOk result (λ x. length x.1.now < length tokens.now) }
{
    if begins(tokens, Mark::OpenBracket) {
        let (name, rest) = read_memory(tokens, Part::Operand)?;
        let rest = mark(rest, Mark::Comma, Part::Operand)?;
        let (reg, rest) = read_register(rest, Part::Operand)?;
        return Ok((Code::Xchg(name, reg), rest));
    }
    let (reg, rest) = read_register(tokens, Part::Operand)?;
    let rest = mark(rest, Mark::Comma, Part::Operand)?;
    let (name, rest) = read_memory(rest, Part::Operand)?;
    Ok((Code::Xchg(name, reg), rest))
}

/// What a register is compared with.
#[tactic(auto, unfolding(crate::specs::Reading::compared_with_at))]
fn read_compared_with<'t>(reg: Reg, tokens: &'t [Token]) -> Result<(Code<'t>, &'t [Token]), Refusal>
    ensures gives { Gives (λ x. (code_view x.0, toks x.1.now)) result (compared_with_at reg (toks tokens.now)) }
    ensures shorter { IfOk result (λ x. length x.1.now < length tokens.now) }
{
    if begins_any_word(tokens) {
        let (other, rest) = read_register(tokens, Part::Operand)?;
        return Ok((Code::CmpReg(reg, other), rest));
    }
    let (value, rest) = read_immediate(tokens)?;
    Ok((Code::CmpImm(reg, value), rest))
}

/// The operands of CMP.
#[tactic(auto, unfolding(crate::specs::Reading::compare_at))]
fn read_compare<'t>(tokens: &'t [Token]) -> Result<(Code<'t>, &'t [Token]), Refusal>
    ensures gives { Gives (λ x. (code_view x.0, toks x.1.now)) result (compare_at (toks tokens.now)) }
    ensures shorter { IfOk result (λ x. length x.1.now < length tokens.now) }
{
    let (reg, rest) = read_register(tokens, Part::Operand)?;
    let rest = mark(rest, Mark::Comma, Part::Operand)?;
    read_compared_with(reg, rest)
}

/// The operands of an instruction with this mnemonic.
fn read_operands<'t>(
    mnemonic: Mnemonic,
    tokens: &'t [Token],
) -> Result<(Code<'t>, &'t [Token]), Refusal>
    ensures gives { Gives (λ x. (code_view x.0, toks x.1.now)) result (operands_at mnemonic (toks tokens.now)) }
    ensures no_longer { IfOk result (λ x. length x.1.now ≤ length tokens.now) }
{
    match mnemonic {
        Mnemonic::Mov => read_move(tokens),
        Mnemonic::Xchg => read_exchange(tokens),
        Mnemonic::Mfence => Ok((Code::Fence, tokens)),
        Mnemonic::Cmp => read_compare(tokens),
        Mnemonic::Je => {
            let (label, rest) = word(tokens, Part::Operand)?;
            Ok((Code::Je(label), rest))
        }
        Mnemonic::Jne => {
            let (label, rest) = word(tokens, Part::Operand)?;
            Ok((Code::Jne(label), rest))
        }
        Mnemonic::Jmp => {
            let (label, rest) = word(tokens, Part::Operand)?;
            Ok((Code::Jmp(label), rest))
        }
    }
}

/// The refusal of a word with which no instruction begins. Where the text ends it may still become a label.
fn no_mnemonic(tokens: &[Token], rest: &[Token]) -> Refusal {
    let behind = refused(rest, Part::Instruction);
    if behind.part == Part::Ended {
        behind
    } else {
        refused(tokens, Part::Instruction)
    }
}

/// An instruction.
#[tactic(auto, unfolding(crate::specs::Reading::code_at))]
pub fn read_code<'t>(tokens: &'t [Token]) -> Result<(Code<'t>, &'t [Token]), Refusal>
    ensures gives { Gives (λ x. (code_view x.0, toks x.1.now)) result (code_at (toks tokens.now)) }
    ensures shorter { IfOk result (λ x. length x.1.now < length tokens.now) }
{
    let (first, rest) = word(tokens, Part::Instruction)?;
    match mnemonic_of(first) {
        Some(mnemonic) => read_operands(mnemonic, rest),
        None => Err(no_mnemonic(tokens, rest)),
    }
}
