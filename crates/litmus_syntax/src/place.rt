//! Locations and registers.

ghost use Rattle.std.specs.Prelude.{◌<◌, ◌≡◌, length, IfOk};
ghost use Rattle.text_tokens.specs.Tokens.{toks};
ghost use Rattle.litmus_syntax.specs.Words.{reg_of, opens_condition, joins_formula, is_name};
ghost use Rattle.litmus_syntax.specs.Views.{place_view};
ghost use Rattle.text_tokens.specs.Steps.{Gives};
ghost use Rattle.litmus_syntax.specs.Reading.{register_at, name_at, memory_at, thread_register_at, place_at, names_missing, place_among_at, equals_value_at};

use crate::fault::{Part, Refusal};
use crate::parts::{is_either, mark, number, refused, refused_number, word};
use text_tokens::{Mark, Token, begins, begins_number};
use tso_program::Reg;

/// What has a value: a location by its name, or a thread's register.
#[derive(Clone, Copy, Debug)]
pub enum Place<'t> {
    Location(&'t [u8]),
    Register(u32, Reg),
}

/// The register of this name, in capitals or small letters.
#[tactic(auto, unfolding(crate::specs::Words::reg_of))]
fn reg_of(word: &[u8]) -> Option<Reg>
    ensures { result ≡ reg_of word.now }
{
    if is_either(word, b"EAX", b"eax") {
        Some(Reg::Eax)
    } else if is_either(word, b"EBX", b"ebx") {
        Some(Reg::Ebx)
    } else if is_either(word, b"ECX", b"ecx") {
        Some(Reg::Ecx)
    } else if is_either(word, b"EDX", b"edx") {
        Some(Reg::Edx)
    } else if is_either(word, b"ESI", b"esi") {
        Some(Reg::Esi)
    } else if is_either(word, b"EDI", b"edi") {
        Some(Reg::Edi)
    } else {
        None
    }
}

/// Whether this is one of the words with which the part after the rows begins.
#[tactic(auto, unfolding(crate::specs::Words::opens_condition))]
pub fn opens_condition(word: &[u8]) -> bool
    ensures { result ≡ opens_condition word.now }
{
    word == b"locations".as_slice()
        || word == b"exists".as_slice()
        || word == b"forall".as_slice()
        || word == b"filter".as_slice()
}

/// Whether this is one of the words inside a formula.
#[tactic(auto, unfolding(crate::specs::Words::joins_formula))]
pub fn joins_formula(word: &[u8]) -> bool
    ensures { result ≡ joins_formula word.now }
{
    word == b"not".as_slice() || word == b"true".as_slice() || word == b"false".as_slice()
}

/// Whether a location may have this name.
#[tactic(auto, unfolding(crate::specs::Words::is_name))]
fn is_name(word: &[u8]) -> bool
    ensures { result ≡ is_name word.now }
{
    reg_of(word).is_none() && !opens_condition(word) && !joins_formula(word)
}

/// A location's name, where no number may stand.
pub fn read_name<'t>(tokens: &'t [Token], part: Part) -> Result<(&'t [u8], &'t [Token]), Refusal>
    ensures gives { Gives (λ x. (x.0.now, toks x.1.now)) result (name_at (toks tokens.now)) }
    ensures shorter { IfOk result (λ x. length x.1.now < length tokens.now) }
{
    let (name, rest) = word(tokens, part)?;
    if is_name(name) {
        Ok((name, rest))
    } else {
        Err(refused(tokens, part))
    }
}

/// A register's name.
pub fn read_register<'t>(tokens: &'t [Token], part: Part) -> Result<(Reg, &'t [Token]), Refusal>
    ensures gives { Gives (λ x. (x.0, toks x.1.now)) result (register_at (toks tokens.now)) }
    ensures shorter { IfOk result (λ x. length x.1.now < length tokens.now) }
{
    let (name, rest) = word(tokens, part)?;
    match reg_of(name) {
        Some(reg) => Ok((reg, rest)),
        None => Err(refused(tokens, part)),
    }
}

/// `[x]`
#[tactic(auto, unfolding(crate::specs::Reading::memory_at))]
pub fn read_memory<'t>(tokens: &'t [Token], part: Part) -> Result<(&'t [u8], &'t [Token]), Refusal>
    ensures gives { Gives (λ x. (x.0.now, toks x.1.now)) result (memory_at (toks tokens.now)) }
    ensures shorter { IfOk result (λ x. length x.1.now < length tokens.now) }
{
    let inside = mark(tokens, Mark::OpenBracket, part)?;
    let (name, rest) = read_name(inside, part)?;
    let rest = mark(rest, Mark::CloseBracket, part)?;
    Ok((name, rest))
}

/// `t:REG`
#[tactic(auto, unfolding(crate::specs::Reading::thread_register_at))]
fn read_thread_register<'t>(
    tokens: &'t [Token],
    part: Part,
) -> Result<(Place<'t>, &'t [Token]), Refusal>
    ensures gives { Gives (λ x. (place_view x.0, toks x.1.now)) result (thread_register_at (toks tokens.now)) }
    ensures shorter { IfOk result (λ x. length x.1.now < length tokens.now) }
{
    let (thread, rest) = number(tokens, part)?;
    let rest = mark(rest, Mark::Colon, part)?;
    let (reg, rest) = read_register(rest, part)?;
    Ok((Place::Register(thread, reg), rest))
}

/// `x`, where a number may stand.
fn read_plain_name<'t>(tokens: &'t [Token], part: Part) -> Result<(&'t [u8], &'t [Token]), Refusal>
    ensures gives { Gives (λ x. (x.0.now, toks x.1.now)) result (name_at (toks tokens.now)) }
    ensures shorter { IfOk result (λ x. length x.1.now < length tokens.now) }
{
    match read_name(tokens, part) {
        Ok(found) => Ok(found),
        Err(_) => Err(refused_number(tokens, part)),
    }
}

/// `x`, `[x]` or `t:REG`.
#[tactic(auto, unfolding(crate::specs::Reading::place_at))]
pub fn read_place<'t>(tokens: &'t [Token], part: Part) -> Result<(Place<'t>, &'t [Token]), Refusal>
    ensures gives { Gives (λ x. (place_view x.0, toks x.1.now)) result (place_at (toks tokens.now)) }
    ensures shorter { IfOk result (λ x. length x.1.now < length tokens.now) }
{
    if begins(tokens, Mark::OpenBracket) {
        let (name, rest) = read_memory(tokens, part)?;
        return Ok((Place::Location(name), rest));
    }
    if begins_number(tokens) {
        return read_thread_register(tokens, part);
    }
    let (name, rest) = read_plain_name(tokens, part)?;
    Ok((Place::Location(name), rest))
}

/// Whether a thread's register comes first, and there is no such thread.
fn names_missing(tokens: &[Token], threads: usize) -> bool
    ensures { result ≡ names_missing threads (toks tokens.now) }
{
    match text_tokens::number(tokens) {
        Some((thread, _)) => thread as usize >= threads,
        None => false,
    }
}

/// `x`, `[x]` or `t:REG` after the rows, where a thread that is not there is refused at its number.
#[tactic(auto, unfolding(crate::specs::Reading::place_among_at))]
pub fn read_place_among<'t>(
    tokens: &'t [Token],
    threads: usize,
) -> Result<(Place<'t>, &'t [Token]), Refusal>
    ensures gives { Gives (λ x. (place_view x.0, toks x.1.now)) result (place_among_at threads (toks tokens.now)) }
    ensures shorter { IfOk result (λ x. length x.1.now < length tokens.now) }
{
    if names_missing(tokens, threads) {
        return Err(refused(tokens, Part::Condition));
    }
    read_place(tokens, Part::Condition)
}

/// `=` and a number.
#[tactic(auto, unfolding(crate::specs::Reading::equals_value_at))]
pub fn read_value<'t>(tokens: &'t [Token], part: Part) -> Result<(u32, &'t [Token]), Refusal>
    ensures gives { Gives (λ x. (x.0, toks x.1.now)) result (equals_value_at (toks tokens.now)) }
    ensures shorter { IfOk result (λ x. length x.1.now < length tokens.now) }
{
    let rest = mark(tokens, Mark::Equals, part)?;
    number(rest, part)
}
