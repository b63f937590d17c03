//! The first slip of a text.

use crate::idle_jumps::idle_jump;
use crate::idle_names::idle_name_of;
use crate::idle_registers::idle_register;
use crate::near_names::near_name_of;
use crate::unwritten_locations::unwritten_location;
use litmus_lines::PlacedTokens;
use litmus_reader::{Litmus, NameTable, read_litmus};
use litmus_syntax::{Body, read_body};
use messages::{Message, Source};
use std::alloc::{AllocError, Global};
use tso_program::Program;

/// What a slip is.
#[derive(Clone, Copy)]
pub enum SlipKind {
    /// The condition names what no instruction uses.
    UnusedName,
    /// A JE or JNE stands before any CMP of its thread.
    JumpBeforeCmp,
    /// A register is compared, and nothing of its thread writes it.
    UnwrittenRegister,
    /// A location stands nowhere else, and its name is close to that of another one.
    LoneName,
    /// A location is read, and nothing writes it.
    UnwrittenLocation,
}

/// What an author may not have meant, and what is said of it.
#[derive(Drop)]
pub struct Slip {
    pub kind: SlipKind,
    pub message: Message,
}

/// What is said of a token, after the token itself.
#[derive(Clone, Copy)]
pub(crate) struct Remark {
    pub(crate) kind: SlipKind,
    /// How many tokens are left there, this one included.
    pub(crate) left: usize,
    pub(crate) said: &'static str,
}

/// The first slip that a litmus text may have: where its condition counts, a name there that no instruction uses; else a
/// JE or JNE before any CMP of its thread; else a compared register that nothing writes; else a location whose name
/// stands once and is close to another's; else a location that is read and that nothing writes. `None` if there is none, or
/// the text is not read.
pub fn first_slip(
    alloc: Global,
    source: Source<'_>,
    condition_counts: bool,
) -> Result<Option<Slip>, AllocError> {
    match read_litmus(alloc, source.text) {
        Ok(litmus) => litmus_slip(alloc, source, condition_counts, &litmus),
        Err(_) => Ok(None),
    }
}

/// The first slip of a litmus test.
fn litmus_slip(
    alloc: Global,
    source: Source<'_>,
    condition_counts: bool,
    litmus: &Litmus<Program>,
) -> Result<Option<Slip>, AllocError> {
    if condition_counts {
        if let Some(message) = idle_name_of(alloc, source.name, litmus)? {
            let kind = SlipKind::UnusedName;
            return Ok(Some(Slip { kind, message }));
        }
    }
    program_slip(alloc, source, &litmus.names)
}

/// The first slip in the program, of which the condition is no part, by the names of the text.
fn program_slip(
    alloc: Global,
    source: Source<'_>,
    names: &NameTable,
) -> Result<Option<Slip>, AllocError> {
    let tokens = PlacedTokens::of(alloc, source.text)?;
    match read_body(alloc, tokens.as_slice()) {
        Ok((body, _)) => body_slip(alloc, source, names, &tokens, &body),
        Err(_) => Ok(None),
    }
}

/// The first slip in the program of a text with these names, which was read of these tokens.
fn body_slip(
    alloc: Global,
    source: Source<'_>,
    names: &NameTable,
    tokens: &PlacedTokens<'_>,
    body: &Body<'_>,
) -> Result<Option<Slip>, AllocError> {
    if let Some(remark) = idle_code(body) {
        return remark_slip(alloc, source, tokens, remark);
    }
    if let Some(message) = near_name_of(alloc, source, names)? {
        let kind = SlipKind::LoneName;
        return Ok(Some(Slip { kind, message }));
    }
    match unwritten_location(body) {
        Some(remark) => remark_slip(alloc, source, tokens, remark),
        None => Ok(None),
    }
}

/// The slip of which this is said.
fn remark_slip(
    alloc: Global,
    source: Source<'_>,
    tokens: &PlacedTokens<'_>,
    remark: Remark,
) -> Result<Option<Slip>, AllocError> {
    let Remark { kind, left, said } = remark;
    let message = Message::at_token(alloc, source, tokens, left, said)?;
    Ok(Some(Slip { kind, message }))
}

fn idle_code(body: &Body<'_>) -> Option<Remark> {
    match idle_jump(body.rows.as_slice(), body.threads) {
        Some(remark) => Some(remark),
        None => idle_register(body),
    }
}
