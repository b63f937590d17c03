//! Reading a litmus text.
ghost use Rattle.std.specs.Prelude.{◌≡◌, ℕ, List, length, IfOk, IfErr, IfNone, IfSome, OnOk, IsErrOf, MatchResult};
ghost use Rattle.std.specs.Str.{IsUtf8};
ghost use Rattle.tso_program.specs.declared.listing.Listing.{Listing};
ghost use Rattle.litmus_reader.specs.declared.litmus.Litmus.{Litmus as LitmusValue};
ghost use Rattle.litmus_reader.specs.declared.fault.ReadFault.{ReadFault as Fault, TheVariants.OutOfMemory};
ghost use Rattle.text_tokens.specs.Tokens.{Tok, toks};
ghost use Rattle.litmus_syntax.specs.Views.{body_view, ending_view};
ghost use Rattle.litmus_reader.specs.Fronts.{IsNotUtf8, RefusesFront};
ghost use Rattle.litmus_reader.specs.Labels.{all_labels, JumpsAreFound};
ghost use Rattle.litmus_reader.specs.Internal.Filling.{byte_in, byte_at, listing_by};
ghost use Rattle.litmus_reader.specs.Texts.{HaveParts, IsLitmus, IsFencedLitmus, Refuses, RefusesFenced};
ghost use Rattle.litmus_reader.specs.Internal.Reading.{Found, IfRefused, IsSyntaxFault, ReadsParts, ReadsTokens, ReadsText};

use crate::condition::read_formula;
use crate::fault::ReadFault;
use crate::jumps::{lost_jump, targets_of};
use crate::label::{CodeLabel, all_labels};
use crate::lines::{fault_at, header_line};
use crate::litmus::Litmus;
use crate::names::NameTable;
use crate::noted_names::names_of;
use crate::observed::all_observed;
use crate::program::{fenced_program_of, listing_of, program_of};
use conditions::Condition;
use litmus_lines::{line_number, read_first_line, skip_lines};
use litmus_syntax::{Body, Ending, Part, Refusal, SyntaxFault, read_body, read_ending};
use std::alloc::{AllocError, Global};
use std::str;
use text_tokens::{Token, Tokens, lex};
use tso_program::{FencedProgram, Items, Listing, Program};

/// Whether the bytes are UTF-8; if not, the line of the first that isn't.
fn check_utf8(bytes: &[u8]) -> Result<(), ReadFault>
    ensures ok { OnOk result (IsUtf8 bytes.now) }
    ensures err { IfErr result (IsNotUtf8 bytes.now) }
{
    match str::from_utf8(bytes) {
        Ok(_) => Ok(()),
        Err(error) => Err(ReadFault::NotUtf8(line_number(bytes, error.valid_up_to()))),
    }
}

/// The fault of tokens that could not be read.
fn syntax_fault(tokens: &Tokens, fault: SyntaxFault) -> ReadFault
    ensures { IsSyntaxFault fault result }
{
    match fault {
        SyntaxFault::Refused(refusal) => fault_at(tokens, refusal),
        SyntaxFault::OutOfMemory => ReadFault::OutOfMemory,
    }
}

/// The program of a text with these labels. A jump to a name that is no label of its thread is refused, the first in text
/// order.
fn jumping(
    alloc: Global,
    names: &NameTable,
    body: &Body<'_>,
    labels: &[Items<CodeLabel>],
) -> Result<Listing, SyntaxFault>
    requires { labels.now ≡ all_labels (body_view body.now) }
    ensures made { IfOk result (λ listing. listing ≡ listing_by (byte_in names.now.locations) byte_at (length names.now.locations) (body_view body.now)) }
    ensures found { OnOk result (JumpsAreFound (body_view body.now)) }
    ensures lost { IfErr result (λ fault. IfRefused fault (JumpsAreFound (body_view body.now) → ⊥)) }
{
    let targets = targets_of(alloc, labels)?;
    if let Some(left) = lost_jump(targets.as_slice(), body.rows.as_slice()) {
        let part = Part::Label;
        return Err(SyntaxFault::Refused(Refusal { part, left }));
    }
    Ok(listing_of(alloc, names, targets.as_slice(), body)?)
}

/// What a body and an ending stand for, in a text of the given name, by all tokens of which they were read.
fn litmus_of(
    alloc: Global,
    name: Items<u8>,
    body: &Body<'_>,
    ending: &Ending<'_>,
) -> Result<Litmus<Listing>, SyntaxFault>
    ensures { (tokens : List Tok) → Found tokens (body_view body.now) ending.now.signs.refusal (ending_view ending.now) → ReadsParts name tokens result }
{
    let names = names_of(alloc, body, ending)?;
    let formula = read_formula(alloc, &names, &ending.signs)?;
    let labels = all_labels(alloc, body)?;
    let program = jumping(alloc, &names, body, labels.as_slice())?;
    let observed = all_observed(alloc, &names, ending.observed.as_slice())?;
    Ok(Litmus {
        name,
        program,
        names,
        condition: Condition {
            quantifier: ending.quantifier,
            formula,
        },
        observed: Items::of(observed),
        labels: Items::of(labels),
    })
}

/// What the tokens from `{` on stand for, in a text of the given name, whatever limits the program breaks. Locations have
/// the number 255 from the 256th on, and so have positions of labels.
fn read_parts(
    alloc: Global,
    name: Items<u8>,
    tokens: &[Token],
) -> Result<Litmus<Listing>, SyntaxFault>
    ensures { ReadsParts name (toks tokens.now) result }
{
    let (body, rest) = read_body(alloc, tokens)?;
    let ending = read_ending(alloc, rest, body.threads)?;
    litmus_of(alloc, name, &body, &ending)
}

/// The first of the tokens from `{` on that can't stand where it does, as [`read_litmus`] judges it, and of a jump to a
/// name that is no label of its thread the mnemonic. The program may break limits.
pub fn refusal_of(alloc: Global, tokens: &[Token]) -> Result<Option<Refusal>, AllocError>
    ensures none { IfOk result (λ refusal. IfNone refusal (HaveParts (toks tokens.now))) }
    ensures some { IfOk result (λ refusal. IfSome refusal (λ _. HaveParts (toks tokens.now) → ⊥)) }
{
    match read_parts(alloc, Items::of(Vec::new(alloc)), tokens) {
        Ok(_) => Ok(None),
        Err(SyntaxFault::Refused(refusal)) => Ok(Some(refusal)),
        Err(SyntaxFault::OutOfMemory) => Err(AllocError),
    }
}

/// What the tokens from `{` on stand for, in a text of the given name. A fault has the line of the refused one.
fn read_tokens(
    alloc: Global,
    name: Items<u8>,
    tokens: &Tokens,
) -> Result<Litmus<Listing>, ReadFault>
    ensures { ReadsTokens name tokens.now result }
{
    match read_parts(alloc, name, tokens.as_slice()) {
        Ok(litmus) => Ok(litmus),
        Err(fault) => Err(syntax_fault(tokens, fault)),
    }
}

/// What a text stands for, whatever limits its program breaks, and the line of its header row.
fn read_text(alloc: Global, bytes: &[u8]) -> Result<(Litmus<Listing>, u32), ReadFault>
    ensures { ReadsText bytes.now result }
{
    check_utf8(bytes)?;
    let (name, lines) = read_first_line(bytes)?;
    let others = skip_lines(bytes, lines)?;
    let begin = line_number(bytes, bytes.len().saturating_sub(others.len()));
    let tokens = lex(alloc, others, begin)?;
    let name = Items::of(Vec::from_slice(alloc, name)?);
    let litmus = read_tokens(alloc, name, &tokens)?;
    Ok((litmus, header_line(&tokens)))
}

/// What a litmus text stands for.
///
/// The first byte that isn't UTF-8 comes before all. Then the text is read from left to right, and the first token that
/// cannot stand where it does is refused at its line; where the text stops and more is needed, that is `Ended` at the
/// line where it stops. Two faults are reported later than they stand, each with its own line: an initial value of a
/// thread that is not there, after the header row, and a jump to a name that is no label of its thread, after the
/// condition. Last comes `Program`, at the header row's line: the first limit that the program breaks. Out of memory is
/// reported wherever it happens.
pub fn read_litmus(alloc: Global, bytes: &[u8]) -> Result<Litmus<Program>, ReadFault>
    ensures found { IfOk result (λ litmus. IsLitmus bytes.now litmus) }
    ensures only { (litmus : LitmusValue Listing) → IsLitmus bytes.now litmus
        → MatchResult result (λ read. read ≡ litmus) (λ fault. fault ≡ OutOfMemory) }
    ensures front { (fault : Fault) → RefusesFront bytes.now fault → IsErrOf result fault }
    ensures refused { IfErr result (λ fault. Refuses bytes.now fault) }
{
    let (read, line) = read_text(alloc, bytes)?;
    Ok(Litmus {
        name: read.name,
        program: program_of(alloc, read.program, line)?,
        names: read.names,
        condition: read.condition,
        observed: read.observed,
        labels: read.labels,
    })
}

/// What a litmus text stands for whose program has its fences already: as [`read_litmus`], with the limits of a fenced
/// program.
pub fn read_fenced(alloc: Global, bytes: &[u8]) -> Result<Litmus<FencedProgram>, ReadFault>
    ensures found { IfOk result (λ litmus. IsFencedLitmus bytes.now litmus) }
    ensures only { (litmus : LitmusValue Listing) → IsFencedLitmus bytes.now litmus
        → MatchResult result (λ read. read ≡ litmus) (λ fault. fault ≡ OutOfMemory) }
    ensures front { (fault : Fault) → RefusesFront bytes.now fault → IsErrOf result fault }
    ensures refused { IfErr result (λ fault. RefusesFenced bytes.now fault) }
{
    let (read, line) = read_text(alloc, bytes)?;
    Ok(Litmus {
        name: read.name,
        program: fenced_program_of(alloc, read.program, line)?,
        names: read.names,
        condition: read.condition,
        observed: read.observed,
        labels: read.labels,
    })
}
