//! Refusals.
ghost use Rattle.std.specs.Prelude.{◌≡◌, ◌++◌, IfOk, OnOk};
ghost use Rattle.json_text.specs.Safe.{IsSafe};
ghost use Rattle.json_text.specs.Values.{IsJsonLine};
ghost use Rattle.documents.specs.Documents.{number_or_null, string_or_null, reason_of, refusal_text, remark_members, IsRefusalDocument};

use crate::document::{add_format, document_of};
use json_text::{JsonObject, JsonText};
use std::alloc::{AllocError, Global};

/// What is said about a refusal beside its line.
#[derive(Clone, Copy)]
pub struct RefusalMessage<'a> {
    /// The file's name.
    pub file: &'a [u8],
    /// The line, from 1, where one is known.
    pub line: Option<usize>,
    /// The column, from 1, where one is known.
    pub column: Option<usize>,
    /// The word that stands there, where one is meant.
    pub word: &'a [u8],
    /// What is wrong, and what could stand there.
    pub text: &'a [u8],
}

/// A number, if there is one.
pub(crate) fn number_or_null(alloc: Global, number: Option<usize>) -> Result<JsonText, AllocError>
    ensures { IfOk result (λ json. json ≡ number_or_null number) }
{
    match number {
        Some(number) => JsonText::number(alloc, number as u64),
        None => JsonText::null(alloc),
    }
}

/// A string, or none if it has no byte.
pub(crate) fn string_or_null(alloc: Global, text: &[u8]) -> Result<JsonText, AllocError>
    ensures { IfOk result (λ json. json ≡ string_or_null text.now) }
{
    if text.is_empty() {
        JsonText::null(alloc)
    } else {
        JsonText::string(alloc, text)
    }
}

/// What the line of a refusal says after `refused `, without its end.
fn reason_of(line: &[u8]) -> &[u8]
    ensures { result.now ≡ reason_of line.now }
{
    let start = line.len().min(8);
    let (_, rest) = line.split_at(start);
    let end = rest.len().saturating_sub(1);
    let (reason, _) = rest.split_at(end);
    reason
}

/// Adds what is said about a refusal.
fn add_message(
    alloc: Global,
    object: &mut JsonObject,
    message: &RefusalMessage<'_>,
) -> Result<(), AllocError>
    ensures { OnOk result (object.new ≡ object.old ++ remark_members (record { file = message.now.file.now; line = message.now.line; column = message.now.column; word = message.now.word.now; message = message.now.text.now })) }
{
    object.add("file", string_or_null(alloc, message.file)?)?;
    object.add("line", number_or_null(alloc, message.line)?)?;
    object.add("column", number_or_null(alloc, message.column)?)?;
    object.add("word", string_or_null(alloc, message.word)?)?;
    object.add("message", string_or_null(alloc, message.text)?)
}

/// The document of a refusal: the line of standard output without `refused ` and its end, and the parts of what is said about it.
pub fn refusal_document(
    alloc: Global,
    line: &[u8],
    message: &RefusalMessage<'_>,
) -> Result<Vec<u8>, AllocError>
    ensures text { IfOk result (λ document. document.items ≡ refusal_text line.now (record { file = message.now.file.now; line = message.now.line; column = message.now.column; word = message.now.word.now; message = message.now.text.now })) }
    ensures told { IfOk result (λ document. IsRefusalDocument line.now document.items) }
    ensures json { IfOk result (λ document. IsJsonLine document.items) }
    ensures safe { IfOk result (λ document. IsSafe document.items) }
{
    let mut object = JsonObject::new(alloc);
    add_format(alloc, &mut object)?;
    let reason = JsonText::string(alloc, reason_of(line))?;
    object.add("refused", reason)?;
    add_message(alloc, &mut object, message)?;
    document_of(object)
}
