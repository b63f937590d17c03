//! Texts of values.
ghost use Rattle.std.specs.Prelude.{◌≡◌, IfOk};
ghost use Rattle.std.specs.Fmt.{decimal};
ghost use Rattle.json_text.specs.Safe.{IsSafe};
ghost use Rattle.json_text.specs.Texts.{quoted, null_text, truth_text};
ghost use Rattle.json_text.specs.Values.{IsJson};

use crate::escape::push_quoted;
use std::alloc::{AllocError, Global};
use std::marker::Model;

/// The text of a value: without a space between its parts, and with no byte that is `<`.
#[derive(Drop)]
pub struct JsonText {
    pub(crate) bytes: Vec<u8>,
}

impl Model for JsonText {
    ghost use Rattle.std.specs.Prelude.{ℕ, List};
    ghost use Rattle.json_text.specs.Values.{IsJson};

    ghost Value = { List ℕ };

    ghost view = { λ text. text.bytes.items };

    ghost invariant = { λ text. IsJson text.bytes.items };
}

/// A word.
fn word(value: bool) -> &'static [u8]
    ensures { result.now ≡ truth_text value }
{
    if value { b"true" } else { b"false" }
}

/// The digits of a number.
fn digits(alloc: Global, value: u64) -> Result<Vec<u8>, AllocError>
    ensures { IfOk result (λ text. text.items ≡ decimal value) }
{
    Ok(format!(in alloc; "{value}")?.into_bytes())
}

/// A string.
fn string(alloc: Global, text: &[u8]) -> Result<Vec<u8>, AllocError>
    ensures { IfOk result (λ out. out.items ≡ quoted text.now) }
{
    let mut out = Vec::new(alloc);
    push_quoted(&mut out, text)?;
    Ok(out)
}

impl JsonText {
    /// The value that says that there is none.
    pub fn null(alloc: Global) -> Result<JsonText, AllocError>
        ensures { IfOk result (λ text. text ≡ null_text) }
    {
        let bytes = Vec::from_slice(alloc, b"null")?;
        Ok(JsonText { bytes })
    }

    /// True or false.
    pub fn truth(alloc: Global, value: bool) -> Result<JsonText, AllocError>
        ensures { IfOk result (λ text. text ≡ truth_text value) }
    {
        let bytes = Vec::from_slice(alloc, word(value))?;
        Ok(JsonText { bytes })
    }

    /// A number.
    pub fn number(alloc: Global, value: u64) -> Result<JsonText, AllocError>
        ensures { IfOk result (λ text. text ≡ decimal value) }
    {
        let bytes = digits(alloc, value)?;
        Ok(JsonText { bytes })
    }

    /// A string of these bytes.
    pub fn string(alloc: Global, text: &[u8]) -> Result<JsonText, AllocError>
        ensures { IfOk result (λ json. json ≡ quoted text.now) }
    {
        let bytes = string(alloc, text)?;
        Ok(JsonText { bytes })
    }

    /// The text's bytes.
    pub fn as_bytes(&self) -> &[u8]
        ensures text { result.now ≡ self.now }
        ensures json { IsJson self.now }
        ensures safe { IsSafe self.now }
    {
        self.bytes.as_slice()
    }

    /// The text's bytes.
    pub fn into_bytes(self) -> Vec<u8>
        ensures text { result.items ≡ self }
        ensures json { IsJson self }
        ensures safe { IsSafe self }
    {
        self.bytes
    }
}
