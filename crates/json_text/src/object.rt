//! Objects.
ghost use Rattle.std.specs.Prelude.{◌≡◌, ◌∷◌, ◌++◌, [], IfOk, OnOk};
ghost use Rattle.json_text.specs.Texts.{member, object_text};
ghost use Rattle.json_text.specs.Values.{IsJson};

use crate::escape::push_quoted;
use crate::json::JsonText;
use crate::listed::enclosed;
use std::alloc::{AllocError, Global};
use std::marker::Model;

/// An object that grows: contracts see the texts of its members.
#[derive(Drop)]
pub struct JsonObject {
    alloc: Global,
    members: Vec<Vec<u8>>,
}

impl Model for JsonObject {
    ghost use Rattle.std.specs.Prelude.{ℕ, List};
    ghost use Rattle.json_text.specs.Internal.Lists.{bytes_of_each};
    ghost use Rattle.json_text.specs.Values.{AreMembers};

    ghost Value = { List (List ℕ) };

    ghost view = { λ object. bytes_of_each object.members.items };

    ghost invariant = { λ object. AreMembers (bytes_of_each object.members.items) };
}

/// A name, and the text of its value.
fn member(alloc: Global, name: &str, value: &[u8]) -> Result<Vec<u8>, AllocError>
    ensures { IfOk result (λ text. text.items ≡ member name.now value.now) }
{
    let mut text = Vec::new(alloc);
    push_quoted(&mut text, name.as_bytes())?;
    text.push(b':')?;
    text.extend_from_slice(value)?;
    Ok(text)
}

impl JsonObject {
    /// The object of no members.
    pub fn new(alloc: Global) -> JsonObject
        ensures { result ≡ [] }
    {
        JsonObject {
            alloc,
            members: Vec::new(alloc),
        }
    }

    /// One more member. Its value is JSON, as each `JsonText` is.
    pub fn add(&mut self, name: &str, value: JsonText) -> Result<(), AllocError>
        ensures text { OnOk result (self.new ≡ self.old ++ member name.now value ∷ []) }
        ensures json { IsJson value }
    {
        let text = member(self.alloc, name, value.as_bytes())?;
        self.members.push(text)?;
        Ok(())
    }

    /// The object's text.
    pub fn into_json(self) -> Result<JsonText, AllocError>
        ensures { IfOk result (λ text. text ≡ object_text self) }
    {
        let bytes = enclosed(self.alloc, b'{', &self.members, b'}')?;
        Ok(JsonText { bytes })
    }
}
