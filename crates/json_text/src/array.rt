//! Arrays.
ghost use Rattle.std.specs.Prelude.{◌≡◌, ◌∷◌, ◌++◌, [], IfOk, OnOk};
ghost use Rattle.json_text.specs.Texts.{array_text};

use crate::json::JsonText;
use crate::listed::enclosed;
use std::alloc::{AllocError, Global};
use std::marker::Model;

/// An array that grows: contracts see the texts of its items.
#[derive(Drop)]
pub struct JsonArray {
    alloc: Global,
    items: Vec<Vec<u8>>,
}

impl Model for JsonArray {
    ghost use Rattle.std.specs.Prelude.{ℕ, List};
    ghost use Rattle.json_text.specs.Internal.Lists.{bytes_of_each};
    ghost use Rattle.json_text.specs.Values.{AreJson};

    ghost Value = { List (List ℕ) };

    ghost view = { λ array. bytes_of_each array.items.items };

    ghost invariant = { λ array. AreJson (bytes_of_each array.items.items) };
}

impl JsonArray {
    /// The array of no items.
    pub fn new(alloc: Global) -> JsonArray
        ensures { result ≡ [] }
    {
        JsonArray {
            alloc,
            items: Vec::new(alloc),
        }
    }

    /// One more item.
    pub fn add(&mut self, item: JsonText) -> Result<(), AllocError>
        ensures { OnOk result (self.new ≡ self.old ++ item ∷ []) }
    {
        self.items.push(item.into_bytes())?;
        Ok(())
    }

    /// The array's text.
    pub fn into_json(self) -> Result<JsonText, AllocError>
        ensures { IfOk result (λ text. text ≡ array_text self) }
    {
        let bytes = enclosed(self.alloc, b'[', &self.items, b']')?;
        Ok(JsonText { bytes })
    }
}
