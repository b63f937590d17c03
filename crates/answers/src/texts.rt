//! The texts of a program and of its costs.

ghost use Rattle.std.specs.Prelude.{IfErr, IfOk, option_map};
ghost use Rattle.program_streams.specs.Files.{ReadsOfInput};
ghost use Rattle.answers.specs.InputTexts.{AreTexts, HasNoTexts};

use crate::advice::{unread_litmus, unread_text};
use program_streams::{FileStore, TEXT_LIMIT, UnreadFile, bytes_if_named, named_bytes};
use std::alloc::Global;
use std::io::Read;

/// The text of a litmus file, and that of a cost file where one is named.
#[derive(Drop)]
pub struct Texts {
    pub litmus: Vec<u8>,
    pub costs: Option<Vec<u8>>,
}

/// The texts of a litmus file, which is read first, and of a cost file, where one is named.
pub fn read_texts<'a, S: FileStore, R: Read>(
    alloc: Global,
    files: &S,
    litmus: &'a str,
    costs: Option<&'a str>,
    input: &mut R,
) -> Result<Texts, UnreadFile<'a>>
    ensures texts { IfOk result (λ texts. AreTexts litmus.now (option_map (λ name. name.now) costs.entry) (R.remaining input.old) (S.held files.now) texts.litmus.items (option_map (λ text. text.items) texts.costs)) }
    ensures err { IfErr result (λ file. HasNoTexts litmus.now (option_map (λ name. name.now) costs.entry) (R.remaining input.old) (S.held files.now) file.fault) }
    ensures read { ReadsOfInput TEXT_LIMIT litmus.now (R.remaining input.old) (R.remaining input.new) }
{
    let text = match named_bytes(alloc, files, litmus, input, TEXT_LIMIT) {
        Ok(bytes) => bytes,
        Err(fault) => return Err(unread_litmus(litmus, fault)),
    };
    match bytes_if_named(alloc, files, costs, TEXT_LIMIT) {
        Ok(bytes) => Ok(Texts {
            litmus: text,
            costs: bytes,
        }),
        Err(fault) => Err(unread_text(costs.unwrap_or(""), fault)),
    }
}
