//! What is printed, and what is written to files.

ghost use Rattle.std.specs.Prelude.{◌≡◌, ◌⊎◌, IfErr, IsSome, OnErr, OnOk, option_map};
ghost use Rattle.program_streams.specs.Streams.{Prints};
ghost use Rattle.answers.specs.Deliveries.{HoldsFile, HoldsFiles, KeepFiles, KeepFilesBut, IsDelivered};

use crate::refused::tell_refusal;
use messages::unwritten_message;
use paged_text::Pages;
use program_streams::{Console, FileFault, WritableFileStore, file_line, print};
use std::alloc::Global;

/// What is printed, with its status, and what is written to each of two files, where it is named.
#[derive(Drop)]
pub struct Answer {
    pub lines: Vec<u8>,
    pub status: u8,
    /// Whether a refusal to write is printed as a document.
    pub json: bool,
    pub first: Pages,
    pub second: Pages,
}

/// Writes a text to its file, where one is named.
pub(crate) fn keep_file<S: WritableFileStore>(
    files: &mut S,
    name: Option<&str>,
    text: &Pages,
) -> Result<(), FileFault>
    ensures kept { OnOk result (HoldsFile (option_map (λ name. name.now) name.entry) (S.held files.new) text.now) }
    ensures others { KeepFiles (option_map (λ name. name.now) name.entry) (S.held files.old) (S.held files.new) }
    ensures named { OnErr result (IsSome (option_map (λ name. name.now) name.entry)) }
    ensures fault { IfErr result (λ fault. fault ≡ FileFault.Write) }
{
    match name {
        Some(name) => files.write_file(name, text),
        None => Ok(()),
    }
}

/// Writes two texts to their files, where these are named. The error is the name of a file that can't be written.
fn keep_files<'a, S: WritableFileStore>(
    files: &mut S,
    first: Option<&'a str>,
    second: Option<&'a str>,
    answer: &Answer,
) -> Result<(), Option<&'a str>>
    ensures kept { OnOk result (HoldsFiles (option_map (λ name. name.now) first.entry) (option_map (λ name. name.now) second.entry) (S.held files.new) answer.now) }
    ensures others { KeepFilesBut (option_map (λ name. name.now) first.entry) (option_map (λ name. name.now) second.entry) (S.held files.old) (S.held files.new) }
    ensures named { OnErr result (IsSome (option_map (λ name. name.now) first.entry) ⊎ IsSome (option_map (λ name. name.now) second.entry)) }
{
    match keep_file(files, first, &answer.first) {
        Ok(()) => match keep_file(files, second, &answer.second) {
            Ok(()) => Ok(()),
            Err(_) => Err(second),
        },
        Err(_) => Err(first),
    }
}

/// Writes both texts to the files that are named, then prints the lines, and returns the status. Where a file can't be
/// written, it prints that refusal, with status 1.
pub fn deliver<S: WritableFileStore, W: Console>(
    alloc: Global,
    files: &mut S,
    first: Option<&str>,
    second: Option<&str>,
    answer: Answer,
    output: &mut W,
) -> u8
    ensures told { Prints (IsDelivered (option_map (λ name. name.now) first.entry) (option_map (λ name. name.now) second.entry) (S.held files.new) answer) (W.contents output.old) (W.contents output.new) result }
    ensures others { KeepFilesBut (option_map (λ name. name.now) first.entry) (option_map (λ name. name.now) second.entry) (S.held files.old) (S.held files.new) }
{
    match keep_files(files, first, second, &answer) {
        Ok(()) => {
            let Answer { lines, status, .. } = answer;
            print(output, Ok(lines), status)
        }
        Err(name) => {
            let message = unwritten_message(alloc, name.unwrap_or(""));
            tell_refusal(
                alloc,
                answer.json,
                file_line(alloc, FileFault::Write),
                message,
                output,
            )
        }
    }
}
