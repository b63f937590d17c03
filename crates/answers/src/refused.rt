//! How a refusal is reported: its line or its document, and a message for people.

ghost use Rattle.std.specs.Prelude.{IfOk, IsOkAnd};
ghost use Rattle.program_streams.specs.Streams.{Prints};
ghost use Rattle.answers.specs.Refused.{PrintsRefusal, RefusalSays};

use documents::{RefusalMessage, refusal_document};
use messages::Message;
use program_streams::{Console, refuse};
use std::alloc::{AllocError, Global};

/// What a document says of a message. Of one that could not be made it says nothing.
pub fn said_of(message: &Result<Message, AllocError>) -> RefusalMessage<'_> {
    match message {
        Ok(message) => RefusalMessage {
            file: message.file.as_bytes(),
            line: message.line,
            column: message.column,
            word: message.word.as_bytes(),
            text: message.text.as_bytes(),
        },
        Err(_) => RefusalMessage {
            file: b"",
            line: None,
            column: None,
            word: b"",
            text: b"",
        },
    }
}

/// The message as one line, with the line of the text after it on a terminal.
pub fn written(
    alloc: Global,
    message: &Result<Message, AllocError>,
    on_terminal: bool,
) -> Result<Vec<u8>, AllocError> {
    match message {
        Ok(message) => message.written(alloc, on_terminal),
        Err(_) => Err(AllocError),
    }
}

/// The line of a refusal, or its document where that is asked for.
fn refusal_text(
    alloc: Global,
    json: bool,
    line: Result<Vec<u8>, AllocError>,
    message: &Result<Message, AllocError>,
) -> Result<Vec<u8>, AllocError>
    ensures { IfOk result (λ text. IsOkAnd line (λ line. RefusalSays json line.items text.items)) }
{
    match line {
        Ok(line) => {
            if json {
                refusal_document(alloc, &line, &said_of(message))
            } else {
                Ok(line)
            }
        }
        Err(fault) => Err(fault),
    }
}

/// Prints the line of a refusal, or its document where that is asked for, then says its message, and returns the
/// status, which is 1.
pub fn tell_refusal<W: Console>(
    alloc: Global,
    json: bool,
    line: Result<Vec<u8>, AllocError>,
    message: Result<Message, AllocError>,
    output: &mut W,
) -> u8
    ensures { Prints (PrintsRefusal json line) (W.contents output.old) (W.contents output.new) result }
{
    let text = refusal_text(alloc, json, line, &message);
    let told = written(alloc, &message, output.progress().is_shown());
    refuse(output, text, told)
}
