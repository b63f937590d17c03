//! What is said to people of a refusal, on standard error.

ghost use Rattle.std.specs.Prelude.{◌≡◌};

use crate::command::{InputNames, JOINED};
use crate::judge::Rejection;
use messages::{
    Message, STDIN, Source, certificate_message, check_message, costs_message, file_or_input,
    litmus_message, misuse_line, unread_message,
};
use program_streams::{Console, FileFault, FileStore, UnreadFile};
use std::alloc::{AllocError, Global};

/// The texts that are judged, with the names of their files.
#[derive(Clone, Copy)]
pub(crate) struct JudgedTexts<'a> {
    pub(crate) names: InputNames<'a>,
    pub(crate) litmus: &'a [u8],
    pub(crate) certificate: &'a [u8],
    pub(crate) costs: Option<&'a [u8]>,
}

/// A file that is not read.
pub(crate) fn unread<'a>(name: &'a str, limit: usize, fault: FileFault) -> UnreadFile<'a>
    ensures { result.fault ≡ fault }
{
    UnreadFile { name, limit, fault }
}

/// Why a file is not read.
pub(crate) fn unread_advice<S: FileStore>(
    alloc: Global,
    files: &S,
    file: UnreadFile<'_>,
) -> Result<Vec<u8>, AllocError> {
    unread_message(alloc, file, files.obstacle(file.name))?.written(alloc, false)
}

/// Tells why arguments name no litmus file with its certificate; nothing of a call for help.
pub(crate) fn tell_misuse<W: Console>(alloc: Global, words: &[String], output: &mut W)
    ensures { W.contents output.new ≡ W.contents output.old }
{
    output.tell(misuse_line(alloc, words));
}

/// Why an input of a litmus text and a certificate is not read.
pub(crate) fn unread_input_advice(alloc: Global, fault: FileFault) -> Result<Vec<u8>, AllocError> {
    let text = match fault {
        FileFault::TooLong =>
            "has a litmus text or a certificate that is too long (docs/formats.md)",
        FileFault::Read | FileFault::Write => "cannot be read",
    };
    Message::of_file(alloc, STDIN, text)?.written(alloc, false)
}

/// The certificate; where it is read from the input it stands after the litmus text.
fn certificate_source<'a>(subject: &JudgedTexts<'a>) -> Source<'a> {
    if subject.names.certificate == JOINED.certificate {
        Source::after(STDIN, subject.litmus, subject.certificate)
    } else {
        Source::new(subject.names.certificate, subject.certificate)
    }
}

fn refusal_message(
    alloc: Global,
    subject: &JudgedTexts<'_>,
    why: &Rejection,
) -> Result<Message, AllocError> {
    match why {
        Rejection::Litmus(fault) => {
            let name = file_or_input(subject.names.litmus);
            litmus_message(alloc, Source::new(name, subject.litmus), *fault)
        }
        Rejection::Certificate(fault) => {
            certificate_message(alloc, certificate_source(subject), *fault)
        }
        Rejection::Costs(fault) => {
            let costs = subject.costs.unwrap_or(b"");
            let source = Source::new(subject.names.costs.unwrap_or(""), costs);
            costs_message(alloc, source, *fault, subject.litmus)
        }
        Rejection::Check(fault) => check_message(alloc, certificate_source(subject), fault),
    }
}

/// Why a certificate isn't accepted; on a terminal with the line of the text.
pub(crate) fn refusal_advice(
    alloc: Global,
    subject: JudgedTexts<'_>,
    why: &Rejection,
    on_terminal: bool,
) -> Result<Vec<u8>, AllocError> {
    refusal_message(alloc, &subject, why)?.written(alloc, on_terminal)
}
