//! What is said to people on standard error: of a refusal, of a slip, of arguments that are no command, and where fences go.

ghost use Rattle.std.specs.Prelude.{◌≡◌};

use crate::inserted::Unkept;
use crate::refusals::AnswerFault;
use fencer_words::{Placement, option_hint};
use gap_list::{TextLines, fence_notes};
use gap_sets::GapSet;
use litmus_text::{ReadFault, read_litmus};
use messages::{
    Message, Source, command_hint, fence_message, file_or_input, litmus_message, replay_message,
    run_message, unread_message, unwritten_message,
};
use program_streams::{Console, FileFault, FileStore, TEXT_LIMIT, UnreadFile};
use slips::first_slip;
use std::alloc::{AllocError, Global};
use tso_program::ShownKind;

/// What an answer is asked about: the text of a litmus file, and labels where there are any.
#[derive(Clone, Copy)]
pub struct AskedText<'a> {
    pub name: &'a str,
    pub text: &'a [u8],
    pub labels: &'a [String],
}

/// A text that is not read.
pub(crate) fn unread_text<'a>(name: &'a str, fault: FileFault) -> UnreadFile<'a>
    ensures { result.fault ≡ fault }
{
    let limit = TEXT_LIMIT;
    UnreadFile { name, limit, fault }
}

/// A litmus text that is not read, of a file or of the input.
pub fn unread_litmus<'a>(name: &'a str, fault: FileFault) -> UnreadFile<'a>
    ensures { result.fault ≡ fault }
{
    unread_text(file_or_input(name), fault)
}

/// Why a file is not read.
pub fn unread_advice<S: FileStore>(
    alloc: Global,
    files: &S,
    file: UnreadFile<'_>,
) -> Result<Message, AllocError> {
    unread_message(alloc, file, files.obstacle(file.name))
}

/// Why there is no answer.
pub(crate) fn refusal_advice(
    alloc: Global,
    subject: AskedText<'_>,
    why: AnswerFault,
) -> Result<Message, AllocError> {
    let AskedText { name, text, labels } = subject;
    match why {
        AnswerFault::Litmus(fault) => litmus_message(alloc, Source::new(name, text), fault),
        AnswerFault::Run(fault) => run_message(alloc, name, labels, fault),
        AnswerFault::Replay(fault) => replay_message(alloc, name, labels, fault),
        AnswerFault::NoSuchGap(thread, instruction) => {
            fence_message(alloc, name, (thread, instruction), text)
        }
        AnswerFault::Solve(fault) => {
            let text = format!(in alloc; "{fault}")?;
            Message::of_file(alloc, name, text.as_str())
        }
    }
}

const NOT_INSERTED: &str =
    "this text with its fences is not read as the fenced program; --output writes that program";

/// Why a litmus text with the fences put in is not written.
pub fn unkept_advice(
    alloc: Global,
    asked: &Placement,
    fault: Unkept,
) -> Result<Message, AllocError> {
    match fault {
        Unkept::NotInserted => {
            Message::of_file(alloc, file_or_input(asked.litmus.as_str()), NOT_INSERTED)
        }
        Unkept::Unwritten => unwritten_message(alloc, asked.insert.as_deref().unwrap_or("")),
    }
}

/// Says what arguments may mean that are no command.
pub fn tell_hint<W: Console>(alloc: Global, words: &[String], output: &mut W)
    ensures { W.contents output.new ≡ W.contents output.old }
{
    output.tell(hint_advice(alloc, words));
}

/// What arguments may mean that are no command, or which commands take an option that theirs lacks; nothing where neither
/// is known.
fn hint_advice(alloc: Global, words: &[String]) -> Result<Vec<u8>, AllocError> {
    let meant = command_hint(alloc, words)?;
    let option = option_hint(alloc, words)?;
    if !meant.is_empty() || option.is_empty() {
        return Ok(meant);
    }
    Message::of_file(alloc, "fencer", option.as_str())?.written(alloc, false)
}

/// What is said of the first slip that a litmus text may have, and nothing if there is none.
pub fn slip_advice(
    alloc: Global,
    litmus: &str,
    text: &[u8],
    condition_counts: bool,
    on_terminal: bool,
) -> Result<Vec<u8>, AllocError> {
    let source = Source::new(file_or_input(litmus), text);
    match first_slip(alloc, source, condition_counts)? {
        Some(slip) => slip.message.written(alloc, on_terminal),
        None => Ok(Vec::new(alloc)),
    }
}

/// Says what may be a slip in a litmus text, if anything: first a name in the condition that no instruction uses.
pub fn tell_slip<W: Console>(alloc: Global, litmus: &str, text: &[u8], output: &mut W)
    ensures { W.contents output.new ≡ W.contents output.old }
{
    let on_terminal = output.progress().is_shown();
    output.tell(slip_advice(alloc, litmus, text, true, on_terminal));
}

/// Says what may be a slip in a litmus text, if anything; a name in the condition counts with `--condition` and
/// `--observed` alone.
pub fn tell_slip_compared<W: Console>(alloc: Global, asked: &Placement, text: &[u8], output: &mut W)
    ensures { W.contents output.new ≡ W.contents output.old }
{
    let condition_counts = !matches!(asked.kind, ShownKind::Whole);
    let on_terminal = output.progress().is_shown();
    let litmus = asked.litmus.as_str();
    output.tell(slip_advice(alloc, litmus, text, condition_counts, on_terminal));
}

/// The lines of these gaps of a litmus text; none of a text that is not read.
fn fences_advice(alloc: Global, text: &[u8], gaps: &GapSet) -> Result<Vec<u8>, AllocError> {
    let lines = TextLines::of_text(alloc, text)?;
    match read_litmus(alloc, text) {
        Ok(litmus) => fence_notes(alloc, &lines, &litmus, gaps),
        Err(ReadFault::OutOfMemory) => Err(AllocError),
        Err(_) => Ok(Vec::new(alloc)),
    }
}

/// Says on a terminal in which lines of a litmus text the fences of these gaps go, and before which instructions, unless
/// the status is that of an answer that is not printed.
pub fn tell_fences<W: Console>(
    alloc: Global,
    text: &[u8],
    gaps: &GapSet,
    status: u8,
    output: &mut W,
)
    ensures { W.contents output.new ≡ W.contents output.old }
{
    if status != 1 && output.progress().is_shown() {
        output.tell(fences_advice(alloc, text, gaps));
    }
}
