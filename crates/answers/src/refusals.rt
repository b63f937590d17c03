//! Why there is no answer, and how an answer is printed.

ghost use Rattle.std.specs.Prelude.{◌≡◌, IfOk, string_bytes};
ghost use Rattle.program_streams.specs.Streams.{Prints};
ghost use Rattle.answers.specs.declared.refusals.AnswerFault.TheVariants as answer_fault;
ghost use Rattle.answers.specs.Refusals.{no_gap_line, no_gap_text, refusal_line, solve_line, IsTold};

use crate::advice::{AskedText, refusal_advice};
use crate::refused::tell_refusal;
use litmus_text::ReadFault;
use oracle::SolveFault;
use program_streams::{Console, print};
use report::{litmus_line, replay_line, run_line};
use std::alloc::{AllocError, Global};
use tso_machine::{ReplayFault, RunFault};

/// Why there is no answer.
#[derive(Clone, Copy)]
pub enum AnswerFault {
    /// The text isn't a litmus text.
    Litmus(ReadFault),
    /// The labels aren't those of a run.
    Run(RunFault),
    /// The labels aren't a run of the program.
    Replay(ReplayFault),
    /// The program has no gap at this place: before this instruction of this thread.
    NoSuchGap(u8, u8),
    /// The outcomes of the program aren't found.
    Solve(SolveFault),
}

impl From<ReadFault> for AnswerFault {
    ghost from_gives = { λ fault why. why ≡ answer_fault.Litmus fault };

    fn from(fault: ReadFault) -> AnswerFault {
        AnswerFault::Litmus(fault)
    }
}

impl From<RunFault> for AnswerFault {
    ghost from_gives = { λ fault why. why ≡ answer_fault.Run fault };

    fn from(fault: RunFault) -> AnswerFault {
        AnswerFault::Run(fault)
    }
}

impl From<ReplayFault> for AnswerFault {
    ghost from_gives = { λ fault why. why ≡ answer_fault.Replay fault };

    fn from(fault: ReplayFault) -> AnswerFault {
        AnswerFault::Replay(fault)
    }
}

impl From<SolveFault> for AnswerFault {
    ghost from_gives = { λ fault why. why ≡ answer_fault.Solve fault };

    fn from(fault: SolveFault) -> AnswerFault {
        AnswerFault::Solve(fault)
    }
}

/// The line of a refusal to list outcomes.
pub fn solve_line(alloc: Global, fault: SolveFault) -> Result<Vec<u8>, AllocError>
    ensures { IfOk result (λ line. line.items ≡ solve_line fault) }
{
    match fault {
        SolveFault::NoRun => Vec::from_slice(alloc, b"refused solve 1 NoRun\n"),
        SolveFault::OutOfMemory => Vec::from_slice(alloc, b"refused solve 2 OutOfMemory\n"),
    }
}

/// The text of the refusal of a place without a gap, after `refused `.
fn no_gap_text(alloc: Global, thread: u8, instruction: u8) -> Result<String, AllocError>
    ensures { IfOk result (λ text. string_bytes text ≡ no_gap_text thread instruction) }
{
    format!(in alloc; "fences 1 NoSuchGap {thread}:{instruction}")
}

/// The line that refuses a place without a gap.
pub fn no_gap_line(alloc: Global, thread: u8, instruction: u8) -> Result<Vec<u8>, AllocError>
    ensures { IfOk result (λ line. line.items ≡ no_gap_line thread instruction) }
{
    let what = no_gap_text(alloc, thread, instruction)?;
    let what = what.as_str();
    Ok(format!(in alloc; "refused {what}\n")?.into_bytes())
}

/// The line of a refusal.
pub(crate) fn refusal_line(alloc: Global, why: AnswerFault) -> Result<Vec<u8>, AllocError>
    ensures { IfOk result (λ line. line.items ≡ refusal_line why) }
{
    match why {
        AnswerFault::Litmus(fault) => litmus_line(alloc, fault),
        AnswerFault::Run(fault) => run_line(alloc, fault),
        AnswerFault::Replay(fault) => replay_line(alloc, fault),
        AnswerFault::NoSuchGap(thread, instruction) => no_gap_line(alloc, thread, instruction),
        AnswerFault::Solve(fault) => solve_line(alloc, fault),
    }
}

/// The lines of an answer, with their status.
#[derive(Drop)]
pub struct Reply {
    pub lines: Vec<u8>,
    pub status: u8,
}

/// Prints the lines of an answer to what is asked, or why there is no answer, as a document where that is asked for, and
/// returns the status.
pub fn print_answer<W: Console>(
    alloc: Global,
    json: bool,
    subject: AskedText<'_>,
    answer: Result<Reply, AnswerFault>,
    output: &mut W,
) -> u8
    ensures { Prints (IsTold json answer) (W.contents output.old) (W.contents output.new) result }
{
    match answer {
        Ok(reply) => print(output, Ok(reply.lines), reply.status),
        Err(why) => {
            let message = refusal_advice(alloc, subject, why);
            tell_refusal(alloc, json, refusal_line(alloc, why), message, output)
        }
    }
}
