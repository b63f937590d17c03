//! The lines of refusals: the part that refuses, the fault's number and name, and where it shows.

ghost use Rattle.std.specs.Prelude.{◌≡◌, IfOk, string_bytes};
ghost use Rattle.report.specs.Faults.{refused, refused_at, litmus_line, program_line, program_text, costs_line, cost_fault_line, cost_text, run_line, replay_line};

use cost_text::CostTextFault;
use gap_sets::CostFault;
use litmus_reader::ReadFault;
use std::alloc::{AllocError, Global};
use tso_machine::{ReplayFault, RunFault};
use tso_program::ProgramFault;

/// Why a litmus text isn't read.
pub fn litmus_line(alloc: Global, fault: ReadFault) -> Result<Vec<u8>, AllocError>
    ensures { IfOk result (λ line. line.items ≡ litmus_line fault) }
{
    match fault {
        ReadFault::NotUtf8(line) => refused_at(alloc, "litmus 1 NotUtf8 line", line.into()),
        ReadFault::Header(line) => refused_at(alloc, "litmus 2 Header line", line.into()),
        ReadFault::Initial(line) => refused_at(alloc, "litmus 3 Initial line", line.into()),
        ReadFault::Row(line) => refused_at(alloc, "litmus 4 Row line", line.into()),
        ReadFault::Instruction(line) => refused_at(alloc, "litmus 5 Instruction line", line.into()),
        ReadFault::Operand(line) => refused_at(alloc, "litmus 6 Operand line", line.into()),
        ReadFault::Label(line) => refused_at(alloc, "litmus 7 Label line", line.into()),
        ReadFault::Condition(line) => refused_at(alloc, "litmus 8 Condition line", line.into()),
        ReadFault::Number(line) => refused_at(alloc, "litmus 9 Number line", line.into()),
        ReadFault::Ended(line) => refused_at(alloc, "litmus 10 Ended line", line.into()),
        ReadFault::Program(line, inner) => program_line(alloc, line, inner),
        ReadFault::OutOfMemory => refused(alloc, "litmus 12 OutOfMemory"),
    }
}

/// Why the program of a litmus text isn't within the limits.
fn program_line(alloc: Global, line: u32, fault: ProgramFault) -> Result<Vec<u8>, AllocError>
    ensures { IfOk result (λ text. text.items ≡ program_line line fault) }
{
    let inner = program_text(alloc, fault)?;
    let what = format!(in alloc; "litmus 11 Program line {line} {inner}")?;
    refused(alloc, what.as_str())
}

/// A program's refusal: its name and its numbers.
fn program_text(alloc: Global, fault: ProgramFault) -> Result<String, AllocError>
    ensures { IfOk result (λ text. string_bytes text ≡ program_text fault) }
{
    match fault {
        ProgramFault::NoThreads => String::from_str(alloc, "NoThreads"),
        ProgramFault::TooManyThreads => String::from_str(alloc, "TooManyThreads"),
        ProgramFault::TooLong(thread) => format!(in alloc; "TooLong {thread}"),
        ProgramFault::Locations => String::from_str(alloc, "Locations"),
        ProgramFault::TooManyAccesses => String::from_str(alloc, "TooManyAccesses"),
        ProgramFault::BackwardJump(thread, k) => format!(in alloc; "BackwardJump {thread} {k}"),
        ProgramFault::JumpPastEnd(thread, k) => format!(in alloc; "JumpPastEnd {thread} {k}"),
        ProgramFault::TooManyGaps => String::from_str(alloc, "TooManyGaps"),
        ProgramFault::OutOfMemory => String::from_str(alloc, "OutOfMemory"),
    }
}

/// Why a cost file isn't read.
pub fn costs_line(alloc: Global, fault: CostTextFault) -> Result<Vec<u8>, AllocError>
    ensures { IfOk result (λ line. line.items ≡ costs_line fault) }
{
    match fault {
        CostTextFault::Line(line) => refused_at(alloc, "costs 1 Line line", line as u64),
        CostTextFault::NoSuchGap(line) => refused_at(alloc, "costs 2 NoSuchGap line", line as u64),
        CostTextFault::Repeated(line) => refused_at(alloc, "costs 3 Repeated line", line as u64),
        CostTextFault::Cost(line, inner) => cost_line(alloc, line, inner),
        CostTextFault::OutOfMemory => refused(alloc, "costs 5 OutOfMemory"),
    }
}

/// Why a gap may not cost what a line of a cost file says.
fn cost_line(alloc: Global, line: usize, fault: CostFault) -> Result<Vec<u8>, AllocError>
    ensures { IfOk result (λ text. text.items ≡ cost_fault_line line fault) }
{
    let inner = cost_text(alloc, fault)?;
    let what = format!(in alloc; "costs 4 Cost line {line} {inner}")?;
    refused(alloc, what.as_str())
}

/// The refusal of a list of costs: its name and its gap.
fn cost_text(alloc: Global, fault: CostFault) -> Result<String, AllocError>
    ensures { IfOk result (λ text. string_bytes text ≡ cost_text fault) }
{
    match fault {
        CostFault::Zero(gap) => format!(in alloc; "Zero {gap}"),
        CostFault::TooLarge(gap) => format!(in alloc; "TooLarge {gap}"),
        CostFault::TooMany => String::from_str(alloc, "TooMany"),
        CostFault::OutOfMemory => String::from_str(alloc, "OutOfMemory"),
    }
}

/// Why a run's text isn't read.
pub fn run_line(alloc: Global, fault: RunFault) -> Result<Vec<u8>, AllocError>
    ensures { IfOk result (λ line. line.items ≡ run_line fault) }
{
    match fault {
        RunFault::Token(index) => refused_at(alloc, "run 1 Token", index as u64),
        RunFault::OutOfMemory => refused(alloc, "run 2 OutOfMemory"),
    }
}

/// Why labels aren't a run of a program.
pub fn replay_line(alloc: Global, fault: ReplayFault) -> Result<Vec<u8>, AllocError>
    ensures { IfOk result (λ line. line.items ≡ replay_line fault) }
{
    match fault {
        ReplayFault::NoSuchThread(step) => refused_at(
            alloc,
            "replay 1 NoSuchThread step",
            step as u64,
        ),
        ReplayFault::AtEnd(step) => refused_at(alloc, "replay 2 AtEnd step", step as u64),
        ReplayFault::BufferEmpty(step) => refused_at(
            alloc,
            "replay 3 BufferEmpty step",
            step as u64,
        ),
        ReplayFault::FenceWaits(step) => refused_at(alloc, "replay 4 FenceWaits step", step as u64),
        ReplayFault::NotEnded(step) => refused_at(alloc, "replay 5 NotEnded step", step as u64),
        ReplayFault::OutOfMemory => refused(alloc, "replay 6 OutOfMemory"),
    }
}

/// The line of a refusal.
fn refused(alloc: Global, what: &str) -> Result<Vec<u8>, AllocError>
    ensures { IfOk result (λ line. line.items ≡ refused what.now) }
{
    Ok(format!(in alloc; "refused {what}\n")?.into_bytes())
}

/// The line of a refusal with a number.
pub fn refused_at(alloc: Global, what: &str, number: u64) -> Result<Vec<u8>, AllocError>
    ensures { IfOk result (λ line. line.items ≡ refused_at what.now number) }
{
    Ok(format!(in alloc; "refused {what} {number}\n")?.into_bytes())
}
