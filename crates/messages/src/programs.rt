//! Programs that break a limit: how many there are of what, and where.

use crate::message::Message;
use gap_sets::MAX_GAPS;
use litmus_lines::PlacedTokens;
use litmus_reader::{NameTable, location_name, names_of};
use litmus_rules::{Source, shown_word, word_at};
use litmus_syntax::{Body, Cell, Code, Ending, read_body, read_ending};
use std::alloc::{AllocError, Global};
use text_tokens::Token;
use tso_program::{MAX_ACCESSES, MAX_INSTRUCTIONS, MAX_LOCATIONS, MAX_THREADS, ProgramFault};

/// What is said of a program that breaks a limit, with the line of its header row.
pub(crate) fn program_message(
    alloc: Global,
    source: Source<'_>,
    tokens: &PlacedTokens<'_>,
    line: u32,
    fault: ProgramFault,
) -> Result<Message, AllocError> {
    if let ProgramFault::BackwardJump(thread, instruction) = fault {
        if let Some(left) = jump_left(alloc, tokens.as_slice(), thread, instruction) {
            return backward_message(alloc, source, tokens, left);
        }
    }
    let text = limit_text(alloc, tokens.as_slice(), fault)?;
    Message::at_line(alloc, source, line as usize, text.as_str())
}

/// What is said of a jump back, where so many tokens are left at its mnemonic.
fn backward_message(
    alloc: Global,
    source: Source<'_>,
    tokens: &PlacedTokens<'_>,
    left: usize,
) -> Result<Message, AllocError> {
    let label = tokens.rest(tokens.index(left.saturating_sub(1)));
    let name = shown_word(alloc, word_at(label))?;
    let said = format!(in alloc;
        "{name} jumps back; loops are not read, write a fixed number of tries (docs/guide.md)"
    )?;
    Message::at_token(alloc, source, tokens, left, said.as_str())
}

/// The tokens left at the mnemonic of a jump.
fn jump_left(alloc: Global, tokens: &[Token], thread: u8, instruction: u8) -> Option<usize> {
    match read_body(alloc, tokens) {
        Ok((body, _)) => {
            let (thread, instruction) = (usize::from(thread), usize::from(instruction));
            let left = instruction_left(body.rows.as_slice(), thread, instruction);
            drop(body);
            left
        }
        Err(_) => None,
    }
}

/// The tokens left at the mnemonic of an instruction of a thread, both counted from 0.
fn instruction_left(rows: &[Vec<Cell<'_>>], thread: usize, instruction: usize) -> Option<usize> {
    let mut count = 0usize;
    for row in rows {
        if let Some(cell) = row.get(thread) {
            if cell.code.is_some() {
                if count == instruction {
                    return Some(cell.left);
                }
                count = count.saturating_add(1);
            }
        }
    }
    None
}

/// What is said of a limit that the program of these tokens breaks.
fn limit_text(alloc: Global, tokens: &[Token], fault: ProgramFault) -> Result<String, AllocError> {
    match read_body(alloc, tokens) {
        Ok((body, rest)) => {
            let text = body_text(alloc, &body, rest, fault);
            drop(body);
            text
        }
        Err(_) => format!(in alloc; "{fault}"),
    }
}

/// What is said of a limit that a program breaks, of which this is read, with the tokens of its ending.
fn body_text(
    alloc: Global,
    body: &Body<'_>,
    rest: &[Token],
    fault: ProgramFault,
) -> Result<String, AllocError> {
    match fault {
        ProgramFault::TooManyThreads => {
            let count = body.threads;
            format!(in alloc; "there are {count} threads, more than {MAX_THREADS}")
        }
        ProgramFault::TooLong(thread) => {
            let count = instructions_in(body, usize::from(thread));
            format!(in alloc;
                "thread {thread} has {count} instructions, more than {MAX_INSTRUCTIONS}"
            )
        }
        ProgramFault::Locations => match read_ending(alloc, rest, body.threads) {
            Ok(ending) => {
                let text = locations_text(alloc, body, &ending);
                drop(ending);
                text
            }
            Err(_) => format!(in alloc; "{fault}"),
        },
        ProgramFault::TooManyAccesses => accesses_text(alloc, body),
        ProgramFault::TooManyGaps => gaps_text(alloc, body),
        _ => format!(in alloc; "{fault}"),
    }
}

/// Numbers by threads, their sum and their words.
#[derive(Drop)]
struct Shares {
    sum: usize,
    text: String,
}

impl Shares {
    /// Of no thread.
    fn none(alloc: Global) -> Shares {
        Shares {
            sum: 0,
            text: String::new(alloc),
        }
    }

    /// Adds the number of a thread; none is not named.
    fn add(&mut self, thread: usize, count: usize) -> Result<(), AllocError> {
        if count > 0 {
            let comma = if self.text.is_empty() { "" } else { ", " };
            write!(self.text, "{comma}{count} in thread {thread}")?;
            self.sum = self.sum.saturating_add(count);
        }
        Ok(())
    }
}

fn accesses_text(alloc: Global, body: &Body<'_>) -> Result<String, AllocError> {
    let mut shares = Shares::none(alloc);
    for thread in 0..body.threads {
        shares.add(thread, accesses_in(body, thread))?;
    }
    let Shares { sum, text } = shares;
    format!(in alloc; "there are {sum} accesses to memory, more than {MAX_ACCESSES}: {text}")
}

fn gaps_text(alloc: Global, body: &Body<'_>) -> Result<String, AllocError> {
    let mut shares = Shares::none(alloc);
    for thread in 0..body.threads {
        let gaps = instructions_in(body, thread).saturating_sub(1);
        shares.add(thread, gaps)?;
    }
    let Shares { sum, text } = shares;
    format!(in alloc; "there are {sum} gaps, more than {MAX_GAPS}: {text}")
}

/// How many instructions a thread has.
fn instructions_in(body: &Body<'_>, thread: usize) -> usize {
    let mut count = 0usize;
    for row in &body.rows {
        if row.get(thread).is_some_and(|cell| cell.code.is_some()) {
            count = count.saturating_add(1);
        }
    }
    count
}

/// How many instructions of a thread access memory.
fn accesses_in(body: &Body<'_>, thread: usize) -> usize {
    let mut count = 0usize;
    for row in &body.rows {
        if row.get(thread).is_some_and(|cell| accesses_memory(cell)) {
            count = count.saturating_add(1);
        }
    }
    count
}

/// Whether the instruction of a cell accesses memory.
fn accesses_memory(cell: &Cell<'_>) -> bool {
    match cell.code {
        Some(Code::Load(..) | Code::StoreImm(..) | Code::Store(..) | Code::Xchg(..)) => true,
        _ => false,
    }
}

fn locations_text(
    alloc: Global,
    body: &Body<'_>,
    ending: &Ending<'_>,
) -> Result<String, AllocError> {
    let names = names_of(alloc, body, ending)?;
    let text = names_text(alloc, &names);
    drop(names);
    text
}

fn names_text(alloc: Global, names: &NameTable) -> Result<String, AllocError> {
    let count = names.locations();
    let listed = listed(alloc, names)?;
    format!(in alloc;
        "there are {count} locations, more than {MAX_LOCATIONS}: {listed}; those of the initial values, `locations` and the condition count too"
    )
}

/// The names of the locations, with commas between them.
fn listed(alloc: Global, names: &NameTable) -> Result<String, AllocError> {
    let mut listed = String::new(alloc);
    for number in 0..names.locations() {
        let comma = if listed.is_empty() { "" } else { ", " };
        let shown = shown_word(alloc, location_name(names, number))?;
        write!(listed, "{comma}{shown}")?;
    }
    Ok(listed)
}
