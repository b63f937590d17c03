//! Calls of `tso_program`.

use crate::input::{byte_at, gap_set_at, named, word_at};
use crate::refusal::TextRefusal;
use crate::sets::push_gaps;
use std::alloc::{AllocError, Global};
use tso_program::{Instr, Items, Local, Program, Thread};

/// The code of threads that no litmus text spells, over two locations.
const CODES: [(&[u8], &[Instr]); 5] = [
    (b"no-threads", &[]),
    (
        b"store-to-location-2",
        &[Instr::StoreImm(2, 1), Instr::Fence],
    ),
    (
        b"store-to-location-1",
        &[Instr::StoreImm(1, 1), Instr::Fence],
    ),
    (b"jump-to-3", &[Instr::Jmp(3), Instr::Fence]),
    (b"jump-to-2", &[Instr::Jmp(2), Instr::Fence]),
];

fn items(alloc: Global, code: &[Instr]) -> Result<Items<Instr>, AllocError> {
    let mut list = Items::of(Vec::new(alloc));
    for instruction in code {
        list.push(*instruction)?;
    }
    Ok(Items::of(list.copy(alloc)?.into_vec()))
}

/// A thread with this code; none where it is empty.
fn threads_of(alloc: Global, code: &[Instr]) -> Result<Vec<Thread>, AllocError> {
    let mut threads = Vec::new(alloc);
    if !code.is_empty() {
        threads.push(Thread {
            code: items(alloc, code)?,
            registers: [0; 6],
        })?;
    }
    Ok(threads)
}

/// The program of a thread with this code, over two locations that hold 0.
fn program_of(alloc: Global, code: &[Instr]) -> Result<Program, TextRefusal> {
    let threads = threads_of(alloc, code)?;
    let memory = Vec::from_slice(alloc, &[0, 0])?;
    Program::new(alloc, threads, memory).map_err(TextRefusal::from)
}

/// A program that no litmus text spells.
pub fn push_program(
    alloc: Global,
    words: &[&[u8]],
    printed: &mut String,
) -> Result<(), TextRefusal> {
    let program = program_of(alloc, named(&CODES, word_at(words, 0)?)?)?;
    write!(printed, "threads {:?}\n", program.threads()).map_err(TextRefusal::from)
}

/// What a program says of the gap before an instruction of a thread, and of a gap.
fn push_gap_lines(
    program: &Program,
    number: Option<u8>,
    gap: u8,
    printed: &mut String,
) -> Result<(), AllocError> {
    write!(
        printed,
        "gaps {}\nnumber {number:?}\nplace {:?}\nall ",
        program.gaps(),
        program.gap_place(gap)
    )
}

fn push_gaps_of_copy(
    alloc: Global,
    words: &[&[u8]],
    program: &Program,
    printed: &mut String,
) -> Result<(), TextRefusal> {
    let number = program.gap_number(byte_at(words, 0)?, byte_at(words, 1)?);
    push_gap_lines(program, number, byte_at(words, 2)?, printed)?;
    Ok(push_gaps(alloc, &program.all_gaps(), printed)?)
}

/// The gaps of a program, the number of a gap and the place of a gap, as a copy of the program has them.
pub fn push_gaps_of(
    alloc: Global,
    words: &[&[u8]],
    program: &Program,
    printed: &mut String,
) -> Result<(), TextRefusal> {
    push_gaps_of_copy(alloc, words, &program.copy()?, printed)
}

fn push_listing(
    threads: &[Thread],
    memory: &[u32],
    printed: &mut String,
) -> Result<(), TextRefusal> {
    Ok(write!(printed, "threads {threads:?}\nmemory {memory:?}\n")?)
}

/// The copy of a program.
pub fn push_copy(program: &Program, printed: &mut String) -> Result<(), TextRefusal> {
    let copy = program.copy()?;
    push_listing(copy.threads(), copy.memory(), printed)
}

/// A program with fences in some gaps, as a copy has it.
pub fn push_fenced(
    alloc: Global,
    words: &[&[u8]],
    program: &Program,
    printed: &mut String,
) -> Result<(), TextRefusal> {
    let gaps = gap_set_at(alloc, words, 0)?;
    let fenced = program.fenced(alloc, &gaps)?.copy()?;
    push_listing(fenced.threads(), fenced.memory(), printed)
}

/// What a thread does next at a place, where its registers hold 0.
pub fn push_action(
    words: &[&[u8]],
    program: &Program,
    printed: &mut String,
) -> Result<(), TextRefusal> {
    let thread = byte_at(words, 0)?;
    let local = Local {
        place: byte_at(words, 1)?,
        registers: [0; 6],
        flag: false,
    };
    Ok(write!(printed, "{:?}\n", program.action(thread, local))?)
}
