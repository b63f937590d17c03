//! What is printed for an input.

use crate::calls::{CALLS, Call, TableCall};
use crate::refusal::CallRefusal;
use litmus_text::{Litmus, NameTable, read_litmus};
use place_calls::{push_exchanged, push_of_hunt, push_of_place};
use solver_calls::{SeqTable, options, push_of_solver, push_sketch, table_of};
use std::alloc::{AllocError, Global};
use std::sync::Wait;
use std::thread::Threads;
use text_calls::{LitmusCall, named, push_of_litmus, push_of_text, split_line, words_of};
use tso_program::Program;

/// So many bytes are printed without another allocation.
const ROOM: usize = 4_096;

/// A program's names and its sequential outcomes.
#[derive(Clone, Copy)]
struct Test<'a> {
    names: &'a NameTable,
    table: &'a SeqTable,
}

/// The answer to a call with these outcomes.
fn push_of_test<R: Threads + Wait + Sync>(
    rt: &R,
    alloc: Global,
    call: TableCall,
    words: &[&[u8]],
    test: &Test<'_>,
    printed: &mut String,
) -> Result<(), CallRefusal> {
    let Test { names, table } = *test;
    match call {
        TableCall::Solver(call) => Ok(push_of_solver(alloc, call, words, names, table, printed)?),
        TableCall::Hunt(call) => Ok(push_of_hunt(rt, alloc, call, words, table, printed)?),
        TableCall::Place(call) => Ok(push_of_place(rt, alloc, call, words, table, printed)?),
    }
}

/// The answer to a call with the sequential outcomes of a program, of which the first word may say what is shown.
fn push_of_program<R: Threads + Wait + Sync>(
    rt: &R,
    alloc: Global,
    call: TableCall,
    words: &[&[u8]],
    litmus: &Litmus<Program>,
    printed: &mut String,
) -> Result<(), CallRefusal> {
    let (kind, words) = options(words);
    let table = table_of(alloc, litmus, kind)?;
    let test = Test {
        names: &litmus.names,
        table: &table,
    };
    let pushed = push_of_test(rt, alloc, call, words, &test, printed);
    drop(table);
    pushed
}

/// The answer to a call with the sequential outcomes of a litmus text.
fn push_of_table<R: Threads + Wait + Sync>(
    rt: &R,
    alloc: Global,
    call: TableCall,
    words: &[&[u8]],
    text: &[u8],
    printed: &mut String,
) -> Result<(), CallRefusal> {
    let litmus = read_litmus(alloc, text)?;
    let pushed = push_of_program(rt, alloc, call, words, &litmus, printed);
    drop(litmus);
    pushed
}

/// The answer to a call with a litmus text.
fn push_read(
    alloc: Global,
    call: LitmusCall,
    words: &[&[u8]],
    text: &[u8],
    printed: &mut String,
) -> Result<(), CallRefusal> {
    let litmus = read_litmus(alloc, text)?;
    let pushed = push_of_litmus(alloc, call, words, &litmus, printed);
    drop(litmus);
    Ok(pushed?)
}

/// What a sketch of the program of a litmus text answers at each step of a script.
fn push_steps(
    alloc: Global,
    words: &[&[u8]],
    text: &[u8],
    printed: &mut String,
) -> Result<(), CallRefusal> {
    let litmus = read_litmus(alloc, text)?;
    let pushed = push_sketch(alloc, words, &litmus.program, printed);
    drop(litmus);
    Ok(pushed?)
}

/// The answer to a call.
fn push_of_call<R: Threads + Wait + Sync>(
    rt: &R,
    alloc: Global,
    call: Call,
    words: &[&[u8]],
    text: &[u8],
    printed: &mut String,
) -> Result<(), CallRefusal> {
    match call {
        Call::Text(call) => Ok(push_of_text(alloc, call, words, text, printed)?),
        Call::Litmus(call) => push_read(alloc, call, words, text, printed),
        Call::Sketch => push_steps(alloc, words, text, printed),
        Call::Table(call) => push_of_table(rt, alloc, call, words, text, printed),
        Call::Exchange => Ok(push_exchanged(rt, alloc, words, text, printed)?),
    }
}

/// The answer to the call of the first of these words.
fn push_of_words<R: Threads + Wait + Sync>(
    rt: &R,
    alloc: Global,
    words: &[&[u8]],
    text: &[u8],
    printed: &mut String,
) -> Result<(), CallRefusal> {
    let Some((name, words)) = words.split_first() else {
        return Err(CallRefusal::Call);
    };
    let call = named(&CALLS, name)?;
    push_of_call(rt, alloc, call, words, text, printed)
}

fn push_answer<R: Threads + Wait + Sync>(
    rt: &R,
    alloc: Global,
    input: &[u8],
    printed: &mut String,
) -> Result<(), CallRefusal> {
    let (line, text) = split_line(input);
    let words = words_of(alloc, line)?;
    push_of_words(rt, alloc, words.as_slice(), text, printed)
}

/// What is printed for an input.
pub fn answer<R: Threads + Wait + Sync>(
    rt: &R,
    alloc: Global,
    input: &[u8],
) -> Result<String, AllocError> {
    let mut printed = String::with_capacity(alloc, ROOM)?;
    match push_answer(rt, alloc, input, &mut printed) {
        Ok(()) => Ok(printed),
        Err(refusal) => format!(in alloc; "refused {refusal}\n"),
    }
}
