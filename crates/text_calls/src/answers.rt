//! The answers to the calls.

use crate::calls::{LitmusCall, TextCall};
use crate::refusal::TextRefusal;
use crate::{
    certificates, fences, formulas, machines, observations, programs, sets, syntax, texts, tokens,
};
use litmus_text::Litmus;
use std::alloc::Global;
use tso_program::Program;

/// The answer to a call with the test of a litmus text.
pub fn push_of_litmus(
    alloc: Global,
    call: LitmusCall,
    words: &[&[u8]],
    litmus: &Litmus<Program>,
    printed: &mut String,
) -> Result<(), TextRefusal> {
    let program = &litmus.program;
    match call {
        LitmusCall::Read => Ok(texts::push_read(alloc, litmus, printed)?),
        LitmusCall::Canonical => fences::push_canonical(alloc, words, litmus, printed),
        LitmusCall::Gaps => programs::push_gaps_of(alloc, words, program, printed),
        LitmusCall::Fenced => programs::push_fenced(alloc, words, program, printed),
        LitmusCall::Copy => programs::push_copy(program, printed),
        LitmusCall::Action => programs::push_action(words, program, printed),
        LitmusCall::Replay => machines::push_replayed(alloc, words, program, printed),
    }
}

/// The answer to a call with a text of its own, or with none.
pub fn push_of_text(
    alloc: Global,
    call: TextCall,
    words: &[&[u8]],
    text: &[u8],
    printed: &mut String,
) -> Result<(), TextRefusal> {
    match call {
        TextCall::Tokens => tokens::push_tokens(alloc, words, text, printed),
        TextCall::PlainNumber => tokens::push_plain_number(words, text, printed),
        TextCall::Body => syntax::push_body(alloc, text, printed),
        TextCall::Ending => syntax::push_ending(alloc, words, text, printed),
        TextCall::ReadFenced => texts::push_read_fenced(alloc, text, printed),
        TextCall::Formula => formulas::push_formula(alloc, text, printed),
        TextCall::Formulas => formulas::push_formulas(alloc, text, printed),
        TextCall::Condition => observations::push_observed(alloc, words, printed),
        TextCall::Sets => sets::push_sets(alloc, words, printed),
        TextCall::Costs => sets::push_costs_of(alloc, words, printed),
        TextCall::Program => programs::push_program(alloc, words, printed),
        TextCall::Outcomes => machines::push_compared(alloc, text, printed),
        TextCall::Run => machines::push_run(alloc, text, printed),
        TextCall::Certificate => certificates::push_certificate(alloc, text, printed),
        TextCall::Check => certificates::push_checked(alloc, words, text, printed),
    }
}
