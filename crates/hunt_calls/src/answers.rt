//! The answers to the calls.

use crate::hunts::push_hunted;
use crate::inquiry::Inquiry;
use crate::refusal::HuntRefusal;
use crate::search::{push_records, push_searched};
use oracle::Oracle;
use std::sync::Wait;

/// A call with the sequential outcomes, by its name.
#[derive(Clone, Copy)]
pub enum HuntCall {
    Search,
    Records,
    Hunt,
}

/// The answer to a call with the sequential outcomes and an oracle.
pub fn push_of_hunt<W: Wait, O: Oracle>(
    wait: &W,
    call: HuntCall,
    words: &[&[u8]],
    inquiry: &Inquiry<'_, O>,
    printed: &mut String,
) -> Result<(), HuntRefusal>
    requires { O.may_be_asked inquiry.now.oracle.now }
{
    match call {
        HuntCall::Search => push_searched(inquiry, words, printed),
        HuntCall::Records => push_records(inquiry, words, printed),
        HuntCall::Hunt => push_hunted(wait, inquiry, words, printed),
    }
}
