//! What a search leaves once it is done.

use search_core::{Finished, Settled, SettledEvent};
use std::alloc::AllocError;
use text_calls::push_gaps_after;

/// A node, the seat that settled it, and how.
fn push_settled(settled: &Settled<'_>, printed: &mut String) -> Result<(), AllocError> {
    push_gaps_after("must", &settled.node.must, printed)?;
    push_gaps_after(" never", &settled.node.never, printed)?;
    write!(printed, " seat {} ", settled.seat)?;
    match settled.event {
        SettledEvent::Split(run) => push_gaps_after("split passed", &run.passed(), printed)?,
        SettledEvent::Cut => printed.push_str("cut")?,
        SettledEvent::Confirmed => printed.push_str("confirmed")?,
    }
    printed.push('\n')
}

/// The nodes of the record.
fn push_nodes(finished: &Finished, printed: &mut String) -> Result<(), AllocError> {
    for number in 0..finished.nodes() {
        if let Some(settled) = finished.settled(number) {
            push_settled(&settled, printed)?;
        }
    }
    Ok(())
}

/// The set that the search ends with.
pub fn push_set(finished: &Finished, printed: &mut String) -> Result<(), AllocError> {
    push_gaps_after("set", &finished.served().set(), printed)?;
    printed.push('\n')
}

/// The answer, then each node.
pub fn push_record(finished: &Finished, printed: &mut String) -> Result<(), AllocError> {
    push_set(finished, printed)?;
    push_nodes(finished, printed)
}
