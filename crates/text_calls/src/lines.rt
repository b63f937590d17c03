//! Lines that several calls print.

use crate::input::push_bytes;
use gap_sets::GapSet;
use std::alloc::{AllocError, Global};
use tso_machine::{Label, write_run};

/// The text of a run.
pub fn push_run(alloc: Global, labels: &[Label], printed: &mut String) -> Result<(), AllocError> {
    printed.push_str("run ")?;
    push_bytes(printed, &write_run(alloc, labels)?)?;
    printed.push('\n')
}

/// A word, and the numbers of the gaps of a set.
pub fn push_gaps_after(word: &str, gaps: &GapSet, printed: &mut String) -> Result<(), AllocError> {
    printed.push_str(word)?;
    for gap in gaps.iter() {
        write!(printed, " {gap}")?;
    }
    Ok(())
}
