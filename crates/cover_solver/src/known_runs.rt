//! Foreign runs that are known before the first question.
//!
//! Each outcome that store buffers add, with no gap fenced, has a foreign run. It answers the question about each set of which
//! it passes no gap, without a search.
ghost use Rattle.std.specs.Prelude.{◌≤◌, IfOk, OnOk, length};
ghost use Rattle.oracle.specs.Facts.{AreOf};

use cert_forest::Runs;
use gap_sets::GapSet;
use oracle::{ForeignFault, ForeignRun, SeqTable};
use std::alloc::{AllocError, Global};
use tso_machine::Label;

/// The foreign ones among runs, those first that pass the fewest gaps. Of runs that pass the same gaps there is one.
pub(crate) fn known_runs(
    alloc: Global,
    table: &SeqTable,
    runs: &Runs,
) -> Result<Vec<ForeignRun>, AllocError>
    ensures { IfOk result (λ known. AreOf table.now.question known.items) }
{
    let mut known = Vec::new(alloc);
    for labels in runs {
        add_run(alloc, table, labels, &mut known)?;
    }
    Ok(known)
}

/// Adds the run of these labels. It adds nothing if the outcome is sequential, or if a run that is there passes none but gaps
/// that this one passes too.
fn add_run(
    alloc: Global,
    table: &SeqTable,
    labels: &[Label],
    known: &mut Vec<ForeignRun>,
) -> Result<(), AllocError>
    requires { AreOf table.now.question known.old.items }
    ensures { OnOk result (AreOf table.now.question known.new.items) }
{
    let run = match ForeignRun::new(alloc, table, labels) {
        Ok(run) => run,
        Err(ForeignFault::OutOfMemory) => return Err(AllocError),
        Err(ForeignFault::Sequential | ForeignFault::Replay(_)) => return Ok(()),
    };
    let passed = run.passed();
    if one_passes_only(known, &passed) {
        return Ok(());
    }
    known.insert(place_for(known, &passed), run)?;
    Ok(())
}

/// Whether one of the runs passes only gaps of the set.
fn one_passes_only(runs: &[ForeignRun], set: &GapSet) -> bool {
    for run in runs {
        if set.holds_all(&run.passed()) {
            return true;
        }
    }
    false
}

/// The place of the first of the runs that passes more gaps than the set has, or the place after all.
fn place_for(runs: &[ForeignRun], set: &GapSet) -> usize
    ensures { result ≤ length runs.now }
{
    for (place, run) in runs.iter().enumerate() {
        if set.len() < run.passed().len() {
            return place;
        }
    }
    runs.len()
}
