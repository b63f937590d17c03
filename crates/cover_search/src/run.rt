//! Runs of complete sketches, as far as their outcomes are shown.
ghost use Rattle.std.specs.Prelude.{◌≡◌, IfOk};
ghost use Rattle.program_sketches.specs.Known.{HasNoCycle};
ghost use Rattle.exec_axioms.specs.Complete.{IsComplete};
ghost use Rattle.tso_program.specs.Shown.{show};
ghost use Rattle.cover_search.specs.ShownRuns.{IsShownRunOf};

use exec_axioms::Sketch;
use run_maker::{MadeRun, MakeFault, make_run};
use std::alloc::{AllocError, Global};
use tso_program::Shown;

/// A run of a complete sketch, with what is shown of its outcome.
pub(crate) fn shown_run(
    alloc: Global,
    sketch: &Sketch,
    shown: &Shown,
) -> Result<MadeRun, AllocError>
    requires complete { IsComplete sketch.now }
    requires acyclic { HasNoCycle sketch.now }
    ensures { IfOk result (IsShownRunOf sketch.now shown.now) }
{
    match make_run(alloc, sketch) {
        Ok(run) => as_shown(alloc, run, shown),
        Err(MakeFault::OutOfMemory) => Err(AllocError),
        Err(MakeFault::NotComplete | MakeFault::NoRun) => unreachable!(),
    }
}

/// The run with what is shown of its outcome.
fn as_shown(alloc: Global, run: MadeRun, shown: &Shown) -> Result<MadeRun, AllocError>
    ensures { IfOk result (λ made. made ≡ record run { outcome = show shown.now run.outcome }) }
{
    let mut run = run;
    run.outcome.show(alloc, shown)?;
    Ok(run)
}
