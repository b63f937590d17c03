//! Runs whose outcomes meet a formula.
ghost use Rattle.std.specs.Prelude.{◌≡◌, IfOk, IfErr, MatchOption};
ghost use Rattle.tso_machine.specs.Modes.{machine_of_mode};
ghost use Rattle.cover_solver.specs.Witnesses.{IsWitness, HasNoWitness};

use crate::completeness::{Completeness, completeness_of};
use cover_search::Search;
use oracle::SolveFault;
use std::alloc::Global;
use tso_machine::{Label, Mode};
use tso_program::{Formula, Outcome, Program, Shown};

/// A run of the machine of a mode with this truth of the formula at its outcome. `None` where no run has one. The search ends at
/// the first such run.
pub fn witness(
    alloc: Global,
    program: &Program,
    mode: Mode,
    formula: &Formula,
    truth: bool,
) -> Result<Option<Vec<Label>>, SolveFault>
    ensures found { IfOk result (λ found. MatchOption found (HasNoWitness program.now (machine_of_mode program.now mode) formula.now truth) (λ labels. IsWitness program.now (machine_of_mode program.now mode) formula.now truth labels.items)) }
    ensures fault { IfErr result (λ fault. fault ≡ SolveFault.OutOfMemory) }
{
    let shown = Shown::Truth(formula.copy()?);
    let search = Search {
        alloc,
        program,
        shown: &shown,
        mode,
    };
    let other = Outcome::told(alloc, !truth)?;
    let others = [other];
    match completeness_of(&search, &others)? {
        Completeness::Complete => Ok(None),
        Completeness::Lacking(labels) => Ok(Some(labels)),
    }
}
