//! Whether a test's condition holds.

ghost use Rattle.std.specs.Prelude.{◌↔◌, IfOk, IsTrue};
ghost use Rattle.std.specs.FinSet as set;
ghost use Rattle.tso_machine.specs.Modes.{machine_of_model};
ghost use Rattle.survey_text.specs.Verdicts.{HoldsIn, SomeRun};

use cover_solver::{SolveFault, witness};
use litmus_text::{Litmus, Quantifier};
use std::alloc::Global;
use tso_machine::{Mode, Model};
use tso_program::Program;

/// Whether the condition holds in a machine with no gap fenced: whether some run meets its formula, whether none does, or
/// whether none does not.
pub(crate) fn holds_in(
    alloc: Global,
    litmus: &Litmus<Program>,
    model: Model,
) -> Result<bool, SolveFault>
    ensures { IfOk result (HoldsIn litmus.now.program (machine_of_model litmus.now.program set.empty model) litmus.now.condition) }
{
    match litmus.condition.quantifier {
        Quantifier::Exists => Ok(some_run(alloc, litmus, model, true)?),
        Quantifier::NotExists => Ok(!some_run(alloc, litmus, model, true)?),
        Quantifier::Forall => Ok(!some_run(alloc, litmus, model, false)?),
    }
}

/// Whether the condition's formula has a truth after some run of a machine with no gap fenced.
fn some_run(
    alloc: Global,
    litmus: &Litmus<Program>,
    model: Model,
    truth: bool,
) -> Result<bool, SolveFault>
    ensures { IfOk result (λ some. IsTrue some ↔ SomeRun litmus.now.program (machine_of_model litmus.now.program set.empty model) litmus.now.condition.formula truth) }
{
    let mode = Mode::unfenced(model);
    let formula = &litmus.condition.formula;
    let found = witness(alloc, &litmus.program, mode, formula, truth)?;
    Ok(found.is_some())
}
