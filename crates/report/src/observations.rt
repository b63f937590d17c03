//! What the outcomes of a program show of a litmus test's condition.

ghost use Rattle.std.specs.Prelude.{◌≡◌, IfOk};
ghost use Rattle.report.specs.Observations.{some_meets, all_meet, frequency, is_true_of, observation_line, condition_line};

use conditions::{Condition, Quantifier, holds};
use std::alloc::{AllocError, Global};
use tso_program::Outcome;

/// Whether some outcome meets the condition's formula.
fn some_meets(condition: &Condition, outcomes: &[Outcome]) -> bool
    ensures { result ≡ some_meets condition.now.formula outcomes.now }
{
    outcomes.iter().any(|outcome| holds(condition, outcome))
}

/// Whether all outcomes meet the condition's formula.
fn all_meet(condition: &Condition, outcomes: &[Outcome]) -> bool
    ensures { result ≡ all_meet condition.now.formula outcomes.now }
{
    outcomes.iter().all(|outcome| holds(condition, outcome))
}

/// How often the condition's formula is met: `Never`, `Sometimes` or `Always`. Of no outcomes it is `Never`.
pub fn frequency(condition: &Condition, outcomes: &[Outcome]) -> &'static str
    ensures { result.now ≡ frequency condition.now.formula outcomes.now }
{
    if !some_meets(condition, outcomes) {
        "Never"
    } else if all_meet(condition, outcomes) {
        "Always"
    } else {
        "Sometimes"
    }
}

/// Whether the condition holds of the outcomes: `exists` where some outcome meets the formula, `~exists` where none does,
/// `forall` where all do.
pub fn is_true_of(condition: &Condition, outcomes: &[Outcome]) -> bool
    ensures { result ≡ is_true_of condition.now.quantifier condition.now.formula outcomes.now }
{
    match condition.quantifier {
        Quantifier::Exists => some_meets(condition, outcomes),
        Quantifier::NotExists => !some_meets(condition, outcomes),
        Quantifier::Forall => all_meet(condition, outcomes),
    }
}

/// Whether no outcome meets the condition's formula, some do, or all do. Of no outcomes it is `Never`.
pub fn observation_line(
    alloc: Global,
    condition: &Condition,
    outcomes: &[Outcome],
) -> Result<Vec<u8>, AllocError>
    ensures { IfOk result (λ line. line.items ≡ observation_line condition.now outcomes.now) }
{
    let often = frequency(condition, outcomes);
    Ok(format!(in alloc; "observation {often}\n")?.into_bytes())
}

/// Whether the condition holds: `exists` where some outcome meets the formula, `~exists` where none does, `forall` where
/// all do.
pub fn condition_line(
    alloc: Global,
    condition: &Condition,
    outcomes: &[Outcome],
) -> Result<Vec<u8>, AllocError>
    ensures { IfOk result (λ line. line.items ≡ condition_line condition.now outcomes.now) }
{
    let answer = if is_true_of(condition, outcomes) {
        "holds"
    } else {
        "fails"
    };
    Ok(format!(in alloc; "condition {answer}\n")?.into_bytes())
}
