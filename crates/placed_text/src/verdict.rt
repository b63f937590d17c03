//! Whether sequential runs decide a condition: no fence changes that.

ghost use Rattle.std.specs.Prelude.{◌≡◌, ◌↔◌, false, true, Contains, IfOk, IsTrue, List};
ghost use Rattle.tso_machine.specs.declared.label.Label.{Label as SpelledLabel};
ghost use Rattle.placed_text.specs.Verdicts.{deciding_truth, holds_by, verdict_kind, Decides, SomeDecides, IsVerdictIn};
ghost use Rattle.fence_place.specs.Placements.{IsPlacement};
ghost use Rattle.placed_text.specs.Problems.{question_in};

use crate::problem::Problem;
use cert_forest::{Certificate, Runs};
use documents::{Note, NoteKind, condition_sentence};
use gap_sets::GapSet;
use litmus_text::{Litmus, Quantifier, holds};
use std::alloc::{AllocError, Global};
use tso_machine::{Label, Model, replay};
use tso_program::Program;

/// The truth of the formula by which one run decides a condition: `exists` and `~exists` by a run that meets the formula,
/// `forall` by one that does not.
fn deciding_truth(quantifier: Quantifier) -> bool
    ensures { result ≡ deciding_truth quantifier }
{
    match quantifier {
        Quantifier::Exists => true,
        Quantifier::NotExists => true,
        Quantifier::Forall => false,
    }
}

/// Whether labels are a sequential run that decides the condition. They are those of some sequential run.
fn decides(alloc: Global, litmus: &Litmus<Program>, labels: &[Label]) -> Result<bool, AllocError>
    ensures { IfOk result (λ decides. IsTrue decides ↔ Decides litmus.now labels.now) }
{
    let deciding = deciding_truth(litmus.condition.quantifier);
    let unfenced = GapSet::empty();
    match replay(alloc, &litmus.program, &unfenced, Model::Sequential, labels) {
        Ok(ended) => Ok(holds(&litmus.condition, &ended.outcome) == deciding),
        Err(_) => Err(AllocError),
    }
}

/// Whether one of these sequential runs decides the condition.
fn some_decides(alloc: Global, litmus: &Litmus<Program>, runs: &Runs) -> Result<bool, AllocError>
    ensures some { IfOk result (λ some. some ≡ true → SomeDecides litmus.now) }
    ensures none { IfOk result (λ some. some ≡ false → (labels : List SpelledLabel) → Contains runs.now labels → Decides litmus.now labels → ⊥) }
{
    for labels in runs.iter() {
        if decides(alloc, litmus, labels)? {
            return Ok(true);
        }
    }
    Ok(false)
}

/// What a note says of sequential runs that decide a condition: that no fence mends it, where it fails by them.
fn verdict_kind(quantifier: Quantifier) -> NoteKind
    ensures { result ≡ verdict_kind quantifier }
{
    match quantifier {
        Quantifier::Exists => NoteKind::HappensSequentially,
        Quantifier::NotExists => NoteKind::NoFenceMends,
        Quantifier::Forall => NoteKind::NoFenceMends,
    }
}

/// Whether a condition holds sequentially, by whether some run decides it.
pub(crate) fn holds_by(quantifier: Quantifier, verdict: &Option<Note>) -> bool
    ensures { result ≡ holds_by quantifier verdict.now }
{
    match (quantifier, verdict) {
        (Quantifier::Exists, None) => false,
        (Quantifier::Exists, Some(_)) => true,
        (Quantifier::NotExists, None) => true,
        (Quantifier::NotExists, Some(_)) => false,
        (Quantifier::Forall, None) => true,
        (Quantifier::Forall, Some(_)) => false,
    }
}

/// What is said of sequential runs that decide a condition, after what it is about.
fn verb(quantifier: Quantifier) -> &'static [u8] {
    match quantifier {
        Quantifier::Exists => b" happens without store buffers too",
        Quantifier::NotExists => b" happens without store buffers too: no fence mends it",
        Quantifier::Forall => b" fails without store buffers too: no fence mends it",
    }
}

/// That sequential runs decide the condition.
fn verdict_note(alloc: Global, litmus: &Litmus<Program>) -> Result<Note, AllocError>
    ensures { IfOk result (λ note. note.kind ≡ verdict_kind litmus.now.condition.quantifier) }
{
    let message = condition_sentence(alloc, litmus, verb(litmus.condition.quantifier))?;
    Ok(Note {
        kind: verdict_kind(litmus.condition.quantifier),
        line: None,
        column: None,
        word: Vec::new(alloc),
        message,
    })
}

/// That some sequential run decides the condition of a problem, if one does, by the runs of the certificate of its answer.
pub(crate) fn verdict_of(
    alloc: Global,
    problem: &Problem,
    certificate: &Certificate,
) -> Result<Option<Note>, AllocError>
    requires { IsPlacement (question_in problem.now) problem.now.costs.costs certificate.now }
    ensures { IfOk result (IsVerdictIn problem.now) }
{
    if some_decides(alloc, &problem.litmus, &certificate.seq_runs)? {
        Ok(Some(verdict_note(alloc, &problem.litmus)?))
    } else {
        Ok(None)
    }
}
