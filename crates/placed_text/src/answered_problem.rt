//! The problem of texts, with the certificate of its answer.
ghost use Rattle.std.specs.Prelude.{◌≡◌, IfErr, IfOk, OnOk, length, option_map};
ghost use Rattle.tso_program.specs.Listings.{gap_count};
ghost use Rattle.fence_place.specs.Faults.{AreTooFewOrMany};
ghost use Rattle.fence_place.specs.Placements.{IsPlacement};
ghost use Rattle.placed_text.specs.Problems.{question_in, IsProblem};
ghost use Rattle.placed_text.specs.TextFaults.{HasNoPlacedText};

use crate::TextFault;
use crate::problem::{Problem, read_problem};
use crate::proposed::certificate_of;
use cert_forest::Certificate;
use search_effort::Effort;
use std::alloc::Global;
use std::sync::Wait;
use std::thread::Threads;
use tso_program::ShownKind;

/// A problem, and the certificate of its answer.
#[derive(Drop)]
pub(crate) struct AnsweredProblem {
    pub(crate) problem: Problem,
    pub(crate) certificate: Certificate,
}

impl AnsweredProblem {
    /// The problem of a litmus text and of costs, as [`read_problem`] reads it, with the certificate of its answer.
    pub(crate) fn of_texts<R: Threads + Wait + Sync>(
        rt: &R,
        alloc: Global,
        litmus: &[u8],
        costs: Option<&[u8]>,
        kind: ShownKind,
        effort: Effort,
    ) -> Result<AnsweredProblem, TextFault>
        ensures problem { IfOk result (λ answered. IsProblem litmus.now (option_map (λ text. text.now) costs.entry) kind answered.problem) }
        ensures one_each { IfOk result (λ answered. length answered.problem.costs.costs ≡ gap_count answered.problem.litmus.program.threads) }
        ensures placement { IfOk result (λ answered. IsPlacement (question_in answered.problem) answered.problem.costs.costs answered.certificate) }
        ensures workers { OnOk result (¬ AreTooFewOrMany effort.workers) }
        ensures fault { IfErr result (HasNoPlacedText litmus.now (option_map (λ text. text.now) costs.entry) effort.workers) }
    {
        let problem = read_problem(alloc, litmus, costs, kind)?;
        let certificate = certificate_of(rt, alloc, &problem, effort)?;
        Ok(AnsweredProblem {
            problem,
            certificate,
        })
    }
}
