//! The texts of an answer, and of its certificate.
ghost use Rattle.std.specs.Prelude.{◌≡◌, None, IfErr, IfOk, OnOk, option_map};
ghost use Rattle.tso_program.specs.Fences.{first_missing};
ghost use Rattle.fence_place.specs.Faults.{AreTooFewOrMany};
ghost use Rattle.fence_place.specs.Placements.{IsPlacement};
ghost use Rattle.placed_text.specs.PlacedTexts.{AreTextsOf, ArePlacedTextsOf, IsAnswerText, IsPlacedText};
ghost use Rattle.placed_text.specs.Problems.{question_in};
ghost use Rattle.placed_text.specs.TextFaults.{HasNoPlacedText};
ghost use Rattle.placed_text.specs.Verdicts.{IsVerdictIn};

use crate::TextFault;
use crate::answered_problem::AnsweredProblem;
use crate::problem::Problem;
use crate::verdict::{holds_by, verdict_of};
use cert_forest::Certificate;
use cert_pages::write_pages;
use documents::{FoundAnswer, LinedLitmus, Note, placed_document};
use gap_sets::GapSet;
use json_text::JsonObject;
use litmus_text::write_litmus;
use paged_text::Pages;
use report::answer_line;
use search_effort::Effort;
use std::alloc::{AllocError, Global};
use std::sync::Wait;
use std::thread::Threads;
use tso_program::{FenceFault, ShownKind};

/// The texts of an answer.
#[derive(Drop)]
pub struct AnswerText {
    /// The program with its fences, in canonical text.
    pub program: Vec<u8>,
    /// The line of the answer.
    pub answer: Vec<u8>,
    /// What is said of the answer, as JSON.
    pub document: JsonObject,
    /// The gaps of the answer.
    pub gaps: GapSet,
    /// The note that a sequential run decides the condition, where one does.
    pub verdict: Option<Note>,
}

/// The texts of an answer, and the text of its certificate.
#[derive(Drop)]
pub struct PlacedText {
    pub texts: AnswerText,
    pub certificate: Pages,
}

/// Writes the texts of a problem's answer: these gaps, at this cost, with this verdict.
fn write_answer(
    alloc: Global,
    problem: &Problem,
    gaps: &GapSet,
    cost: u64,
    verdict: Option<Note>,
) -> Result<AnswerText, AllocError>
    requires there { first_missing problem.now.litmus.program gaps.now ≡ None }
    requires verdict { IsVerdictIn problem.now verdict }
    ensures { IfOk result (AreTextsOf problem.now gaps.now cost) }
{
    let Problem {
        litmus,
        shown,
        costs,
        lines,
    } = problem;
    let program = match write_litmus(alloc, litmus, gaps) {
        Ok(program) => program,
        Err(FenceFault::NoSuchGap(_)) => unreachable!(),
        Err(FenceFault::OutOfMemory) => return Err(AllocError),
    };
    let source = LinedLitmus { litmus, lines };
    let answer = FoundAnswer { shown, gaps };
    let holds = holds_by(litmus.condition.quantifier, &verdict);
    let document = placed_document(alloc, &source, &answer, costs, &program, holds)?;
    Ok(AnswerText {
        program,
        answer: answer_line(alloc, &litmus.program, shown, *gaps, cost)?,
        document,
        gaps: *gaps,
        verdict,
    })
}

/// Writes the texts of a problem's answer. The certificate is freed before they are made.
fn answer_of(
    alloc: Global,
    problem: &Problem,
    certificate: Certificate,
) -> Result<AnswerText, AllocError>
    requires { IsPlacement (question_in problem.now) problem.now.costs.costs certificate }
    ensures { IfOk result (AreTextsOf problem.now certificate.gaps certificate.cost) }
{
    let verdict = verdict_of(alloc, problem, &certificate)?;
    let gaps = certificate.set;
    let cost = certificate.cost;
    drop(certificate);
    write_answer(alloc, problem, &gaps, cost, verdict)
}

/// Writes the text of a certificate, which is freed as it is written, and the texts of the problem's answer.
fn write_placed<R: Threads + Sync>(
    rt: &R,
    alloc: Global,
    workers: u8,
    problem: &Problem,
    certificate: Certificate,
) -> Result<PlacedText, AllocError>
    requires { IsPlacement (question_in problem.now) problem.now.costs.costs certificate }
    ensures { IfOk result (ArePlacedTextsOf problem.now certificate) }
{
    let verdict = verdict_of(alloc, problem, &certificate)?;
    let gaps = certificate.set;
    let cost = certificate.cost;
    let threads = usize::from(workers.max(1));
    let certificate = write_pages(rt, alloc, threads, certificate)?;
    let texts = write_answer(alloc, problem, &gaps, cost, verdict)?;
    Ok(PlacedText { texts, certificate })
}

/// Places fences in the program of a litmus text, where its gaps cost what a text of costs says, and 1
/// each without one: the best set of gaps with whose fences the program has exactly its sequential outcomes.
/// Outcomes that show the same, by the kind, count as one.
///
/// The litmus text is judged first, then the costs, then the number of workers. With `rt` workers start threads
/// and wait for one another ([`fence_place::place`]). [`Effort`] says where it reports how far it is.
pub fn answer_text<R: Threads + Wait + Sync>(
    rt: &R,
    alloc: Global,
    litmus: &[u8],
    costs: Option<&[u8]>,
    kind: ShownKind,
    effort: Effort,
) -> Result<AnswerText, TextFault>
    ensures told { IfOk result (IsAnswerText litmus.now (option_map (λ text. text.now) costs.entry) kind) }
    ensures workers { OnOk result (¬ AreTooFewOrMany effort.workers) }
    ensures fault { IfErr result (HasNoPlacedText litmus.now (option_map (λ text. text.now) costs.entry) effort.workers) }
{
    let answered = AnsweredProblem::of_texts(rt, alloc, litmus, costs, kind, effort)?;
    let AnsweredProblem {
        problem,
        certificate,
    } = answered;
    Ok(answer_of(alloc, &problem, certificate)?)
}

/// Places fences in the program of a litmus text as [`answer_text`] does, and writes the certificate too, by the threads of
/// its workers.
pub fn place_text<R: Threads + Wait + Sync>(
    rt: &R,
    alloc: Global,
    litmus: &[u8],
    costs: Option<&[u8]>,
    kind: ShownKind,
    effort: Effort,
) -> Result<PlacedText, TextFault>
    ensures placed { IfOk result (IsPlacedText litmus.now (option_map (λ text. text.now) costs.entry) kind) }
    ensures workers { OnOk result (¬ AreTooFewOrMany effort.workers) }
    ensures fault { IfErr result (HasNoPlacedText litmus.now (option_map (λ text. text.now) costs.entry) effort.workers) }
{
    let answered = AnsweredProblem::of_texts(rt, alloc, litmus, costs, kind, effort)?;
    let AnsweredProblem {
        problem,
        certificate,
    } = answered;
    let workers = effort.workers;
    Ok(write_placed(rt, alloc, workers, &problem, certificate)?)
}
