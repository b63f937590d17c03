//! Why the fences of a placement in the program of a text are needed.
ghost use Rattle.std.specs.Prelude.{◌≡◌, ◌<◌, ◌++◌, ◌∷◌, [], true, IfErr, IfOk, OnOk, length, option_map};
ghost use Rattle.std.specs.FinSet as set;
ghost use Rattle.gap_sets.specs.Gaps.{numbers_of_set};
ghost use Rattle.gap_sets.specs.declared.gap_set.TheConstants.{MAX_GAPS};
ghost use Rattle.tso_program.specs.Listings.{gap_count};
ghost use Rattle.tree_laws.specs.Certificates.{names_of};
ghost use Rattle.tree_laws.specs.Laws.{IsProved};
ghost use Rattle.report.specs.Answers.{answer_line};
ghost use Rattle.fence_place.specs.Faults.{AreTooFewOrMany};
ghost use Rattle.fence_place.specs.Placements.{IsPlacement};
ghost use Rattle.placed_text.specs.Problems.{question_in};
ghost use Rattle.placed_text.specs.TextFaults.{HasNoPlacedText};
ghost use Rattle.placed_text.specs.Verdicts.{IsVerdictIn};
ghost use Rattle.placed_text.specs.WhyTexts.{none_line, reasons_or_none, IsReason, IsWhyText, TellsReasons, TellsWhy};

use crate::TextFault;
use crate::answered_problem::AnsweredProblem;
use crate::problem::Problem;
use crate::reasons::{GapReason, LeftOut, push_graph, reason_of, run_avoiding};
use crate::verdict::verdict_of;
use cert_check::certificate_proves_answer;
use cert_forest::Certificate;
use documents::{LinedLitmus, Note, why_document};
use gap_sets::GapSet;
use json_text::{JsonArray, JsonObject};
use litmus_text::Litmus;
use report::answer_line;
use run_views::RunGraph;
use search_effort::Effort;
use std::alloc::{AllocError, Global};
use std::sync::Wait;
use std::thread::Threads;
use tso_program::{Program, Shown, ShownKind};

/// Why the gaps of an answer are needed.
#[derive(Drop)]
pub struct WhyText {
    /// What is printed.
    pub lines: Vec<u8>,
    /// The candidate executions of the runs, as a graph in Graphviz's language.
    pub graph: Vec<u8>,
    /// What is printed with `--json`.
    pub document: JsonObject,
    /// The gaps of the answer.
    pub gaps: GapSet,
    /// The note that a sequential run decides the condition, where one does.
    pub verdict: Option<Note>,
}

/// Why gaps are needed, one after the other.
#[derive(Drop)]
struct Explanation {
    lines: Vec<u8>,
    graph: RunGraph,
    runs: JsonArray,
}

impl Explanation {
    /// Adds why a gap is needed.
    fn push(
        &mut self,
        alloc: Global,
        litmus: &Litmus<Program>,
        reason: GapReason,
    ) -> Result<(), AllocError>
        ensures lines { OnOk result (self.new.lines.items ≡ self.old.lines.items ++ reason.lines.items) }
        ensures runs { OnOk result (self.new.runs ≡ self.old.runs ++ reason.run ∷ []) }
    {
        push_graph(alloc, &mut self.graph, litmus, &reason)?;
        self.lines.extend_from_slice(&reason.lines)?;
        self.runs.add(reason.run)
    }
}

/// The gaps of a certificate's answer.
fn gaps_of(certificate: &Certificate) -> GapSet
    ensures { result ≡ certificate.now.gaps }
{
    certificate.set
}

/// The cost of a certificate's answer.
fn cost_of(certificate: &Certificate) -> u64
    ensures { result ≡ certificate.now.cost }
{
    certificate.cost
}

/// Why a tie of the answer is needed: a run of the certificate passes no gap of the others. `names` are those of the
/// answer's ties, and `name` is one of them.
fn reason_for(
    alloc: Global,
    problem: &Problem,
    certificate: &Certificate,
    names: &GapSet,
    name: u8,
) -> Result<GapReason, AllocError>
    requires one_each { length problem.now.costs.costs ≡ gap_count problem.now.litmus.program.threads }
    requires proved { IsProved (question_in problem.now) problem.now.costs.costs certificate.now }
    requires names { names.now ≡ names_of (question_in problem.now) certificate.now }
    requires name { name < MAX_GAPS }
    requires held { set.contains names.now name ≡ true }
    ensures { IfOk result (λ reason. IsReason problem.now.litmus problem.now.shown problem.now.costs.ties names.now name (reason.lines.items, reason.run)) }
{
    let Problem {
        litmus,
        shown,
        costs,
        ..
    } = problem;
    costs.costs.recall_facts();
    names.recall_facts();
    let left_out = LeftOut {
        tie: costs.ties.spread(&GapSet::empty().with(name)),
        others: costs.ties.spread(&names.without(name)),
    };
    let run = run_avoiding(alloc, &litmus.program, &certificate.runs, &left_out.others)?;
    reason_of(alloc, litmus, shown, left_out, &run)
}

/// Why each tie of the answer is needed.
fn reasons(
    alloc: Global,
    problem: &Problem,
    certificate: &Certificate,
) -> Result<Explanation, AllocError>
    requires one_each { length problem.now.costs.costs ≡ gap_count problem.now.litmus.program.threads }
    requires proved { IsProved (question_in problem.now) problem.now.costs.costs certificate.now }
    ensures { IfOk result (λ told. TellsReasons problem.now.litmus problem.now.shown problem.now.costs.ties (names_of (question_in problem.now) certificate.now) (numbers_of_set (names_of (question_in problem.now) certificate.now)) told.lines.items told.runs) }
{
    let names = problem.costs.ties.names_in(&gaps_of(certificate));
    names.recall_facts();
    let graph = RunGraph::new(alloc)?;
    let mut told = Explanation {
        lines: Vec::new(alloc),
        graph,
        runs: JsonArray::new(alloc),
    };
    for name in names.iter() {
        let reason = reason_for(alloc, problem, certificate, &names, name)?;
        told.push(alloc, &problem.litmus, reason)?;
    }
    Ok(told)
}

/// That no gap is needed.
fn none_line(shown: &Shown) -> &'static [u8]
    ensures { result.now ≡ none_line shown.now }
{
    match shown {
        Shown::All => b"Every store buffer outcome is sequential.\n",
        Shown::Only(_) => b"Every store buffer outcome is sequential in what is compared.\n",
        Shown::Truth(_) => b"Store buffers do not change the condition's verdict.\n",
    }
}

/// The lines of reasons, or a line that no gap is needed.
fn reasons_or_none<'a>(shown: &Shown, reasons: &'a [u8]) -> &'a [u8]
    ensures { result.now ≡ reasons_or_none shown.now reasons.now }
{
    if reasons.is_empty() {
        none_line(shown)
    } else {
        reasons
    }
}

/// The answer line, and the lines of the reasons, or one that no gap is needed.
fn why_lines(
    alloc: Global,
    problem: &Problem,
    certificate: &Certificate,
    reasons: &[u8],
) -> Result<Vec<u8>, AllocError>
    ensures { IfOk result (λ lines. lines.items ≡ answer_line problem.now.litmus.program problem.now.shown certificate.now.gaps certificate.now.cost ++ reasons_or_none problem.now.shown reasons.now) }
{
    let Problem { litmus, shown, .. } = problem;
    let set = gaps_of(certificate);
    let cost = cost_of(certificate);
    let mut lines = answer_line(alloc, &litmus.program, shown, set, cost)?;
    lines.extend_from_slice(reasons_or_none(shown, reasons))?;
    Ok(lines)
}

/// The answer line, and why each tie of the answer is needed.
fn explained(
    alloc: Global,
    problem: &Problem,
    certificate: &Certificate,
) -> Result<WhyText, AllocError>
    requires one_each { length problem.now.costs.costs ≡ gap_count problem.now.litmus.program.threads }
    requires proved { IsProved (question_in problem.now) problem.now.costs.costs certificate.now }
    requires placement { IsPlacement (question_in problem.now) problem.now.costs.costs certificate.now }
    ensures told { IfOk result (λ told. TellsWhy problem.now.litmus problem.now.shown problem.now.costs certificate.now.gaps (answer_line problem.now.litmus.program problem.now.shown certificate.now.gaps certificate.now.cost) told.lines.items told.document) }
    ensures verdict { IfOk result (λ told. IsVerdictIn problem.now told.verdict) }
{
    let Problem {
        litmus,
        shown,
        costs,
        lines: stand,
    } = problem;
    let set = gaps_of(certificate);
    let verdict = verdict_of(alloc, problem, certificate)?;
    let reasons = reasons(alloc, problem, certificate)?;
    let Explanation {
        lines: each,
        graph,
        runs,
    } = reasons;
    let lines = why_lines(alloc, problem, certificate, &each)?;
    let source = LinedLitmus {
        litmus,
        lines: stand,
    };
    Ok(WhyText {
        lines,
        graph: graph.into_text()?,
        document: why_document(alloc, &source, shown, costs, &set, runs)?,
        gaps: set,
        verdict,
    })
}

/// Places fences in the program of a litmus text as [`crate::answer_text`] does, and says why each of them is
/// needed: after the answer line, for each tie of the answer a run with the gaps of the other ties fenced, whose
/// outcome no sequential run has. The graph has these runs, and the document says what the lines say.
pub fn why_text<R: Threads + Wait + Sync>(
    rt: &R,
    alloc: Global,
    litmus: &[u8],
    costs: Option<&[u8]>,
    kind: ShownKind,
    effort: Effort,
) -> Result<WhyText, TextFault>
    ensures told { IfOk result (λ reasons. IsWhyText litmus.now (option_map (λ text. text.now) costs.entry) kind reasons.lines.items reasons.document reasons.verdict) }
    ensures workers { OnOk result (¬ AreTooFewOrMany effort.workers) }
    ensures fault { IfErr result (HasNoPlacedText litmus.now (option_map (λ text. text.now) costs.entry) effort.workers) }
{
    let answered = AnsweredProblem::of_texts(rt, alloc, litmus, costs, kind, effort)?;
    let AnsweredProblem {
        problem,
        certificate,
    } = &answered;
    // For the proof alone: the certificate is valid, so of each better set one of its runs passes no gap.
    certificate_proves_answer(&problem.litmus.program, &problem.costs.costs);
    Ok(explained(alloc, problem, certificate)?)
}
