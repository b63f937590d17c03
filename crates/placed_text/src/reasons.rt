//! Why a gap of the answer is needed.
ghost use Rattle.std.specs.Prelude.{◌≡◌, ◌++◌, ℕ, List, true, IfOk, OnOk, Contains, map};
ghost use Rattle.std.specs.FinSet as set;
ghost use Rattle.tso_program.specs.Fences.{gaps_in};
ghost use Rattle.tso_program.specs.declared.shown.Shown.TheVariants.{All};
ghost use Rattle.tso_program.specs.Shown.{asked};
ghost use Rattle.tso_machine.specs.declared.label.Model.TheVariants.{Buffered};
ghost use Rattle.tso_machine.specs.FenceLaws.{PassesNoGapOf};
ghost use Rattle.tso_machine.specs.declared.label.Label.{Label};
ghost use Rattle.tso_machine.specs.Machine.{StoreBufferMachine, start};
ghost use Rattle.tso_machine.specs.Outcomes.{IsReplayOf};
ghost use Rattle.tso_machine.specs.Steps.{AreSteps};
ghost use Rattle.tree_laws.specs.Laws.{IsForeign};
ghost use Rattle.report.specs.Answers.{printed_labels, without_line};
ghost use Rattle.placed_text.specs.WhyTexts.{is_foreign, met_line, alone_line, foreign_lines, printed_of, ending_text, IsReasonOf};

use crate::marked_table::marked_table;
use cert_forest::Runs;
use documents::{Setting, run_value};
use gap_sets::GapSet;
use json_text::JsonText;
use litmus_text::{Litmus, holds};
use report::{labels_line, outcome_line, passed_line, without_line};
use run_views::{RunGraph, run_table};
use std::alloc::{AllocError, Global};
use tso_machine::{Ended, Label, Model, Step, replay_shown, steps};
use tso_program::{Program, Shown};

/// A tie that is left out of an answer, and the gaps of the others.
#[derive(Clone, Copy)]
pub(crate) struct LeftOut {
    pub(crate) tie: GapSet,
    pub(crate) others: GapSet,
}

/// Why a tie is needed.
#[derive(Drop)]
pub(crate) struct GapReason {
    /// The gaps of the tie.
    pub(crate) tie: GapSet,
    /// The one that the run passes.
    pub(crate) gap: u8,
    /// What is printed.
    pub(crate) lines: Vec<u8>,
    /// What the document says of the run.
    pub(crate) run: JsonText,
    /// The steps of the run.
    pub(crate) steps: Vec<Step>,
}

/// A run, what it leaves, all of it, and the gaps that it passes.
#[derive(Drop)]
pub(crate) struct EndedRun<'a> {
    labels: &'a [Label],
    ended: Ended,
}

/// The first of these runs that passes no gap of the set.
pub(crate) fn run_avoiding<'a>(
    alloc: Global,
    program: &Program,
    runs: &'a Runs,
    gaps: &GapSet,
) -> Result<EndedRun<'a>, AllocError>
    requires { (labels : List Label) × Contains runs.now labels × PassesNoGapOf program.now gaps.now labels }
    ensures here { IfOk result (λ run. Contains runs.now run.labels.now) }
    ensures ended { IfOk result (λ run. IsReplayOf (asked program.now All) Buffered run.labels.now run.ended) }
    ensures avoids { IfOk result (λ run. PassesNoGapOf program.now gaps.now run.labels.now) }
{
    for labels in runs.iter() {
        let ended = ended_of(alloc, program, labels)?;
        if !ended.passed.meets(gaps) {
            return Ok(EndedRun { labels, ended });
        }
    }
    unreachable!()
}

/// Adds the run of a reason to a graph, under the tie that it needs.
pub(crate) fn push_graph(
    alloc: Global,
    graph: &mut RunGraph,
    litmus: &Litmus<Program>,
    reason: &GapReason,
) -> Result<(), AllocError> {
    let line = without_line(alloc, &litmus.program, &reason.tie)?;
    let title = line.trim_ascii_end();
    graph.push_run(alloc, litmus, title, &reason.steps, Some(reason.gap))
}

/// The least gap of a tie that a run passes.
fn passed_gap(tie: &GapSet, passed: &GapSet) -> u8
    requires { (gap : ℕ) × (set.contains tie.now gap ≡ true) × (set.contains passed.now gap ≡ true) }
    ensures tie { set.contains tie.now result ≡ true }
    ensures passed { set.contains passed.now result ≡ true }
{
    tie.recall_facts();
    for gap in tie.iter() {
        if passed.has(gap) {
            return gap;
        }
    }
    unreachable!()
}

/// The steps of a run, where the gaps of the answer's other ties are fenced.
fn steps_of(
    alloc: Global,
    program: &Program,
    others: &GapSet,
    labels: &[Label],
) -> Result<Vec<Step>, AllocError>
    ensures steps { IfOk result (λ steps. AreSteps program.now (StoreBufferMachine (gaps_in program.now others.now)) (start program.now) labels.now steps.items) }
    ensures labels { IfOk result (λ steps. map (λ step. step.label) steps.items ≡ labels.now) }
{
    match steps(alloc, program, others, Model::Buffered, labels) {
        Ok(steps) => Ok(steps),
        Err(_) => Err(AllocError),
    }
}

/// What a run leaves, all of it, and the gaps that it passes.
fn ended_of(alloc: Global, program: &Program, labels: &[Label]) -> Result<Ended, AllocError>
    ensures { IfOk result (IsReplayOf (asked program.now All) Buffered labels.now) }
{
    match replay_shown(alloc, program, &Shown::All, Model::Buffered, labels) {
        Ok(ended) => Ok(ended),
        Err(_) => Err(AllocError),
    }
}

/// What is printed of an outcome of which this is shown. It takes no memory.
fn printed_of(shown: &Shown) -> Shown
    ensures { result ≡ printed_of shown.now }
{
    match shown {
        Shown::All => Shown::All,
        Shown::Only(names) => Shown::Only(*names),
        Shown::Truth(_) => Shown::All,
    }
}

/// Whether a run's outcome meets the condition's formula, as a sentence.
fn met_line(meets: bool) -> &'static [u8]
    ensures { result.now ≡ met_line meets }
{
    if meets {
        b"This run meets the condition's formula.\n"
    } else {
        b"This run does not meet the condition's formula; registers or memory end as they sequentially cannot.\n"
    }
}

/// Whether a run meets the condition's formula, as no sequential run does, as a sentence.
fn alone_line(meets: bool) -> &'static [u8]
    ensures { result.now ≡ alone_line meets }
{
    if meets {
        b"This run meets the condition's formula, and no sequential run does.\n"
    } else {
        b"This run does not meet the condition's formula, and each sequential run does.\n"
    }
}

/// Adds that no sequential run has this outcome, and whether it meets the condition's formula.
fn push_outcome(out: &mut Vec<u8>, meets: bool) -> Result<(), AllocError>
    ensures { OnOk result (out.new.items ≡ out.old.items ++ is_foreign ++ met_line meets) }
{
    out.extend_from_slice(b"No sequential run has this outcome.\n")?;
    out.extend_from_slice(met_line(meets))
}

/// Adds that no sequential run leaves what is shown, and whether the condition's formula is met.
fn push_foreign(out: &mut Vec<u8>, shown: &Shown, meets: bool) -> Result<(), AllocError>
    ensures { OnOk result (out.new.items ≡ out.old.items ++ foreign_lines shown.now meets) }
{
    match shown {
        Shown::All | Shown::Only(_) => push_outcome(out, meets),
        Shown::Truth(_) => out.extend_from_slice(alone_line(meets)),
    }
}

/// What a run leaves, the gaps that it passes, that no sequential run leaves this, and whether it meets the condition.
fn ending_lines(
    alloc: Global,
    litmus: &Litmus<Program>,
    shown: &Shown,
    ended: &Ended,
) -> Result<Vec<u8>, AllocError>
    ensures { IfOk result (λ lines. lines.items ≡ ending_text litmus.now shown.now ended.now.outcome ended.now.passed) }
{
    let printed = printed_of(shown);
    let passed = passed_line(alloc, &litmus.program, &ended.passed)?;
    let meets = holds(&litmus.condition, &ended.outcome);
    let mut lines = outcome_line(alloc, &litmus.names, &printed, &ended.outcome)?;
    lines.extend_from_slice(&passed)?;
    push_foreign(&mut lines, shown, meets)?;
    Ok(lines)
}

/// A tie, and a run: its labels, its table, and how it ends.
fn lines_with(
    alloc: Global,
    program: &Program,
    tie: &GapSet,
    labels: &[Label],
    table: &[u8],
    ending: &[u8],
) -> Result<Vec<u8>, AllocError>
    ensures { IfOk result (λ lines. lines.items ≡ without_line program.now tie.now ++ printed_labels labels.now ++ table.now ++ ending.now) }
{
    let labels = labels_line(alloc, labels)?;
    let mut lines = without_line(alloc, program, tie)?;
    lines.extend_from_slice(&labels)?;
    lines.extend_from_slice(table)?;
    lines.extend_from_slice(ending)?;
    Ok(lines)
}

/// Why a tie of the answer is needed, by a run that passes no gap of the others.
pub(crate) fn reason_of(
    alloc: Global,
    litmus: &Litmus<Program>,
    shown: &Shown,
    left_out: LeftOut,
    run: &EndedRun<'_>,
) -> Result<GapReason, AllocError>
    requires foreign { IsForeign (asked litmus.now.program shown.now) run.now.labels.now }
    requires ended { IsReplayOf (asked litmus.now.program All) Buffered run.now.labels.now run.now.ended }
    requires avoids { PassesNoGapOf litmus.now.program left_out.others run.now.labels.now }
    requires passes { (gap : ℕ) × (set.contains left_out.tie gap ≡ true) × (set.contains run.now.ended.passed gap ≡ true) }
    ensures { IfOk result (λ reason. IsReasonOf litmus.now shown.now left_out (reason.lines.items, reason.run)) }
{
    let EndedRun { labels, ended } = run;
    let LeftOut { tie, others } = left_out;
    let gap = passed_gap(&tie, &ended.passed);
    let steps = steps_of(alloc, &litmus.program, &others, labels)?;
    let table = run_table(alloc, litmus, &steps)?;
    let marked = marked_table(alloc, &litmus.program, gap, &steps, &table)?;
    let ending = ending_lines(alloc, litmus, shown, ended)?;
    let lines = lines_with(alloc, &litmus.program, &tie, labels, &marked, &ending)?;
    let printed = printed_of(shown);
    let setting = Setting::Without(gap);
    let said = run_value(alloc, litmus, &printed, setting, &steps, ended)?;
    Ok(GapReason {
        tie,
        gap,
        lines,
        run: said,
        steps,
    })
}
