//! Outcomes that a search for early trees proposes, and whether a list has all, as they are judged.
ghost use Rattle.std.specs.Prelude.{◌++◌, ◌∷◌, [], IsTrue, IfOk, IfSome, Contains};
ghost use Rattle.tso_program.specs.declared.outcome.Outcome.{Outcome};
ghost use Rattle.tso_program.specs.Shown.{asked};
ghost use Rattle.tso_machine.specs.Modes.{machine_of_mode};
ghost use Rattle.tso_machine.specs.Outcomes.{AllowsShown, IsShownRun};
ghost use Rattle.tree_laws.specs.Ascending.{Ascend};
ghost use Rattle.dataflow_laws.specs.DeadLoads.{IsWithoutDeadLoads};
ghost use Rattle.cover_solver.specs.Completeness.{IsCompleteness};
ghost use Rattle.cover_solver.specs.OutcomeLists.{AreRunsOf, IsListOfAll};
ghost use Rattle.cover_solver.specs.Sought.{question_of, machine_of};

use crate::completeness::Completeness;
use crate::outcome_list::OutcomeList;
use crate::tree_nodes::are_trees;
use candidate_search::{Proposal, ProposedOutcomes, ProposingSearch, SearchPlan, SearchWatch};
use cert_forest::{Node, Runs, Walk};
use cover_judge::{NodeFault, RowlessSketch, judge};
use cover_search::Search;
use dataflow_laws::{dead_loads_keep_outcomes, dead_loads_keep_runs, dropped_loads_keep_gaps};
use live_registers::without_dead_loads;
use std::alloc::{AllocError, Global};
use std::thread::Threads;
use tree_laws::{Rule, a_valid_cover_tree_covers, a_valid_tree_lists_every_outcome};
use tso_machine::{Ended, Label, Mode, ReplayFault, replay};
use tso_program::{Outcome, Program, Shown};

/// All outcomes of a search, as a search for early trees proposes them, where they are judged to be all. `None` where it gives
/// up, or where what it proposes is wrong. It is made without the program's dead loads.
pub(crate) fn proposed_outcomes(search: &Search) -> Result<Option<OutcomeList>, AllocError>
    ensures { IfOk result (λ found. IfSome found (IsListOfAll (asked search.now.program.now search.now.shown.now) (machine_of_mode search.now.program.now search.now.mode))) }
{
    let slim = without_dead_loads(search.alloc, search.program, search.shown)?;
    let watch = SearchWatch::none();
    let plan = SearchPlan {
        rule: Rule::Early,
        workers: 1,
        watch: &watch,
    };
    let found = ProposingSearch::new(search.alloc, plan, &slim, search.shown)?.outcomes(
        search.mode,
    )?;
    judged_for(search, &slim, found)
}

/// All outcomes of a search, as [`proposed_outcomes`] finds them, by a plan, but for its rule: threads share a long search, and
/// its watch reports how far it is.
pub(crate) fn outcomes_by_threads<R: Threads + Sync>(
    rt: &R,
    plan: SearchPlan<'_>,
    search: &Search,
) -> Result<Option<OutcomeList>, AllocError>
    ensures { IfOk result (λ found. IfSome found (IsListOfAll (asked search.now.program.now search.now.shown.now) (machine_of_mode search.now.program.now search.now.mode))) }
{
    let slim = without_dead_loads(search.alloc, search.program, search.shown)?;
    let plan = SearchPlan {
        rule: Rule::Early,
        ..plan
    };
    let found = ProposingSearch::new(search.alloc, plan, &slim, search.shown)?.outcomes_by_threads(
        rt,
        search.mode,
    )?;
    judged_for(search, &slim, found)
}

/// Whether outcomes are all of a search, as a search for early trees proposes it, where that is judged to be so. `None` where
/// it gives up, or where what it proposes is wrong. It is made without the program's dead loads.
pub(crate) fn proposed_completeness(
    search: &Search,
    outcomes: &[Outcome],
) -> Result<Option<Completeness>, AllocError>
    requires { Ascend outcomes.now }
    ensures { IfOk result (λ found. IfSome found (IsCompleteness (asked search.now.program.now search.now.shown.now) (machine_of_mode search.now.program.now search.now.mode) outcomes.now)) }
{
    let slim = without_dead_loads(search.alloc, search.program, search.shown)?;
    let watch = SearchWatch::none();
    let plan = SearchPlan {
        rule: Rule::Early,
        workers: 1,
        watch: &watch,
    };
    let found = ProposingSearch::new(search.alloc, plan, &slim, search.shown)?.completeness(
        search.mode,
        outcomes,
    )?;
    dropped_loads_keep_gaps();
    dead_loads_keep_runs();
    dead_loads_keep_outcomes();
    let sought = Sought {
        alloc: search.alloc,
        program: &slim,
        shown: search.shown,
        mode: search.mode,
    };
    sought.judged_completeness(found, outcomes)
}

/// What is proposed of a search's program without its dead loads, where it is judged to be all outcomes of the search.
fn judged_for(
    search: &Search,
    slim: &Program,
    found: Option<ProposedOutcomes>,
) -> Result<Option<OutcomeList>, AllocError>
    requires { IsWithoutDeadLoads search.now.program.now search.now.shown.now slim.now }
    ensures { IfOk result (λ found. IfSome found (IsListOfAll (asked search.now.program.now search.now.shown.now) (machine_of_mode search.now.program.now search.now.mode))) }
{
    dropped_loads_keep_gaps();
    dead_loads_keep_runs();
    dead_loads_keep_outcomes();
    let sought = Sought {
        alloc: search.alloc,
        program: slim,
        shown: search.shown,
        mode: search.mode,
    };
    sought.judged(found)
}

/// A program, what is shown of its outcomes, and the mode in which these are sought.
#[derive(Clone, Copy)]
struct Sought<'a> {
    alloc: Global,
    program: &'a Program,
    shown: &'a Shown,
    mode: Mode,
}

impl Sought<'_> {
    /// The outcomes that are proposed, where they are judged to be all.
    fn judged(&self, found: Option<ProposedOutcomes>) -> Result<Option<OutcomeList>, AllocError>
        ensures { IfOk result (λ found. IfSome found (IsListOfAll (question_of self.now) (machine_of self.now))) }
    {
        let Some(proposed) = found else {
            return Ok(None);
        };
        let ProposedOutcomes { runs, nodes, .. } = proposed;
        let Some(outcomes) = self.outcomes_of(&runs)? else {
            return Ok(None);
        };
        if !self.are_all(&nodes, &outcomes)? {
            return Ok(None);
        }
        Ok(Some(OutcomeList { outcomes, runs }))
    }

    /// What is proposed of outcomes, where it is judged to be so.
    fn judged_completeness(
        &self,
        found: Option<Proposal>,
        outcomes: &[Outcome],
    ) -> Result<Option<Completeness>, AllocError>
        requires { Ascend outcomes.now }
        ensures { IfOk result (λ found. IfSome found (IsCompleteness (question_of self.now) (machine_of self.now) outcomes.now)) }
    {
        match found {
            None => Ok(None),
            Some(Proposal::Complete(nodes)) => {
                let all = self.are_all(&nodes, outcomes)?;
                Ok(all.then_some(Completeness::Complete))
            }
            Some(Proposal::Lacking(labels)) => match self.outcome_of(&labels)? {
                Some(outcome) => match outcomes.binary_search(&outcome) {
                    Ok(_) => Ok(None),
                    Err(_) => Ok(Some(Completeness::Lacking(labels))),
                },
                None => Ok(None),
            },
        }
    }

    /// What is shown of the outcomes of runs. `None` if one is no run, or they do not ascend.
    fn outcomes_of(&self, runs: &Runs) -> Result<Option<Vec<Outcome>>, AllocError>
        ensures ascend { IfOk result (λ found. IfSome found (λ outcomes. Ascend outcomes.items)) }
        ensures runs { IfOk result (λ found. IfSome found (λ outcomes. AreRunsOf (question_of self.now) (machine_of self.now) runs.now outcomes.items)) }
    {
        let mut outcomes = Vec::new(self.alloc);
        for labels in runs {
            let Some(outcome) = self.outcome_of(labels)? else {
                return Ok(None);
            };
            if !comes_last(&outcomes, &outcome) {
                return Ok(None);
            }
            outcomes.push(outcome)?;
        }
        Ok(Some(outcomes))
    }

    /// What is shown of the outcome of a run. `None` if the labels are no run.
    fn outcome_of(&self, labels: &[Label]) -> Result<Option<Outcome>, AllocError>
        ensures { IfOk result (λ found. IfSome found (IsShownRun (question_of self.now) (machine_of self.now) labels.now)) }
    {
        let (model, fenced) = self.mode.model_and_gaps();
        match replay(self.alloc, self.program, &fenced, model, labels) {
            Ok(Ended { mut outcome, .. }) => {
                outcome.show(self.alloc, self.shown)?;
                Ok(Some(outcome))
            }
            Err(ReplayFault::OutOfMemory) => Err(AllocError),
            Err(_) => Ok(None),
        }
    }

    /// Whether nodes are those of an early tree by which there are no other outcomes than these.
    fn are_all(&self, nodes: &[Node], outcomes: &[Outcome]) -> Result<bool, AllocError>
        ensures { IfOk result (λ all. IsTrue all → (o : Outcome) → AllowsShown (question_of self.now) (machine_of self.now) o → Contains outcomes.now o) }
    {
        if !are_trees(nodes) {
            return Ok(false);
        }
        self.program.recall_facts();
        a_valid_cover_tree_covers();
        a_valid_tree_lists_every_outcome();
        let mut sketch = RowlessSketch::new(self.alloc, self.program, self.mode)?;
        let mut walk = Walk::over(nodes);
        match judge(
            self.alloc,
            Rule::Early,
            &mut walk,
            &mut sketch,
            self.shown,
            outcomes,
        ) {
            Ok(()) => Ok(true),
            Err(NodeFault::Wrong(_)) => Ok(false),
            Err(NodeFault::OutOfMemory) => Err(AllocError),
        }
    }
}

/// Whether an outcome comes after each of a list that ascends.
fn comes_last(outcomes: &[Outcome], outcome: &Outcome) -> bool
    requires { Ascend outcomes.now }
    ensures { IsTrue result → Ascend (outcomes.now ++ outcome.now ∷ []) }
{
    match outcomes.binary_search(outcome) {
        Ok(_) => false,
        Err(place) => place == outcomes.len(),
    }
}
