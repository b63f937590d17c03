//! Known foreign runs, and the search for a best set of gaps that serves by them.
use candidate_search::{Proposal, ProposingSearch};
use cert_forest::{Node, Rule, Runs};
use gap_sets::{GapSet, MAX_GAPS, TiedCosts};
use hitting_sets::best_hitting_set;
use std::alloc::{AllocError, Global};
use std::thread::Threads;
use tso_machine::{Label, Model, ReplayFault, replay_shown};
use tso_program::{Outcome, Program, Shown};

/// More questions than any machine asks: memory ends the search before.
const MOST_QUESTIONS: u64 = 1 << 56;

/// Foreign runs that are known, and the names of the ties of which each passes a gap. A set is one of names.
#[derive(Drop)]
pub(crate) struct ForeignRuns<'a> {
    pub(crate) alloc: Global,
    /// The rule of the certificate's trees.
    pub(crate) rule: Rule,
    pub(crate) program: &'a Program,
    pub(crate) shown: &'a Shown,
    pub(crate) costs: &'a TiedCosts,
    pub(crate) runs: Runs,
    pub(crate) passed: Vec<GapSet>,
}

/// A set of names, and the nodes of a cover tree that is to show that it serves.
#[derive(Drop)]
pub(crate) struct ServedSet {
    pub(crate) set: GapSet,
    pub(crate) nodes: Vec<Node>,
}

impl ForeignRuns<'_> {
    /// Asks about the best set that meets each known run, until one serves. `None` if the search gives up.
    pub(crate) fn served<R: Threads + Sync>(
        &mut self,
        rt: &R,
        search: &ProposingSearch<'_>,
        outcomes: &[Outcome],
    ) -> Result<Option<ServedSet>, AllocError> {
        for _ in 0..MOST_QUESTIONS {
            let Some(set) = best_hitting_set(self.alloc, &self.costs.costs, &self.passed)? else {
                return Ok(None);
            };
            match search.verdict(rt, &self.costs.ties.spread(&set), outcomes)? {
                Some(Proposal::Complete(nodes)) => return Ok(Some(ServedSet { set, nodes })),
                Some(Proposal::Lacking(labels)) => {
                    if !self.learn(&labels, &set)? {
                        return Ok(None);
                    }
                }
                None => return Ok(None),
            }
        }
        Ok(None)
    }

    /// Asks of each name of a set that no known run passes alone about all gaps but those of its tie, and learns a run where
    /// they do not serve: it passes this name alone, so each set that serves has it.
    pub(crate) fn learn_needed<R: Threads + Sync>(
        &mut self,
        rt: &R,
        search: &ProposingSearch<'_>,
        outcomes: &[Outcome],
        set: &GapSet,
    ) -> Result<(), AllocError> {
        for gap in set.iter() {
            if !self.is_needed(gap) {
                let others = all_but(self.program, gap);
                let gaps = self.costs.ties.spread(&others);
                if let Some(Proposal::Lacking(labels)) = search.verdict(rt, &gaps, outcomes)? {
                    self.learn(&labels, &others)?;
                }
            }
        }
        Ok(())
    }

    /// Whether a known run passes this name alone.
    fn is_needed(&self, gap: u8) -> bool {
        for passed in &self.passed {
            if passed.has(gap) && passed.len() == 1 {
                return true;
            }
        }
        false
    }

    /// Adds a run, which is to pass no name of a set. Whether it is one.
    fn learn(&mut self, labels: &[Label], set: &GapSet) -> Result<bool, AllocError> {
        let model = Model::Buffered;
        match replay_shown(self.alloc, self.program, self.shown, model, labels) {
            Ok(ended) => self.add(labels, self.costs.ties.names_in(&ended.passed), set),
            Err(ReplayFault::OutOfMemory) => Err(AllocError),
            Err(_) => Ok(false),
        }
    }

    /// Adds a run that passes these names, if none of them is in the set. Whether it does.
    fn add(&mut self, labels: &[Label], passed: GapSet, set: &GapSet) -> Result<bool, AllocError> {
        if passed.meets(set) {
            return Ok(false);
        }
        self.runs.push(labels)?;
        self.passed.push(passed)?;
        Ok(true)
    }
}

/// All gaps of a program but one.
fn all_but(program: &Program, gap: u8) -> GapSet {
    let mut others = GapSet::empty();
    for other in 0..program.gaps() {
        if other != gap && other < MAX_GAPS {
            others = others.with(other);
        }
    }
    others
}
