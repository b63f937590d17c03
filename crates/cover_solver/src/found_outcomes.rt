//! The outcomes of a machine, found one after another.
ghost use Rattle.std.specs.Prelude.{◌≡◌, [], IfOk, OnOk, map};
ghost use Rattle.tso_program.specs.declared.question.Question.{Question};
ghost use Rattle.tso_program.specs.Shown.{asked};
ghost use Rattle.tso_machine.specs.Machine.{Machine};
ghost use Rattle.tso_machine.specs.Modes.{machine_of_mode};
ghost use Rattle.tso_machine.specs.Outcomes.{IsShownRun};
ghost use Rattle.cover_solver.specs.OutcomeLists.{AreFound, IsListOfAll};

use crate::outcome_list::OutcomeList;
use cert_forest::{NEAR_RUNS, Runs};
use cover_search::{MadeRun, Search, SearchStop};
use std::alloc::{AllocError, Global};
use tso_machine::Label;
use tso_program::Outcome;

/// Outcomes that ascend, each with a run.
#[derive(Drop)]
struct FoundOutcomes {
    outcomes: Vec<Outcome>,
    runs: Vec<Vec<Label>>,
}

impl FoundOutcomes {
    /// No outcome yet.
    fn none(alloc: Global) -> FoundOutcomes
        ensures { (q : Question) (mode : Machine) → AreFound q mode result }
    {
        FoundOutcomes {
            outcomes: Vec::new(alloc),
            runs: Vec::new(alloc),
        }
    }

    /// Adds the outcome of a run, unless it is there.
    fn add(&mut self, run: MadeRun) -> Result<(), AllocError>
        requires { (q : Question) × (mode : Machine) × AreFound q mode self.old }
        ensures { OnOk result ((q : Question) (mode : Machine) → AreFound q mode self.old → IsShownRun q mode run.labels.items run.outcome → AreFound q mode self.new) }
    {
        if let Err(place) = self.outcomes.binary_search(&run.outcome) {
            self.outcomes.insert(place, run.outcome)?;
            self.runs.insert(place, run.labels)?;
        }
        Ok(())
    }

    /// The list of them.
    fn into_list(self, alloc: Global) -> Result<OutcomeList, AllocError>
        ensures outcomes { IfOk result (λ list. list.outcomes ≡ self.outcomes) }
        ensures runs { IfOk result (λ list. list.runs ≡ map (λ labels. labels.items) self.runs.items) }
    {
        let FoundOutcomes { outcomes, runs } = self;
        let mut listed = Runs::new(alloc);
        for labels in &runs {
            listed.push(labels)?;
        }
        Ok(OutcomeList {
            outcomes,
            runs: listed,
        })
    }
}

/// All outcomes of a search: each of its turns stops at a run whose outcome is new, until a tree shows that none is left. There
/// is no memory for more than `NEAR_RUNS`.
pub(crate) fn found_outcomes(search: &Search) -> Result<OutcomeList, AllocError>
    ensures { IfOk result (IsListOfAll (asked search.now.program.now search.now.shown.now) (machine_of_mode search.now.program.now search.now.mode)) }
{
    search.program.recall_facts();
    let mut found = FoundOutcomes::none(search.alloc);
    for _ in 0..NEAR_RUNS {
        match search.cover(&found.outcomes) {
            Ok(_) => return found.into_list(search.alloc),
            Err(SearchStop::New(run)) => found.add(run)?,
            Err(SearchStop::OutOfMemory) => return Err(AllocError),
        }
    }
    Err(AllocError)
}
