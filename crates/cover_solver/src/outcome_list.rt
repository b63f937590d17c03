//! The outcomes of a program.
ghost use Rattle.std.specs.Prelude.{◌≡◌, ◌↔◌, IfOk, IfErr, IfSome, Contains};
ghost use Rattle.std.specs.FinSet as set;
ghost use Rattle.tso_program.specs.declared.outcome.Outcome.{Outcome};
ghost use Rattle.tso_program.specs.Shown.{asked};
ghost use Rattle.tso_machine.specs.Outcomes.{AllowsShown};
ghost use Rattle.tso_machine.specs.Modes.{machine_of_mode, machine_of_model};
ghost use Rattle.tree_laws.specs.Ascending.{Ascend};
ghost use Rattle.cover_solver.specs.OutcomeLists.{AreRunsOf, IsListOfAll};

use crate::found_outcomes::found_outcomes;
use crate::proposed::{outcomes_by_threads, proposed_outcomes};
use candidate_search::SearchPlan;
use cert_forest::Runs;
use cover_search::Search;
use oracle::SolveFault;
use std::alloc::{AllocError, Global};
use std::thread::Threads;
use tso_machine::{Mode, Model};
use tso_program::{Outcome, Program, Shown};

/// Outcomes, each with a run that leaves it.
#[derive(Drop)]
pub struct OutcomeList {
    /// Ascending, each of them once.
    pub outcomes: Vec<Outcome>,
    /// A run of each, in the same order.
    pub runs: Runs,
}

/// What is shown of the outcomes of a program in the machine of a mode, ascending, each of them once and with a run that
/// leaves it. Threads share a long search by a plan, but for its rule, and its watch reports how far it is.
pub fn outcomes_with_runs<R: Threads + Sync>(
    rt: &R,
    plan: SearchPlan<'_>,
    alloc: Global,
    program: &Program,
    shown: &Shown,
    mode: Mode,
) -> Result<OutcomeList, SolveFault>
    ensures ascend { IfOk result (λ list. Ascend list.outcomes.items) }
    ensures runs { IfOk result (λ list. AreRunsOf (asked program.now shown.now) (machine_of_mode program.now mode) list.runs list.outcomes.items) }
    ensures fault { IfErr result (λ fault. fault ≡ SolveFault.OutOfMemory) }
    ensures exact { IfOk result (λ list. (o : Outcome) → Contains list.outcomes.items o ↔ AllowsShown (asked program.now shown.now) (machine_of_mode program.now mode) o) }
{
    let search = Search {
        alloc,
        program,
        shown,
        mode,
    };
    let proposed = outcomes_by_threads(rt, plan, &search)?;
    Ok(proposed_or_found(&search, proposed)?)
}

/// What is shown of the outcomes of a program under sequential consistency, or under x86-TSO with no
/// gap fenced, ascending, each of them once.
pub fn outcomes(
    alloc: Global,
    program: &Program,
    model: Model,
    shown: &Shown,
) -> Result<Vec<Outcome>, SolveFault>
    ensures ascend { IfOk result (λ outcomes. Ascend outcomes.items) }
    ensures fault { IfErr result (λ fault. fault ≡ SolveFault.OutOfMemory) }
    ensures exact { IfOk result (λ outcomes. (o : Outcome) → Contains outcomes.items o ↔ AllowsShown (asked program.now shown.now) (machine_of_model program.now set.empty model) o) }
{
    let search = Search {
        alloc,
        program,
        shown,
        mode: Mode::unfenced(model),
    };
    Ok(listed(&search)?.outcomes)
}

/// All outcomes of a search: those that are proposed, or else those at which searches stop.
pub(crate) fn listed(search: &Search) -> Result<OutcomeList, AllocError>
    ensures { IfOk result (IsListOfAll (asked search.now.program.now search.now.shown.now) (machine_of_mode search.now.program.now search.now.mode)) }
{
    proposed_or_found(search, proposed_outcomes(search)?)
}

/// All outcomes of a search: these, or else those at which searches stop.
fn proposed_or_found(
    search: &Search,
    proposed: Option<OutcomeList>,
) -> Result<OutcomeList, AllocError>
    requires { IfSome proposed (IsListOfAll (asked search.now.program.now search.now.shown.now) (machine_of_mode search.now.program.now search.now.mode)) }
    ensures { IfOk result (IsListOfAll (asked search.now.program.now search.now.shown.now) (machine_of_mode search.now.program.now search.now.mode)) }
{
    match proposed {
        Some(list) => Ok(list),
        None => found_outcomes(search),
    }
}
