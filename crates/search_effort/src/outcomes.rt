//! The outcomes of a program, by a search that reports how far it is.
ghost use Rattle.std.specs.Prelude.{◌≡◌, ◌↔◌, Contains, IfErr, IfOk};
ghost use Rattle.tso_program.specs.declared.outcome.Outcome.{Outcome};
ghost use Rattle.tso_program.specs.Shown.{asked};
ghost use Rattle.tso_machine.specs.Modes.{machine_of_mode};
ghost use Rattle.tso_machine.specs.Outcomes.{AllowsShown};
ghost use Rattle.tree_laws.specs.Ascending.{Ascend};
ghost use Rattle.cover_solver.specs.OutcomeLists.{AreRunsOf};

use crate::effort::Effort;
use candidate_search::{SearchPlan, SearchWatch};
use cert_forest::Rule;
use cover_solver::{OutcomeList, SolveFault, outcomes_with_runs};
use std::alloc::Global;
use std::thread::Threads;
use tso_machine::Mode;
use tso_program::{Program, Shown};

/// What is shown of the outcomes of a program in the machine of a mode, as [`outcomes_with_runs`] lists it with a run of each.
/// The workers of an effort share a long search, and its rule of trees does not count. Refused for lack of memory alone.
pub fn outcomes_by<R: Threads + Sync>(
    rt: &R,
    alloc: Global,
    effort: Effort,
    program: &Program,
    shown: &Shown,
    mode: Mode,
) -> Result<OutcomeList, SolveFault>
    ensures ascend { IfOk result (λ list. Ascend list.outcomes.items) }
    ensures runs { IfOk result (λ list. AreRunsOf (asked program.now shown.now) (machine_of_mode program.now mode) list.runs list.outcomes.items) }
    ensures exact { IfOk result (λ list. (o : Outcome) → Contains list.outcomes.items o ↔ AllowsShown (asked program.now shown.now) (machine_of_mode program.now mode) o) }
    ensures fault { IfErr result (λ fault. fault ≡ SolveFault.OutOfMemory) }
{
    let watch = SearchWatch::new(rt, alloc, effort.progress);
    let plan = SearchPlan {
        rule: Rule::Early,
        workers: effort.workers,
        watch: &watch,
    };
    outcomes_with_runs(rt, plan, alloc, program, shown, mode)
}
