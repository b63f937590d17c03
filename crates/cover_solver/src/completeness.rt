//! Whether outcomes are all.
ghost use Rattle.std.specs.Prelude.{IfOk};
ghost use Rattle.tso_program.specs.Shown.{asked};
ghost use Rattle.tso_machine.specs.Modes.{machine_of_mode};
ghost use Rattle.tree_laws.specs.Ascending.{Ascend};
ghost use Rattle.cover_solver.specs.Completeness.{IsCompleteness};

use crate::proposed::proposed_completeness;
use cover_search::{Search, SearchStop};
use std::alloc::AllocError;
use tree_laws::{a_valid_cover_tree_covers, a_valid_tree_lists_every_outcome};
use tso_machine::Label;
use tso_program::Outcome;

/// Whether outcomes are all that a machine shows.
#[derive(Drop)]
pub(crate) enum Completeness {
    /// They are.
    Complete,
    /// A run has another one.
    Lacking(Vec<Label>),
}

/// Whether outcomes are all of a search, as it is proposed, or else as a search over them ends.
pub(crate) fn completeness_of(
    search: &Search,
    outcomes: &[Outcome],
) -> Result<Completeness, AllocError>
    requires { Ascend outcomes.now }
    ensures { IfOk result (IsCompleteness (asked search.now.program.now search.now.shown.now) (machine_of_mode search.now.program.now search.now.mode) outcomes.now) }
{
    match proposed_completeness(search, outcomes)? {
        Some(completeness) => Ok(completeness),
        None => searched_completeness(search, outcomes),
    }
}

/// Whether outcomes are all of a search, as a search over them ends.
fn searched_completeness(search: &Search, outcomes: &[Outcome]) -> Result<Completeness, AllocError>
    requires { Ascend outcomes.now }
    ensures { IfOk result (IsCompleteness (asked search.now.program.now search.now.shown.now) (machine_of_mode search.now.program.now search.now.mode) outcomes.now) }
{
    search.program.recall_facts();
    a_valid_cover_tree_covers();
    a_valid_tree_lists_every_outcome();
    match search.cover(outcomes) {
        Ok(_) => Ok(Completeness::Complete),
        Err(SearchStop::New(run)) => Ok(Completeness::Lacking(run.labels)),
        Err(SearchStop::OutOfMemory) => Err(AllocError),
    }
}
