//! The search with an oracle, by one seat.
//!
//! A split needs a run that passes no gap of the node's `must`, and any such run will do. So before it
//! asks, the search looks for one among the runs that it knows: a node costs an ask only where each of
//! these passes a gap of `must`. The tree prefers the node with the best `must`, so the first set that
//! serves is the answer, and no further ask finds one: how often it asks is tested, and no clause says it.
ghost use Rattle.std.specs.Prelude.{◌≡◌, ◌<◌, true, false, IfOk, IfErr, OnOk, length};
ghost use Rattle.tso_program.specs.Listings.{gap_count};
ghost use Rattle.oracle.specs.Facts.{AreOf};
ghost use Rattle.search_core.specs.States.{IsDone, IsSameSearch};
ghost use Rattle.search_core.specs.Work.{work_left};
ghost use Rattle.fence_place.specs.Faults.{MaySearchFail};
ghost use Rattle.fence_place.specs.Internal.Searches.{HasSettled, IsAtRest, IsReadyToSettle, IsSearchFor};

use crate::known::known_run;
use gap_sets::{Costs, Region};
use oracle::{ForeignRun, Oracle, SeqTable, SolveFault, Verdict};
use search_core::{Finished, Reason, SearchTree, TreeFault, settling_lessens_the_work};
use std::alloc::Global;

/// Searches until no node is left, by these runs and what the oracle says.
pub(crate) fn search<O: Oracle>(
    alloc: Global,
    oracle: &O,
    table: &SeqTable,
    costs: &Costs,
    mut known: Vec<ForeignRun>,
) -> Result<Finished, SolveFault>
    requires of_question { O.question oracle.now ≡ table.now.question }
    requires may { O.may_be_asked oracle.now }
    requires one_each { length costs.now ≡ gap_count table.now.question.program.threads }
    requires known { AreOf table.now.question known.items }
    ensures search { IfOk result (IsSearchFor table.now.question costs.now) }
    ensures fault { IfErr result (MaySearchFail (O.may_lack_runs oracle.now)) }
{
    let mut tree = SearchTree::new(alloc, table, costs, 1)?;
    loop {
        let more = go_on(&mut tree, &mut known, oracle)?;
        if !more {
            break;
        }
    }
    match tree.finish() {
        Ok(finished) => Ok(finished),
        Err(_) => unreachable!(),
    }
}

/// Settles an open node; `false` if no node is open.
fn go_on<O: Oracle>(
    tree: &mut SearchTree,
    known: &mut Vec<ForeignRun>,
    oracle: &O,
) -> Result<bool, SolveFault>
    requires rest { IsAtRest (O.question oracle.now) tree.old known.old.items }
    requires may { O.may_be_asked oracle.now }
    ensures rest { OnOk result (IsAtRest (O.question oracle.now) tree.new known.new.items) }
    ensures same { IsSameSearch tree.old tree.new }
    ensures less { IfOk result (λ more. more ≡ true → work_left tree.new.entries < work_left tree.old.entries) }
    ensures done { IfOk result (λ more. more ≡ false → IsDone tree.new) }
    ensures fault { IfErr result (MaySearchFail (O.may_lack_runs oracle.now)) }
{
    let node = match tree.take(0) {
        Ok(node) => node,
        Err(TreeFault::NothingOpen) => return Ok(false),
        Err(_) => unreachable!(),
    };
    tree.recall_facts();
    settling_lessens_the_work();
    settle(tree, known, oracle, &node)?;
    Ok(true)
}

/// Settles the node that the seat holds: by the best set so far or a run that is known, or else by what the oracle
/// says.
fn settle<O: Oracle>(
    tree: &mut SearchTree,
    known: &mut Vec<ForeignRun>,
    oracle: &O,
    node: &Region,
) -> Result<(), SolveFault>
    requires ready { IsReadyToSettle (O.question oracle.now) tree.old known.old.items node.now }
    requires may { O.may_be_asked oracle.now }
    ensures { HasSettled (O.question oracle.now) (O.may_lack_runs oracle.now) tree.old tree.new known.new.items result }
{
    if let Ok(()) = tree.cut(0, Reason::Best) {
        return Ok(());
    }
    match known_run(known, node) {
        Some(place) => Ok(tree.split_held(0, &known[place])?),
        None => settle_by_oracle(tree, known, oracle, node),
    }
}

/// Settles the node that the seat holds by what the oracle says. A run that it gives is known then.
fn settle_by_oracle<O: Oracle>(
    tree: &mut SearchTree,
    known: &mut Vec<ForeignRun>,
    oracle: &O,
    node: &Region,
) -> Result<(), SolveFault>
    requires ready { IsReadyToSettle (O.question oracle.now) tree.old known.old.items node.now }
    requires may { O.may_be_asked oracle.now }
    ensures { HasSettled (O.question oracle.now) (O.may_lack_runs oracle.now) tree.old tree.new known.new.items result }
{
    match oracle.ask(&node.must)? {
        Verdict::Foreign(run) => {
            tree.split_held(0, &run)?;
            Ok(known.push(run)?)
        }
        Verdict::Serves(served) => {
            tree.confirm_held(0, served);
            Ok(())
        }
    }
}
