//! The hunt: workers round one search.
ghost use Rattle.std.specs.Prelude.{◌≡◌, ◌↔◌, All, Err, IfErr, IfOk, IfSome, IsTrue};
ghost use Rattle.tso_machine.specs.Outcomes.{IsTheAnswer};
ghost use Rattle.search_core.specs.States.{IsStart};
ghost use Rattle.hunt_board.specs.Seats.{IsOf, IsFresh};
ghost use Rattle.fence_place.specs.Faults.{AreTooFewOrMany, HasOtherLength, HuntFaultIs, MayHuntFail};
ghost use Rattle.fence_place.specs.Internal.Searches.{IsSearchFor};
ghost use Rattle.fence_place.specs.Internal.Workers.{IsReadyWorker, HasStopped, NoneLacksRun, FaultIsOf, FaultIsAfter};

use crate::PlaceFault;
use crate::arguments::judge_arguments;
use crate::turns::Turns;
use crate::worker::{SharedHunt, Worker, work};
use gap_sets::Costs;
use hunt_board::{CloseFault, Hunt, HuntSeat, Receipt};
use oracle::{Oracle, SeqTable};
use search_core::{Finished, SearchTree};
use std::alloc::{AllocError, Global};
use std::sync::Wait;
use std::thread::{self, Threads};

/// Searches for the best set of gaps that serves, by asking an oracle, in as many threads as there are workers. The
/// caller's thread is one of them, and where no more threads can be started there are fewer.
///
/// A worker for whose question or answer there is no memory ends, and so does one whose question the oracle has no
/// run for. Nothing is found then.
pub fn hunt_with<R: Threads + Wait + Sync, O: Oracle>(
    rt: &R,
    alloc: Global,
    oracle: &O,
    table: &SeqTable,
    costs: &Costs,
    workers: u8,
) -> Result<Finished, PlaceFault>
    requires question { O.question oracle.now ≡ table.now.question }
    requires may { O.may_be_asked oracle.now }
    ensures question { IfOk result (λ finished. finished.question ≡ table.now.question) }
    ensures costs { IfOk result (λ finished. finished.costs ≡ costs.now) }
    ensures answer { IfOk result (λ finished. IsTheAnswer table.now.question costs.now finished.served.gaps) }
    ensures workers { AreTooFewOrMany workers → result ≡ Err PlaceFault.Workers }
    ensures lengths { ¬ AreTooFewOrMany workers → HasOtherLength table.now.question costs.now → result ≡ Err PlaceFault.Costs }
    ensures fault { IfErr result (HuntFaultIs table.now.question costs.now workers (O.may_lack_runs oracle.now)) }
{
    judge_arguments(table, costs, workers)?;
    let tree = SearchTree::new(alloc, table, costs, workers)?;
    let finished = hunt(rt, alloc, oracle, tree)?;
    finished.recall_facts();
    Ok(finished)
}

/// Searches for the best set of gaps that serves from the start of a search tree, by a worker for each of its seats.
pub(crate) fn hunt<R: Threads + Wait + Sync, O: Oracle>(
    rt: &R,
    alloc: Global,
    oracle: &O,
    tree: SearchTree,
) -> Result<Finished, PlaceFault>
    requires start { IsStart tree }
    requires of_question { O.question oracle.now ≡ tree.question }
    requires may { O.may_be_asked oracle.now }
    ensures search { IfOk result (IsSearchFor tree.question tree.costs) }
    ensures fault { IfErr result (MayHuntFail (O.may_lack_runs oracle.now)) }
{
    let workers = tree.seats();
    let turns = Turns::new(alloc, workers)?;
    let (hunt, seats) = Hunt::new(alloc, tree, workers)?;
    let shared = SharedHunt { alloc, hunt, turns };
    let row = workers_at(alloc, &shared.hunt, seats)?;
    let row = work_all(rt, &shared, oracle, row);
    close(shared, row)
}

/// All workers work, each in a thread where one can be started.
fn work_all<R: Threads + Wait + Sync, O: Oracle>(
    rt: &R,
    shared: &SharedHunt,
    oracle: &O,
    mut row: Vec<Worker>,
) -> Vec<Worker>
    requires ready { All (IsReadyWorker shared.now.hunt) row.items }
    requires oracle { O.question oracle.now ≡ shared.now.hunt.question }
    requires may { O.may_be_asked oracle.now }
    ensures { All (HasStopped shared.now.hunt (O.may_lack_runs oracle.now)) result.items }
{
    let threads = row.len().max(1);
    thread::for_each_mut(
        rt,
        row.as_mut_slice(),
        threads,
        &|_, worker|
            requires { IsReadyWorker shared.now.hunt worker.now × (O.question oracle.now ≡ shared.now.hunt.question) × O.may_be_asked oracle.now }
            ensures { HasStopped shared.entry.now.hunt (O.may_lack_runs oracle.entry.now) worker.exit.now }
        { work(rt, shared, oracle, worker) },
    );
    row
}

/// A worker for each seat.
fn workers_at(
    alloc: Global,
    hunt: &Hunt,
    mut seats: Vec<HuntSeat>,
) -> Result<Vec<Worker>, AllocError>
    requires { All (IsFresh hunt.now) seats.items }
    ensures { IfOk result (λ row. All (IsReadyWorker hunt.now) row.items) }
{
    let mut row = Vec::with_capacity(alloc, seats.len())?;
    while let Some(seat) = seats.pop() {
        row.push(Worker::new(alloc, seat))?;
    }
    Ok(row)
}

/// Whether the oracle lacked no run.
fn none_lacks_run(workers: &[Worker]) -> bool
    ensures { IsTrue result ↔ NoneLacksRun workers.now }
{
    for worker in workers {
        if worker.lacks_run() {
            return false;
        }
    }
    true
}

/// Whether there was no memory for some worker.
fn one_lacks_memory(workers: &[Worker]) -> bool {
    for worker in workers {
        if worker.lacks_memory() {
            return true;
        }
    }
    false
}

/// Why nothing is found, where a worker met a fault: memory comes first.
fn fault_of(workers: &[Worker]) -> Option<PlaceFault>
    ensures { IfSome result (FaultIsOf workers.now) }
{
    if one_lacks_memory(workers) {
        return Some(PlaceFault::OutOfMemory);
    }
    if none_lacks_run(workers) {
        return None;
    }
    Some(PlaceFault::NotCertified)
}

/// The seats and the receipts of all workers.
fn left_by(
    alloc: Global,
    hunt: &Hunt,
    mut workers: Vec<Worker>,
) -> Result<(Vec<HuntSeat>, Vec<Receipt>), AllocError>
    requires { All (λ worker. IsOf hunt.now worker.seat) workers.items }
    ensures { IfOk result (λ left. All (IsOf hunt.now) left.0.items) }
{
    let mut seats = Vec::new(alloc);
    let mut receipts = Vec::new(alloc);
    while let Some(worker) = workers.pop() {
        let Worker {
            seat,
            known: _,
            receipts: mut more,
            stop: _,
        } = worker;
        seats.push(seat)?;
        receipts.append(&mut more)?;
    }
    Ok((seats, receipts))
}

/// What the hunt leaves, where no worker met a fault and the record closes.
fn close(shared: SharedHunt, workers: Vec<Worker>) -> Result<Finished, PlaceFault>
    requires { All (λ worker. IsOf shared.hunt worker.seat) workers.items }
    ensures search { IfOk result (IsSearchFor shared.hunt.question shared.hunt.costs) }
    ensures fault { IfErr result (FaultIsAfter workers.items) }
{
    let SharedHunt {
        alloc,
        hunt,
        turns: _,
    } = shared;
    if let Some(fault) = fault_of(&workers) {
        drop(hunt);
        return Err(fault);
    }
    let (seats, receipts) = match left_by(alloc, &hunt, workers) {
        Ok(left) => left,
        Err(fault) => {
            drop(hunt);
            return Err(fault.into());
        }
    };
    match hunt.close(seats, receipts) {
        Ok(finished) => Ok(finished),
        Err(CloseFault::OutOfMemory) => Err(PlaceFault::OutOfMemory),
        Err(_) => Err(PlaceFault::Board),
    }
}
