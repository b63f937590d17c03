//! One worker of a hunt.
ghost use Rattle.std.specs.Prelude.{◌≡◌, ◌⊎◌, ◌++◌, ◌∷◌, [], Some, None, ℕ, IfErr, IfOk, IfSome, OnErr, OnOk, slice_get};
ghost use Rattle.tso_machine.specs.Outcomes.{AreGapsOf};
ghost use Rattle.oracle.specs.Facts.{AreOf, IsForeignValue};
ghost use Rattle.oracle.specs.Verdicts.{IsVerdictOf, PassesNoneOf};
ghost use Rattle.hunt_board.specs.Seats.{IsOf};
ghost use Rattle.hunt_board.specs.Settlings.{IsLawfulSettling, MaySettle};
ghost use Rattle.fence_place.specs.Internal.Sharing.{CanSplit};
ghost use Rattle.fence_place.specs.Internal.Workers.{HasDealtWith, HasStopped, IsAt, IsReadyWorker, IsStillAt, IsToSettle, MayStop, lacks_run};

use crate::known::known_run;
use crate::sharing::{ceiling_below, copy_of_posted, share};
use crate::turns::{Turn, Turns};
use gap_sets::{GapSet, Region};
use hunt_board::{Hunt, HuntSeat, Next, Receipt, Settling};
use oracle::{ForeignRun, Oracle, SolveFault, Verdict};
use std::alloc::Global;
use std::sync::Wait;

/// Why a worker gives its node back. But for `Later` it ends then.
#[derive(Clone, Copy)]
pub(crate) enum StopReason {
    /// A cheaper set was asked about, so a better node may be open now.
    Later,
    /// Another worker has confirmed a set that this node's isn't better than, and settles what is left.
    Beaten,
    /// The oracle lacks a run.
    NoRun,
    OutOfMemory,
}

/// A worker's seat, the runs that only it knows, its receipts, and why it ended if nodes were left.
#[derive(Drop)]
pub(crate) struct Worker {
    pub(crate) seat: HuntSeat,
    pub(crate) known: Vec<ForeignRun>,
    pub(crate) receipts: Vec<Receipt>,
    pub(crate) stop: Option<StopReason>,
}

impl Worker {
    /// A worker that knows nothing yet.
    pub(crate) fn new(alloc: Global, seat: HuntSeat) -> Worker
        ensures seat { result.seat ≡ seat }
        ensures known { result.known.items ≡ [] }
        ensures stop { result.stop ≡ None }
    {
        Worker {
            seat,
            known: Vec::new(alloc),
            receipts: Vec::new(alloc),
            stop: None,
        }
    }

    /// Whether the oracle lacked a run.
    pub(crate) fn lacks_run(&self) -> bool
        ensures { result ≡ lacks_run self.now }
    {
        match self.stop {
            Some(StopReason::NoRun) => true,
            _ => false,
        }
    }

    /// Whether there was no memory.
    pub(crate) fn lacks_memory(&self) -> bool {
        match self.stop {
            Some(StopReason::OutOfMemory) => true,
            _ => false,
        }
    }
}

/// A hunt as its workers share it, with the turns at which they ask.
#[derive(Drop)]
pub(crate) struct SharedHunt {
    pub(crate) alloc: Global,
    pub(crate) hunt: Hunt,
    pub(crate) turns: Turns,
}

/// Settles nodes until all are settled, or the worker stops: its node is open again then.
pub(crate) fn work<W: Wait, O: Oracle>(
    wait: &W,
    shared: &SharedHunt,
    oracle: &O,
    worker: &mut Worker,
)
    requires ready { IsReadyWorker shared.now.hunt worker.old }
    requires oracle { O.question oracle.now ≡ shared.now.hunt.question }
    requires may { O.may_be_asked oracle.now }
    ensures { HasStopped shared.now.hunt (O.may_lack_runs oracle.now) worker.new }
{
    for _ in wait.forever() {
        let Next::Work(node) = shared.hunt.next(wait, &mut worker.seat) else {
            break;
        };
        if let Err(stop) = settle(wait, shared, oracle, worker, &node) {
            shared.hunt.give_back(wait, &mut worker.seat);
            if stop != StopReason::Later {
                worker.stop = Some(stop);
                break;
            }
        }
    }
}

/// Settles the worker's node, without a question where that can be.
fn settle<W: Wait, O: Oracle>(
    wait: &W,
    shared: &SharedHunt,
    oracle: &O,
    worker: &mut Worker,
    node: &Region,
) -> Result<(), StopReason>
    requires node { IsToSettle (O.question oracle.now) shared.now.hunt worker.old node.now }
    requires may { O.may_be_asked oracle.now }
    ensures { HasDealtWith shared.now.hunt (O.may_lack_runs oracle.now) worker.old worker.new node.now result }
{
    match known_settling(shared.alloc, &shared.hunt, worker, node) {
        Some(settling) => keep_receipt(wait, &shared.hunt, worker, settling),
        None => settle_in_turn(wait, shared, oracle, worker, node),
    }
}

/// How the worker's node can be settled without a question: by the best set that the worker has confirmed, by the
/// hunt's ceiling, or by a run that is at hand.
fn known_settling(
    alloc: Global,
    hunt: &Hunt,
    worker: &mut Worker,
    node: &Region,
) -> Option<Settling>
    requires { IsAt hunt.now worker.old (Some node.now) }
    ensures lawful { IfSome result (IsLawfulSettling hunt.now worker.new.seat.best node.now) }
    ensures still { IsStillAt hunt.now worker.old worker.new node.now }
{
    if worker.seat.has_as_good(hunt.costs(), &node.must) {
        return Some(Settling::Best);
    }
    if let Some(ceiling) = ceiling_below(hunt, &mut worker.seat, &node.must) {
        return Some(Settling::Cut(ceiling));
    }
    let run = run_at_hand(alloc, hunt, &worker.known, node)?;
    Some(Settling::Asked(Verdict::Foreign(run)))
}

/// A copy of a run that splits the node: of one that only this worker knows, or else of a posted one.
fn run_at_hand(
    alloc: Global,
    hunt: &Hunt,
    known: &[ForeignRun],
    node: &Region,
) -> Option<ForeignRun>
    requires { AreOf hunt.now.question known.now }
    ensures { IfSome result (CanSplit hunt.now.question node.now) }
{
    match copy_of_known(alloc, known, node) {
        Some(run) => Some(run),
        None => copy_of_posted(alloc, hunt, node),
    }
}

/// A copy of a known run that splits the node, where there is one, and memory for it.
fn copy_of_known(alloc: Global, known: &[ForeignRun], node: &Region) -> Option<ForeignRun>
    ensures known { IfSome result (λ run. (place : ℕ) × (slice_get known.now place ≡ Some run)) }
    ensures foreign { IfSome result IsForeignValue }
    ensures passes_none { IfSome result (PassesNoneOf node.now.must) }
{
    let place = known_run(known, node)?;
    let run = known.get(place)?;
    run.recall_facts();
    run.copy(alloc).ok()
}

/// Settles the worker's node, and keeps the receipt.
fn keep_receipt<W: Wait>(
    wait: &W,
    hunt: &Hunt,
    worker: &mut Worker,
    settling: Settling,
) -> Result<(), StopReason>
    requires of { IsOf hunt.now worker.old.seat }
    requires lawful { MaySettle hunt.now worker.old.seat settling }
    ensures of { IsOf hunt.now worker.new.seat }
    ensures settled { OnOk result (worker.new.seat.node ≡ None) }
    ensures held { OnErr result (worker.new.seat ≡ worker.old.seat) }
    ensures fault { IfErr result (λ stop. stop ≡ StopReason.OutOfMemory) }
    ensures same { (worker.new.known ≡ worker.old.known) × (worker.new.stop ≡ worker.old.stop) }
{
    if worker.receipts.reserve(1).is_err() {
        drop(settling);
        return Err(StopReason::OutOfMemory);
    }
    let Ok(receipt) = hunt.settle(wait, &mut worker.seat, settling) else {
        return Err(StopReason::OutOfMemory);
    };
    worker.receipts.push_reserved(receipt);
    Ok(())
}

/// Settles the worker's node by a question, once it is the worker's turn to ask.
fn settle_in_turn<W: Wait, O: Oracle>(
    wait: &W,
    shared: &SharedHunt,
    oracle: &O,
    worker: &mut Worker,
    node: &Region,
) -> Result<(), StopReason>
    requires node { IsToSettle (O.question oracle.now) shared.now.hunt worker.old node.now }
    requires may { O.may_be_asked oracle.now }
    ensures { HasDealtWith shared.now.hunt (O.may_lack_runs oracle.now) worker.old worker.new node.now result }
{
    let seat = worker.seat.number();
    let costs = shared.hunt.costs();
    match shared.turns.begin(wait, costs, seat, &node.must) {
        Turn::Now => {}
        Turn::Later => return Err(StopReason::Later),
        Turn::Never => return Err(StopReason::Beaten),
    }
    let settled = settle_by_oracle(wait, shared, oracle, worker, node);
    shared.turns.end(wait, costs, seat, worker.seat.best());
    settled
}

/// Settles the worker's node by what the oracle says of its set, which the other workers learn before.
fn settle_by_oracle<W: Wait, O: Oracle>(
    wait: &W,
    shared: &SharedHunt,
    oracle: &O,
    worker: &mut Worker,
    node: &Region,
) -> Result<(), StopReason>
    requires node { IsToSettle (O.question oracle.now) shared.now.hunt worker.old node.now }
    requires may { O.may_be_asked oracle.now }
    ensures { HasDealtWith shared.now.hunt (O.may_lack_runs oracle.now) worker.old worker.new node.now result }
{
    let verdict = ask(oracle, &node.must)?;
    pass_on(shared.alloc, &shared.hunt, worker, node, &verdict);
    keep_receipt(wait, &shared.hunt, worker, Settling::Asked(verdict))
}

/// The other workers learn what the oracle said. A copy of a run that can't be posted is known to this worker alone.
fn pass_on(alloc: Global, hunt: &Hunt, worker: &mut Worker, node: &Region, verdict: &Verdict)
    requires at { IsAt hunt.now worker.old (Some node.now) }
    requires verdict { IsVerdictOf hunt.now.question node.now.must verdict.now }
    ensures { IsStillAt hunt.now worker.old worker.new node.now }
{
    if let Some(run) = share(alloc, hunt, &mut worker.seat, verdict) {
        keep(&mut worker.known, run);
    }
}

/// Adds the run, where there is memory for it.
fn keep(known: &mut Vec<ForeignRun>, run: ForeignRun)
    ensures { (known.new.items ≡ known.old.items) ⊎ (known.new.items ≡ known.old.items ++ run ∷ []) }
{
    let _ = known.push(run);
}

/// What the oracle says of a set, or why the worker stops.
fn ask<O: Oracle>(oracle: &O, set: &GapSet) -> Result<Verdict, StopReason>
    requires gaps { AreGapsOf (O.question oracle.now).program set.now }
    requires may { O.may_be_asked oracle.now }
    ensures verdict { IfOk result (IsVerdictOf (O.question oracle.now) set.now) }
    ensures fault { IfErr result (MayStop (O.may_lack_runs oracle.now)) }
{
    match oracle.ask(set) {
        Ok(verdict) => Ok(verdict),
        Err(SolveFault::NoRun) => Err(StopReason::NoRun),
        Err(SolveFault::OutOfMemory) => Err(StopReason::OutOfMemory),
    }
}
