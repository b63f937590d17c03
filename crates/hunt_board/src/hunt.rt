//! The hunt: a search that several workers share.
ghost use Rattle.std.specs.Prelude.{◌≡◌, ◌↔◌, ◌<◌, ◌≤◌, ◌+◌, ℕ, Some, None, Err, All, IfOk, IfErr, IfSome, IfNone, OnOk, OnErr, IsSome, IsTrue};
ghost use Rattle.gap_sets.specs.Order.{total};
ghost use Rattle.search_core.specs.Outcomes.{AreGapsOf, IsTheAnswer};
ghost use Rattle.search_core.specs.Facts.{IsForeignValue};
ghost use Rattle.search_core.specs.Ceilings.{IsCeilingOf, problem};
ghost use Rattle.search_core.specs.States.{IsStart, HoldsOnly};
ghost use Rattle.search_core.specs.Events.{TakesNode};
ghost use Rattle.search_core.specs.Records.{IsOutcome};
ghost use Rattle.hunt_board.specs.Cells.{IsInCell, IsThere, cell_place, run_in};
ghost use Rattle.hunt_board.specs.declared.cells.TheConstants.{ROW_CELLS};
ghost use Rattle.hunt_board.specs.Seats.{IsOf, AreFresh, AreFreshAt, word_of, holding_node, with_known, with_posted};
ghost use Rattle.hunt_board.specs.Settlings.{MaySettle, IsByRun, IsSettled, IsReceiptFor, node_of};
ghost use Rattle.hunt_board.specs.Receipts.{NameAll, CloseFaultIs};
ghost use Rattle.hunt_board.specs.Word.{IsSeatOf, no_ceiling, ceiling_number, with_least};
ghost use Rattle.hunt_board.specs.Internal.Events.{IsFor, IsLawfulThere};

use crate::cells::{PostFault, Posted, RunCells, is_same};
use crate::events::{is_waiting, settle_node};
use crate::record::check_receipts;
use crate::word::{CeilingWord, WordSeat};
use crate::{CloseFault, HuntSeat, Next, Receipt, Settling};
use gap_sets::{Costs, Region};
use search_core::{Ceiling, Finished, ForeignRun, SearchTree, Served};
use std::alloc::{AllocError, Global};
use std::marker::Model;
use std::sync::{Condvar, Mutex, Wait};
use tso_program::Question;

/// A search that several workers share, each from a seat of its own. The tree stands under one lock, and
/// its type keeps that some history of events reached it.
///
/// A contract can't read the tree through the lock. So each call finds out there whether the tree is of
/// the hunt and the seat holds what it should, and does nothing to it otherwise.
///
/// The ceiling word and the rows of cells for runs stand beside the lock. What is read there stays true,
/// so a node may be settled by it later, under the lock.
#[derive(Drop)]
pub struct Hunt {
    alloc: Global,
    question: Question,
    costs: Costs,
    word: CeilingWord,
    rows: RunCells,
    tree: Mutex<SearchTree>,
    opened: Condvar,
}

impl Model for Hunt {
    ghost use Rattle.hunt_board.specs.Seats.{HuntView};

    ghost Value = { HuntView };

    ghost use Rattle.gap_sets.specs.contracts.gap_set.GapSet as gap_set;
    ghost use Rattle.std.specs.Coded.{codes};
    ghost use Rattle.tso_program.specs.Nodes.{tree_code};

    ghost coded = { Prim.hlevel (codes, gap_set.the_row.coded, tree_code) };

    ghost use Rattle.std.specs.Prelude.{◌≡◌, map};
    ghost use Rattle.once_cell.specs.Once.{cell_name};
    ghost use Rattle.search_core.specs.Ceilings.{problem};

    ghost view = { λ h. record { question = h.question; costs = h.costs; table = h.word.table; cells = map cell_name h.rows.cells.items } };

    ghost invariant = { λ h. h.word.problem ≡ problem h.question h.costs };
}

impl Hunt {
    /// A hunt through the tree, as it is made for so many seats, and the seats.
    pub fn new(
        alloc: Global,
        tree: SearchTree,
        seats: u8,
    ) -> Result<(Hunt, Vec<HuntSeat>), AllocError>
        requires start { IsStart tree }
        requires seats { tree.seats ≡ seats }
        ensures hunt { IfOk result (λ made. (made.0.question ≡ tree.question) × (made.0.costs ≡ tree.costs)) }
        ensures seats { IfOk result (λ made. AreFresh made.0 seats made.1.items) }
    {
        let (parts, row) = parts_of(alloc, &tree, seats)?;
        Ok((Hunt::over(alloc, tree, parts), row))
    }

    /// The hunt through the tree, with what stands beside its lock.
    fn over(alloc: Global, tree: SearchTree, parts: HuntParts) -> Hunt
        requires { parts.word.problem ≡ problem parts.question parts.costs }
        ensures question { result.question ≡ parts.question }
        ensures costs { result.costs ≡ parts.costs }
        ensures word { word_of result ≡ parts.word }
    {
        let HuntParts {
            question,
            costs,
            word,
            rows,
        } = parts;
        Hunt {
            alloc,
            question,
            costs,
            word,
            rows,
            tree: Mutex::new(tree),
            opened: Condvar::new(),
        }
    }

    /// What each gap costs.
    pub fn costs(&self) -> &Costs
        ensures { result.now ≡ self.now.costs }
    {
        &self.costs
    }

    /// The seat takes an open node. Where none is open it waits until one is, or no node is left. Takes no
    /// memory.
    pub fn next<R: Wait>(&self, rt: &R, seat: &mut HuntSeat) -> Next
        requires of { IsOf self.now seat.old }
        requires free { seat.old.node ≡ None }
        ensures seat { seat.new ≡ holding_node seat.old (node_of result) }
        ensures gaps { IfSome (node_of result) (λ n. AreGapsOf self.now.question.program n.must) }
    {
        let taken = self.take_when_open(rt, seat.number);
        let next = match &taken {
            Some(node) => Next::Work(*node),
            None => Next::Done,
        };
        seat.node = taken;
        next
    }

    /// The seat's node is settled, and the seat holds nothing. Out of memory, the seat still holds its
    /// node and the settling is dropped; only a split by a foreign run takes memory.
    pub fn settle<R: Wait>(
        &self,
        rt: &R,
        seat: &mut HuntSeat,
        how: Settling,
    ) -> Result<Receipt, AllocError>
        requires of { IsOf self.now seat.old }
        requires lawful { MaySettle self.now seat.old how }
        ensures receipt { IfOk result (IsReceiptFor seat.old how) }
        ensures seat { OnOk result (IsSettled self.now how seat.old seat.new) }
        ensures of { IsOf self.now seat.new }
        ensures unchanged { OnErr result (seat.new ≡ seat.old) }
        ensures memory { OnErr result (IsByRun how) }
    {
        let Some(node) = seat.node else {
            unreachable!()
        };
        let event = how.event();
        let best = seat.new_best(&self.costs, &how);
        self.settle_held(rt, seat.number, &node, how)?;
        self.opened.notify_all();
        seat.let_go(best);
        Ok(Receipt {
            seat: seat.number,
            node,
            event,
        })
    }

    /// The seat's node is open again, and the seat holds nothing. Takes no memory.
    pub fn give_back<R: Wait>(&self, rt: &R, seat: &mut HuntSeat)
        requires of { IsOf self.now seat.old }
        requires holds { IsSome seat.old.node }
        ensures { seat.new ≡ holding_node seat.old None }
    {
        self.reopen(rt, seat.number);
        self.opened.notify_all();
        seat.node = None;
    }

    /// The least cost that is known of a serving set, if one is. Takes no memory and never waits.
    pub fn ceiling(&self, seat: &mut HuntSeat) -> Ceiling
        requires { IsOf self.now seat.old }
        ensures of { IsCeilingOf self.now.question self.now.costs result }
        ensures least { ceiling_number result ≤ seat.old.known.least }
        ensures seat { seat.new ≡ with_known seat.old (with_least seat.old.known (ceiling_number result)) }
    {
        self.word
            .ceiling(&mut seat.word, &self.question, &self.costs)
    }

    /// The ceiling is no higher than what the serving set costs from now on. Takes no memory and never waits.
    pub fn lower(&self, seat: &mut HuntSeat, served: &Served)
        requires of { IsOf self.now seat.old }
        requires question { served.now.question ≡ self.now.question }
        ensures lowered { seat.new.known.least ≤ total self.now.costs served.now.gaps }
        ensures least { seat.new.known.least ≤ seat.old.known.least }
        ensures seat { seat.new ≡ with_known seat.old (with_least seat.old.known seat.new.known.least) }
    {
        self.word.lower(&mut seat.word, served, &self.costs);
    }

    /// Posts a run for all seats, in the next cell of the seat's row. Never waits.
    pub fn post(&self, seat: &mut HuntSeat, run: ForeignRun) -> Result<Posted, PostFault>
        requires of { IsOf self.now seat.old }
        requires question { run.question ≡ self.now.question }
        ensures posted { IfOk result (λ posted. IsInCell self.now.cells posted × (posted.run ≡ Some run)) }
        ensures place { IfOk result (λ posted. Some posted.place ≡ cell_place seat.old.number seat.old.posted) }
        ensures seat { OnOk result (seat.new ≡ with_posted seat.old (seat.old.posted + 1)) }
        ensures unchanged { OnErr result (seat.new ≡ seat.old) }
        ensures back { IfErr result (λ fault. run_in fault ≡ run) }
        ensures full { ROW_CELLS ≤ seat.old.posted → result ≡ Err (PostFault.RowFull run) }
        ensures refused { seat.old.posted < ROW_CELLS → IfErr result (λ fault. fault ≡ PostFault.Refused run) }
    {
        let posted = self.rows.post(seat.number, seat.posted, run)?;
        seat.posted += 1;
        Ok(posted)
    }

    /// The very run that was posted. Takes no memory and never waits.
    pub fn posted(&self, posted: &mut Posted) -> &ForeignRun
        requires { IsInCell self.now.cells posted.old }
        ensures run { posted.old.run ≡ Some result.now }
        ensures same { posted.new ≡ posted.old }
    {
        self.rows.posted(posted)
    }

    /// The run of this index, from 0, that the seat of this number has posted, where there is one. Takes no
    /// memory and never waits.
    pub fn look(&self, seat: u8, index: usize) -> Option<&ForeignRun>
        ensures of { IfSome result (λ run. run.now.question ≡ self.now.question) }
        ensures foreign { IfSome result (λ run. IsForeignValue run.now) }
        ensures there { IfSome result (λ _. IsThere self.now.cells seat index) }
    {
        self.rows.look(seat, index, &self.question)
    }

    /// Ends the hunt with the answer, where no node is left and the receipts name the whole record. A fault
    /// of the receipts says that no node is left.
    pub fn close(self, seats: Vec<HuntSeat>, receipts: Vec<Receipt>) -> Result<Finished, CloseFault>
        requires seats { All (IsOf self) seats.items }
        ensures hunt { IfOk result (λ finished. (finished.question ≡ self.question) × (finished.costs ≡ self.costs)) }
        ensures answer { IfOk result (λ finished. IsTheAnswer self.question self.costs finished.served.gaps) }
        ensures done { IfOk result IsOutcome }
        ensures receipts { IfOk result (λ finished. NameAll finished.entries receipts.items) }
        ensures fault { IfErr result (CloseFaultIs self receipts.items) }
    {
        let alloc = self.alloc;
        let Some(finished) = self.finished(seats) else {
            return Err(CloseFault::NotDone);
        };
        finished.recall_facts();
        check_receipts(alloc, &finished, &receipts)?;
        Ok(finished)
    }

    /// What the search leaves, where no node is left. The seats are taken in.
    fn finished(self, seats: Vec<HuntSeat>) -> Option<Finished>
        requires { All (IsOf self) seats.items }
        ensures { IfSome result (λ finished. (finished.question ≡ self.question) × (finished.costs ≡ self.costs)) }
    {
        let Hunt {
            alloc: _,
            question,
            costs,
            word,
            rows: _,
            tree,
            opened: _,
        } = self;
        join_all(&word, seats);
        let tree = tree.into_inner();
        if !is_search_of(&tree, &question, &costs) {
            return None;
        }
        tree.finish().ok()
    }

    /// One event under the lock: once a node is open, the seat takes one. If no node is left, nothing happens.
    fn take_when_open<R: Wait>(&self, rt: &R, seat: u8) -> Option<Region>
        ensures { IfSome result (λ n. AreGapsOf self.now.question.program n.must) }
    {
        let mut guard = self
            .opened
            .wait_while(rt, self.tree.lock(rt), |tree| is_waiting(tree));
        let tree = &mut *guard;
        self.take(tree, seat)
    }

    /// The seat takes an open node of the tree. Where the tree isn't the hunt's or has no such seat, nothing
    /// happens.
    fn take(&self, tree: &mut SearchTree, seat: u8) -> Option<Region>
        ensures taken { IfSome result (TakesNode tree.old tree.new seat) }
        ensures gaps { IfSome result (λ n. AreGapsOf self.now.question.program n.must) }
        ensures none { IfNone result (tree.new ≡ tree.old) }
    {
        if !self.is_for(tree, seat) {
            return None;
        }
        match tree.take(seat) {
            Ok(node) => Some(node),
            Err(_) => None,
        }
    }

    /// One event under the lock: the seat's node is settled. Where the seat doesn't hold the node there,
    /// nothing happens.
    fn settle_held<R: Wait>(
        &self,
        rt: &R,
        seat: u8,
        node: &Region,
        how: Settling,
    ) -> Result<(), AllocError>
        requires { IsLawfulThere self.now.question self.now.costs node.now how }
        ensures { OnErr result (IsByRun how) }
    {
        let mut guard = self.tree.lock(rt);
        let tree = &mut *guard;
        if !self.is_held(tree, seat, node) {
            return Ok(());
        }
        settle_node(tree, seat, node, how)
    }

    /// One event under the lock: the seat's node is open again. Where the seat holds none there, nothing
    /// happens.
    fn reopen<R: Wait>(&self, rt: &R, seat: u8) {
        let mut guard = self.tree.lock(rt);
        let tree = &mut *guard;
        if self.is_for(tree, seat) {
            let _ = tree.give_back(seat);
        }
    }

    /// Whether the tree is of the hunt's question and costs and has the seat.
    fn is_for(&self, tree: &SearchTree, seat: u8) -> bool
        ensures { IsTrue result ↔ IsFor self.now tree.now seat }
    {
        seat < tree.seats() && is_search_of(tree, &self.question, &self.costs)
    }

    /// Whether it is, and the seat holds this node.
    fn is_held(&self, tree: &SearchTree, seat: u8, node: &Region) -> bool
        ensures { IsTrue result ↔ (IsFor self.now tree.now seat × HoldsOnly tree.now seat node.now) }
    {
        if !self.is_for(tree, seat) {
            return false;
        }
        match tree.held(seat) {
            Some(held) => held.same(node),
            None => false,
        }
    }
}

/// What stands beside the lock of a hunt.
#[derive(Drop)]
struct HuntParts {
    question: Question,
    costs: Costs,
    word: CeilingWord,
    rows: RunCells,
}

/// What stands beside the lock of a hunt through the tree, and the hunt's seats.
fn parts_of(
    alloc: Global,
    tree: &SearchTree,
    seats: u8,
) -> Result<(HuntParts, Vec<HuntSeat>), AllocError>
    ensures question { IfOk result (λ made. made.0.question ≡ tree.now.question) }
    ensures costs { IfOk result (λ made. made.0.costs ≡ tree.now.costs) }
    ensures word { IfOk result (λ made. made.0.word.problem ≡ problem tree.now.question tree.now.costs) }
    ensures seats { IfOk result (λ made. AreFreshAt made.0.word seats made.1.items) }
{
    let question = tree.question().copy()?;
    let costs = tree.costs().copy()?;
    let rows = RunCells::new(alloc, seats)?;
    let (word, row) = seated_word(alloc, tree, seats)?;
    let parts = HuntParts {
        question,
        costs,
        word,
        rows,
    };
    Ok((parts, row))
}

/// A ceiling word for the tree's problem, and the seats of a hunt at it.
fn seated_word(
    alloc: Global,
    tree: &SearchTree,
    seats: u8,
) -> Result<(CeilingWord, Vec<HuntSeat>), AllocError>
    ensures word { IfOk result (λ made. made.0.problem ≡ problem tree.now.question tree.now.costs) }
    ensures seats { IfOk result (λ made. AreFreshAt made.0 seats made.1.items) }
{
    let (word, mut first) = CeilingWord::new(alloc, tree.question(), tree.costs())?;
    let row = seats_of(alloc, &word, &mut first, seats)?;
    Ok((word, row))
}

/// The seats of a hunt, by number. Each knows of the ceiling word what the first seat there knows.
fn seats_of(
    alloc: Global,
    word: &CeilingWord,
    first: &mut WordSeat,
    seats: u8,
) -> Result<Vec<HuntSeat>, AllocError>
    requires of { IsSeatOf word.now first.old }
    requires least { first.old.least ≡ no_ceiling }
    ensures { IfOk result (λ row. AreFreshAt word.now seats row.items) }
{
    let mut row = Vec::with_capacity(alloc, usize::from(seats))?;
    for number in 0..seats {
        row.push(HuntSeat::new(number, word.split(first)))?;
    }
    Ok(row)
}

/// All seats are taken in, and with the last one what they know of the word is gone.
fn join_all(word: &CeilingWord, mut seats: Vec<HuntSeat>)
    requires { All (λ seat. IsSeatOf word.now seat.known) seats.items }
{
    let Some(mut last) = seats.pop() else {
        return;
    };
    while let Some(seat) = seats.pop() {
        last.take_in(word, seat);
    }
}

/// Whether the tree is of this question and of these costs.
fn is_search_of(tree: &SearchTree, question: &Question, costs: &Costs) -> bool
    ensures { IsTrue result ↔ ((tree.now.question ≡ question.now) × (tree.now.costs ≡ costs.now)) }
{
    is_same(tree.question(), question) && tree.costs().same(costs)
}
