//! The search as events.
ghost use Rattle.std.specs.Prelude.{◌≡◌, ◌↔◌, ◌<◌, ℕ, Some, IfSome, IfNone, IfOk, IfErr, OnOk, OnErr, IsTrue, MatchOption, length};
ghost use Rattle.gap_sets.specs.declared.region.Region.{Region};
ghost use Rattle.tso_program.specs.Listings.{gap_count};
ghost use Rattle.tso_machine.specs.Outcomes.{AreGapsOf, IsTheAnswer};
ghost use Rattle.search_core.specs.States.{HoldsNothing, HoldsOnly, HoldsNode, HasNoOpen, IsDone, IsSameSearch, IsSeatCount, IsStart};
ghost use Rattle.search_core.specs.Events.{TakesNode, GivesBack, Splits, Cuts, Confirms, MaySplit, MayConfirm};
ghost use Rattle.search_core.specs.Faults.{IsReasonOf, IsCutBy, TakeFaultIs, SplitFaultIs, CutFaultIs, IsWithoutNode};
ghost use Rattle.search_core.specs.Histories.{IsReached};
ghost use Rattle.search_core.specs.Records.{finished_state};

use crate::best::{cuts, is_better};
use crate::entries::{all_settled, best_open, find_held, mark, none_open, open_children};
use crate::entry::{Entry, Status};
use crate::{Finished, Reason, TreeFault};
use gap_sets::{Costs, Region};
use oracle::{ForeignRun, SeqTable, Served};
use std::alloc::{AllocError, Global};
use std::marker::Model;
use tso_program::Question;

/// A search whose state some history of events reaches. It keeps the allocator that it was made with.
#[derive(Drop)]
pub struct SearchTree {
    alloc: Global,
    question: Question,
    costs: Costs,
    seats: u8,
    entries: Vec<Entry>,
    best: Option<Served>,
}

impl Model for SearchTree {
    ghost use Rattle.search_core.specs.States.{SearchState};

    ghost Value = { SearchState };

    ghost use Rattle.gap_sets.specs.contracts.gap_set.GapSet as gap_set;
    ghost use Rattle.std.specs.Coded.{codes};
    ghost use Rattle.tso_program.specs.Nodes.{tree_code};
    ghost use Rattle.cert_forest.specs.CoverCodes.{coded_cover};

    ghost coded = { Prim.hlevel (codes, gap_set.the_row.coded, coded_cover, tree_code) };

    ghost use Rattle.search_core.specs.Histories.{IsReached};

    ghost view = { λ t. record { question = t.question; costs = t.costs; seats = t.seats; entries = t.entries.items; best = t.best } };

    ghost invariant = { λ t. IsReached (record { question = t.question; costs = t.costs; seats = t.seats; entries = t.entries.items; best = t.best }) };
}

impl SearchTree {
    /// A search for the best set of gaps of the table's program, by so many seats: only the node of all
    /// sets is there.
    pub fn new(
        alloc: Global,
        table: &SeqTable,
        costs: &Costs,
        seats: u8,
    ) -> Result<SearchTree, AllocError>
        requires one_each { length costs.now ≡ gap_count table.now.question.program.threads }
        requires seats { IsSeatCount seats }
        ensures start { IfOk result IsStart }
        ensures parts { IfOk result (λ tree. (tree.question ≡ table.now.question) × (tree.costs ≡ costs.now) × (tree.seats ≡ seats)) }
    {
        let question = table.question();
        question.program.recall_facts();
        costs.recall_facts();
        let mut entries = Vec::new(alloc);
        entries.push(Entry {
            node: Region::all(),
            seat: 0,
            status: Status::Open,
        })?;
        Ok(SearchTree {
            alloc,
            question: question.copy()?,
            costs: costs.copy()?,
            seats,
            entries,
            best: None,
        })
    }

    /// The question.
    pub fn question(&self) -> &Question
        ensures value { result.now ≡ self.now.question }
        ensures reached { IsReached self.now }
    {
        &self.question
    }

    /// For a proof alone: recalls what holds of every search.
    pub fn recall_facts(&self)
        ensures reached { IsReached self.now }
    {
        let _ = self.question();
    }

    /// What each gap costs.
    pub fn costs(&self) -> &Costs
        ensures value { result.now ≡ self.now.costs }
        ensures reached { IsReached self.now }
    {
        &self.costs
    }

    /// How many seats there are.
    pub fn seats(&self) -> u8
        ensures value { result ≡ self.now.seats }
        ensures reached { IsReached self.now }
    {
        self.seats
    }

    /// Whether no node is open.
    pub fn has_no_open(&self) -> bool
        ensures { IsTrue result ↔ HasNoOpen self.now }
    {
        none_open(&self.entries)
    }

    /// The node that the seat holds.
    pub fn held(&self, seat: u8) -> Option<Region>
        requires { seat < self.now.seats }
        ensures value { MatchOption result (HoldsNothing self.now seat) (HoldsOnly self.now seat) }
        ensures of_program { IfSome result (λ node. AreGapsOf self.now.question.program node.must) }
    {
        let (_, node) = find_held(&self.entries, seat)?;
        Some(node)
    }

    /// The seat takes an open node. It is the one whose `must` is best, the first of equals: a preference, on which
    /// no clause rests.
    pub fn take(&mut self, seat: u8) -> Result<Region, TreeFault>
        requires { seat < self.old.seats }
        ensures taken { IfOk result (TakesNode self.old self.new seat) }
        ensures holds { IfOk result (HoldsOnly self.new seat) }
        ensures of_program { IfOk result (λ node. AreGapsOf self.old.question.program node.must) }
        ensures same { IsSameSearch self.old self.new }
        ensures unchanged { OnErr result (self.new ≡ self.old) }
        ensures fault { IfErr result (TakeFaultIs self.old seat) }
    {
        let held = self.held(seat);
        if held.is_some() {
            return Err(TreeFault::SeatHolds);
        }
        let Some((place, node)) = best_open(&self.costs, &self.entries) else {
            return Err(TreeFault::NothingOpen);
        };
        mark(&mut self.entries, place, &node, seat, Status::Held);
        Ok(node)
    }

    /// The seat's node is open again.
    pub fn give_back(&mut self, seat: u8) -> Result<(), TreeFault>
        requires { seat < self.old.seats }
        ensures given { OnOk result (GivesBack self.old self.new seat) }
        ensures same { IsSameSearch self.old self.new }
        ensures unchanged { OnErr result (self.new ≡ self.old) }
        ensures fault { IfErr result (IsWithoutNode self.old seat) }
    {
        let Some((place, node)) = find_held(&self.entries, seat) else {
            return Err(TreeFault::SeatHoldsNothing);
        };
        mark(&mut self.entries, place, &node, seat, Status::Open);
        Ok(())
    }

    /// The seat's node is split by a run that passes no gap that its sets must have: its children are
    /// open.
    pub fn split(&mut self, seat: u8, run: &ForeignRun) -> Result<(), TreeFault>
        requires seat { seat < self.old.seats }
        requires of_question { run.now.question ≡ self.old.question }
        ensures split { OnOk result (Splits self.old self.new seat run.now) }
        ensures same { IsSameSearch self.old self.new }
        ensures unchanged { OnErr result (self.new ≡ self.old) }
        ensures fault { IfErr result (SplitFaultIs self.old seat run.now.passed) }
    {
        let Some((place, node)) = find_held(&self.entries, seat) else {
            return Err(TreeFault::SeatHoldsNothing);
        };
        run.recall_facts();
        let passed = run.passed();
        if passed.meets(&node.must) {
            return Err(TreeFault::Hit);
        }
        let kept = run.copy(self.alloc)?;
        let mut opened = open_children(self.alloc, &node, seat, passed)?;
        let first = self.entries.len();
        self.entries.append(&mut opened)?;
        let status = Status::Split(kept, first);
        mark(&mut self.entries, place, &node, seat, status);
        Ok(())
    }

    /// The seat's node is cut, if the reason cuts it.
    pub fn cut(&mut self, seat: u8, reason: Reason) -> Result<(), TreeFault>
        requires seat { seat < self.old.seats }
        requires of_search { IsReasonOf self.old reason }
        ensures cut { OnOk result (Cuts self.old self.new seat) }
        ensures lawful { OnOk result (IsCutBy self.old seat reason) }
        ensures same { IsSameSearch self.old self.new }
        ensures unchanged { OnErr result (self.new ≡ self.old) }
        ensures fault { IfErr result (CutFaultIs self.old seat reason) }
    {
        let Some((place, node)) = find_held(&self.entries, seat) else {
            return Err(TreeFault::SeatHoldsNothing);
        };
        if !cuts(&self.costs, &self.best, &reason, &node.must) {
            return Err(TreeFault::StillBetter);
        }
        mark(&mut self.entries, place, &node, seat, Status::Cut);
        Ok(())
    }

    /// What the sets of the seat's node must have serves.
    pub fn confirm(&mut self, seat: u8, served: Served) -> Result<(), TreeFault>
        requires seat { seat < self.old.seats }
        requires of_question { served.question ≡ self.old.question }
        requires of_node { (node : Region) → HoldsNode self.old seat node → served.gaps ≡ node.must }
        ensures confirmed { OnOk result (Confirms self.old self.new seat served) }
        ensures same { IsSameSearch self.old self.new }
        ensures unchanged { OnErr result (self.new ≡ self.old) }
        ensures fault { IfErr result (IsWithoutNode self.old seat) }
    {
        let Some((place, node)) = find_held(&self.entries, seat) else {
            return Err(TreeFault::SeatHoldsNothing);
        };
        let better = is_better(&self.costs, &self.best, &served);
        mark(&mut self.entries, place, &node, seat, Status::Confirmed);
        if !better {
            return Ok(());
        }
        self.best = Some(served);
        Ok(())
    }

    /// The node that the seat has in hand is split by a run that passes no gap that its sets must have.
    pub fn split_held(&mut self, seat: u8, run: &ForeignRun) -> Result<(), AllocError>
        requires { MaySplit self.old seat run.now }
        ensures split { OnOk result (Splits self.old self.new seat run.now) }
        ensures same { IsSameSearch self.old self.new }
        ensures unchanged { OnErr result (self.new ≡ self.old) }
    {
        let Err(fault) = self.split(seat, run) else {
            return Ok(());
        };
        match fault {
            TreeFault::OutOfMemory => Err(AllocError),
            _ => unreachable!(),
        }
    }

    /// What the sets of the node that the seat has in hand must have serves.
    pub fn confirm_held(&mut self, seat: u8, served: Served)
        requires { MayConfirm self.old seat served }
        ensures confirmed { Confirms self.old self.new seat served }
        ensures same { IsSameSearch self.old self.new }
    {
        match self.confirm(seat, served) {
            Ok(()) => {}
            Err(_) => unreachable!(),
        }
    }

    /// Whether no node is open or held.
    pub fn is_done(&self) -> bool
        ensures { IsTrue result ↔ IsDone self.now }
    {
        all_settled(&self.entries)
    }

    /// The best set that serves, once the search is done.
    pub fn answer(&self) -> Option<&Served>
        ensures some { IfSome result (λ served. IsDone self.now × (self.now.best ≡ Some served.now)) }
        ensures answer { IfSome result (λ served. (served.now.question ≡ self.now.question) × IsTheAnswer self.now.question self.now.costs served.now.gaps) }
        ensures none { IfNone result (¬ IsDone self.now) }
    {
        if self.is_done() {
            self.best.as_ref()
        } else {
            None
        }
    }

    /// What the search leaves, once it is done; else the search as it is.
    pub fn finish(self) -> Result<Finished, SearchTree>
        ensures ok { IfOk result (λ finished. finished_state finished ≡ self) }
        ensures done { OnOk result (IsDone self) }
        ensures err { IfErr result (λ tree. tree ≡ self) }
        ensures not_done { OnErr result (¬ IsDone self) }
    {
        if !self.is_done() {
            return Err(self);
        }
        let SearchTree {
            alloc: _,
            question,
            costs,
            seats,
            entries,
            best,
        } = self;
        match best {
            Some(served) => Ok(Finished {
                question,
                costs,
                seats,
                entries,
                served,
            }),
            None => unreachable!(),
        }
    }
}
