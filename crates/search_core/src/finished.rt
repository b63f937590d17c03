//! A search that is done.
ghost use Rattle.std.specs.Prelude.{◌≡◌, ℕ, Some, None, IfSome, IfNone, MatchOption, slice_get, length};
ghost use Rattle.tso_machine.specs.Outcomes.{IsTheAnswer};
ghost use Rattle.search_core.specs.Records.{IsOutcome, IsSettledAs, IsFirstChild};

use crate::entry::{Entry, Status};
use gap_sets::{Costs, Region};
use oracle::{ForeignRun, Served};
use std::marker::Model;
use tso_program::{Program, Question};

/// A search that is done: the answer, and the record of how each node was settled. No call of it takes
/// memory.
#[derive(Drop)]
pub struct Finished {
    pub(crate) question: Question,
    pub(crate) costs: Costs,
    pub(crate) seats: u8,
    pub(crate) entries: Vec<Entry>,
    pub(crate) served: Served,
}

impl Model for Finished {
    ghost use Rattle.search_core.specs.Records.{Outcome};

    ghost Value = { Outcome };

    ghost use Rattle.gap_sets.specs.contracts.gap_set.GapSet as gap_set;
    ghost use Rattle.std.specs.Coded.{codes};
    ghost use Rattle.tso_program.specs.Nodes.{tree_code};
    ghost use Rattle.cert_forest.specs.CoverCodes.{coded_cover};

    ghost coded = { Prim.hlevel (codes, gap_set.the_row.coded, coded_cover, tree_code) };

    ghost use Rattle.search_core.specs.Records.{IsOutcome};

    ghost view = { λ f. record { question = f.question; costs = f.costs; seats = f.seats; entries = f.entries.items; served = f.served } };

    ghost invariant = { λ f. IsOutcome (record { question = f.question; costs = f.costs; seats = f.seats; entries = f.entries.items; served = f.served }) };
}

/// How a node was settled.
#[derive(Clone, Copy)]
pub enum SettledEvent<'a> {
    /// By this run.
    Split(&'a ForeignRun),
    Cut,
    Confirmed,
}

/// A node by its region, the seat that settled it, and how.
#[derive(Clone, Copy)]
pub struct Settled<'a> {
    pub node: Region,
    pub seat: u8,
    pub event: SettledEvent<'a>,
}

impl Finished {
    /// The answer.
    pub fn served(&self) -> &Served
        ensures value { result.now ≡ self.now.served }
        ensures answer { (self.now.served.question ≡ self.now.question) × IsTheAnswer self.now.question self.now.costs self.now.served.gaps }
        ensures outcome { IsOutcome self.now }
    {
        &self.served
    }

    /// For a proof alone: recalls what holds of every search that is done.
    pub fn recall_facts(&self)
        ensures answer { (self.now.served.question ≡ self.now.question) × IsTheAnswer self.now.question self.now.costs self.now.served.gaps }
        ensures outcome { IsOutcome self.now }
    {
        let _ = self.served();
    }

    /// The program.
    pub fn program(&self) -> &Program
        ensures value { result.now ≡ self.now.question.program }
        ensures outcome { IsOutcome self.now }
    {
        &self.question.program
    }

    /// What each gap costs.
    pub fn costs(&self) -> &Costs
        ensures value { result.now ≡ self.now.costs }
        ensures outcome { IsOutcome self.now }
    {
        &self.costs
    }

    /// How many nodes the record has.
    pub fn nodes(&self) -> usize
        ensures { result ≡ length self.now.entries }
    {
        self.entries.len()
    }

    /// What the record says of the node of this number; the node of all sets is number 0.
    pub fn settled(&self, number: usize) -> Option<Settled<'_>>
        ensures { MatchOption result (slice_get self.now.entries number ≡ None)
            (λ settled. (e : _) × (slice_get self.now.entries number ≡ Some e) × IsSettledAs e settled) }
    {
        let entry = self.entries.get(number)?;
        let event = match &entry.status {
            Status::Split(run, _) => SettledEvent::Split(run),
            Status::Cut => SettledEvent::Cut,
            Status::Confirmed => SettledEvent::Confirmed,
            Status::Open | Status::Held => unreachable!(),
        };
        Some(Settled {
            node: entry.node,
            seat: entry.seat,
            event,
        })
    }

    /// The number of the first child of a node that was split; the others follow it, each for a gap that the
    /// run passes and that the node's sets may have, in the gaps' order.
    pub fn first_child(&self, number: usize) -> Option<usize>
        ensures some { IfSome result (λ first. IsFirstChild self.now.entries number first) }
        ensures none { IfNone result ((first : ℕ) → ¬ IsFirstChild self.now.entries number first) }
    {
        let Some(entry) = self.entries.get(number) else {
            return None;
        };
        match &entry.status {
            Status::Split(_, first) => Some(*first),
            _ => None,
        }
    }
}
