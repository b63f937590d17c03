//! Settling the node of a hunt's seat.
ghost use Rattle.std.specs.Prelude.{◌≡◌, IfOk, Some};
ghost use Rattle.tso_machine.specs.Outcomes.{AreGapsOf};
ghost use Rattle.oracle.specs.Facts.{IsForeignValue};
ghost use Rattle.oracle.specs.Verdicts.{PassesNoneOf};
ghost use Rattle.search_core.specs.Ceilings.{IsAboveCeiling, IsCeilingOf};
ghost use Rattle.hunt_board.specs.Seats.{IsOf};
ghost use Rattle.hunt_board.specs.Settlings.{IsLawfulSettling};
ghost use Rattle.hunt_calls.specs.Hunts.{IsSound};

use crate::hunts::Hand;
use crate::refusal::HuntRefusal;
use crate::scene::Scene;
use gap_sets::Region;
use hunt_board::{Hunt, HuntSeat, Receipt, ReceiptEvent, Settling};
use oracle::{ForeignRun, Oracle, Verdict};
use search_core::Ceiling;
use std::alloc::AllocError;
use std::sync::Wait;
use text_calls::{passes_none, push_gaps_after};

/// A way to settle a node but by a run.
#[derive(Clone, Copy)]
pub enum Way {
    /// By what the oracle says.
    Ask,
    /// By the best set that the seat has confirmed.
    Best,
    /// By the hunt's ceiling.
    Cut,
}

/// The node that the seat holds.
pub fn held(seat: &HuntSeat) -> Result<Region, HuntRefusal>
    ensures { IfOk result (λ node. seat.now.node ≡ Some node) }
{
    match seat.node() {
        Some(node) => Ok(node),
        None => Err(HuntRefusal::Call),
    }
}

fn push_receipt(receipt: &Receipt, printed: &mut String) -> Result<(), AllocError> {
    write!(printed, "seat {} ", receipt.seat)?;
    match receipt.event {
        ReceiptEvent::Split(passed) => push_gaps_after("split passed", &passed, printed)?,
        ReceiptEvent::Cut => printed.push_str("cut")?,
        ReceiptEvent::Confirmed => printed.push_str("confirmed")?,
    }
    printed.push('\n')
}

/// The hunt's ceiling, where what the node's sets must have costs more.
fn ceiling_below(hunt: &Hunt, seat: &mut HuntSeat, node: &Region) -> Result<Ceiling, HuntRefusal>
    requires { IsOf hunt.now seat.old }
    ensures of { IsOf hunt.now seat.new }
    ensures same { (seat.new.node ≡ seat.old.node) × (seat.new.best ≡ seat.old.best) }
    ensures ceiling { IfOk result (IsCeilingOf hunt.now.question hunt.now.costs) }
    ensures below { IfOk result (IsAboveCeiling hunt.now.costs node.now.must) }
{
    let ceiling = hunt.ceiling(seat);
    match ceiling.cost() {
        Some(cost) if cost < hunt.costs().total(&node.must) => Ok(ceiling),
        _ => {
            drop(ceiling);
            Err(HuntRefusal::Call)
        }
    }
}

impl<O: Oracle> Scene<'_, O> {
    /// The settling of a node in this way, where it is lawful.
    fn settling_by(
        &self,
        seat: &mut HuntSeat,
        node: &Region,
        way: Way,
    ) -> Result<Settling, HuntRefusal>
        requires may { O.may_be_asked self.now.inquiry.now.oracle.now }
        requires gaps { AreGapsOf self.now.hunt.now.question.program node.now.must }
        requires of { IsOf self.now.hunt.now seat.old }
        ensures of { IsOf self.now.hunt.now seat.new }
        ensures same { (seat.new.node ≡ seat.old.node) × (seat.new.best ≡ seat.old.best) }
        ensures lawful { IfOk result (IsLawfulSettling self.now.hunt.now seat.new.best node.now) }
    {
        match way {
            Way::Ask => Ok(Settling::Asked(self.inquiry.verdict_on(&node.must)?)),
            Way::Cut => Ok(Settling::Cut(ceiling_below(self.hunt, seat, node)?)),
            Way::Best => {
                if seat.has_as_good(self.hunt.costs(), &node.must) {
                    Ok(Settling::Best)
                } else {
                    Err(HuntRefusal::Call)
                }
            }
        }
    }

    /// Settles the seat's node in this way, keeps the receipt and prints it.
    pub fn settle<W: Wait>(
        &self,
        wait: &W,
        hand: &mut Hand,
        way: Way,
        printed: &mut String,
    ) -> Result<(), HuntRefusal>
        requires may { O.may_be_asked self.now.inquiry.now.oracle.now }
        requires sound { IsSound self.now.hunt.now hand.old }
        ensures { IsSound self.now.hunt.now hand.new }
    {
        let node = held(&hand.seat)?;
        let settling = self.settling_by(&mut hand.seat, &node, way)?;
        let receipt = self.hunt.settle(wait, &mut hand.seat, settling)?;
        hand.receipts.push(receipt)?;
        Ok(push_receipt(&receipt, printed)?)
    }

    /// The run of these labels, where it splits the node.
    fn run_past(&self, node: &Region, labels: &[u8]) -> Result<ForeignRun, HuntRefusal>
        ensures of { IfOk result (λ run. run.question ≡ self.now.inquiry.now.table.now.question) }
        ensures foreign { IfOk result IsForeignValue }
        ensures splits { IfOk result (PassesNoneOf node.now.must) }
    {
        let run = self.inquiry.run_by(labels)?;
        run.recall_facts();
        if passes_none(&run, &node.must) {
            Ok(run)
        } else {
            drop(run);
            Err(HuntRefusal::Call)
        }
    }

    /// Settles the seat's node by the run of these labels, keeps the receipt and prints it. Whether there was memory to
    /// settle it.
    fn is_split<W: Wait>(
        &self,
        wait: &W,
        hand: &mut Hand,
        labels: &[u8],
        printed: &mut String,
    ) -> Result<bool, HuntRefusal>
        requires { IsSound self.now.hunt.now hand.old }
        ensures { IsSound self.now.hunt.now hand.new }
    {
        let node = held(&hand.seat)?;
        let run = self.run_past(&node, labels)?;
        let settling = Settling::Asked(Verdict::Foreign(run));
        let Ok(receipt) = self.hunt.settle(wait, &mut hand.seat, settling) else {
            return Ok(false);
        };
        hand.receipts.push(receipt)?;
        push_receipt(&receipt, printed)?;
        Ok(true)
    }

    /// Settles the seat's node by the run of these labels.
    pub fn split<W: Wait>(
        &self,
        wait: &W,
        hand: &mut Hand,
        labels: &[u8],
        printed: &mut String,
    ) -> Result<(), HuntRefusal>
        requires { IsSound self.now.hunt.now hand.old }
        ensures { IsSound self.now.hunt.now hand.new }
    {
        if self.is_split(wait, hand, labels, printed)? {
            Ok(())
        } else {
            Err(HuntRefusal::Memory(AllocError))
        }
    }

    /// Settles the seat's node by the run of these labels. Where memory is refused, it prints so and settles the node by
    /// another such run.
    pub fn split_again<W: Wait>(
        &self,
        wait: &W,
        hand: &mut Hand,
        labels: &[u8],
        printed: &mut String,
    ) -> Result<(), HuntRefusal>
        requires { IsSound self.now.hunt.now hand.old }
        ensures { IsSound self.now.hunt.now hand.new }
    {
        if self.is_split(wait, hand, labels, printed)? {
            return Ok(());
        }
        printed.push_str("refused settle\n")?;
        self.split(wait, hand, labels, printed)
    }
}
