//! What the seat of a hunt does beside the lock, one call for each word of a script.
ghost use Rattle.std.specs.Prelude.{◌≡◌, IfErr};
ghost use Rattle.hunt_calls.specs.Hunts.{IsSound};

use crate::hunts::Hand;
use crate::refusal::HuntRefusal;
use crate::scene::Scene;
use hunt_board::{Hunt, PostFault, ROW_CELLS};
use oracle::{ForeignRun, Oracle};
use std::alloc::{AllocError, Global};
use text_calls::{byte_of, number_of, push_gaps_after, push_run, split_at_byte};

/// The hunt's ceiling.
pub fn push_ceiling(hunt: &Hunt, hand: &mut Hand, printed: &mut String) -> Result<(), AllocError>
    requires { IsSound hunt.now hand.old }
    ensures { IsSound hunt.now hand.new }
{
    match hunt.ceiling(&mut hand.seat).cost() {
        Some(cost) => write!(printed, "ceiling {cost}\n"),
        None => printed.push_str("ceiling none\n"),
    }
}

/// Posts the run. Whether the seat's row had a cell left, or the run where memory is refused.
fn is_posted(hunt: &Hunt, hand: &mut Hand, run: ForeignRun) -> Result<bool, ForeignRun>
    requires question { run.question ≡ hunt.now.question }
    requires sound { IsSound hunt.now hand.old }
    ensures sound { IsSound hunt.now hand.new }
    ensures back { IfErr result (λ back. back ≡ run) }
{
    match hunt.post(&mut hand.seat, run) {
        Ok(posted) => {
            hand.posted = Some(posted);
            Ok(true)
        }
        Err(PostFault::RowFull(run)) => {
            drop(run);
            Ok(false)
        }
        Err(PostFault::Refused(run)) => Err(run),
    }
}

/// Posts the run. Whether the seat's row had a cell left.
fn is_posted_now(hunt: &Hunt, hand: &mut Hand, run: ForeignRun) -> Result<bool, HuntRefusal>
    requires question { run.question ≡ hunt.now.question }
    requires sound { IsSound hunt.now hand.old }
    ensures { IsSound hunt.now hand.new }
{
    match is_posted(hunt, hand, run) {
        Ok(is_posted) => Ok(is_posted),
        Err(back) => {
            drop(back);
            Err(HuntRefusal::Memory(AllocError))
        }
    }
}

/// Posts the run. Whether the seat's row had a cell left; where memory is refused, it posts the run that was handed back, and
/// prints so.
fn is_posted_again(
    hunt: &Hunt,
    hand: &mut Hand,
    run: ForeignRun,
    printed: &mut String,
) -> Result<bool, HuntRefusal>
    requires question { run.question ≡ hunt.now.question }
    requires sound { IsSound hunt.now hand.old }
    ensures { IsSound hunt.now hand.new }
{
    let back = match is_posted(hunt, hand, run) {
        Ok(is_posted) => return Ok(is_posted),
        Err(back) => back,
    };
    let is_posted = is_posted_now(hunt, hand, back);
    printed.push_str("refused post\n")?;
    is_posted
}

impl<O: Oracle> Scene<'_, O> {
    /// Lowers the ceiling to what the set of these gaps costs, where it serves.
    pub fn lower(&self, hand: &mut Hand, gaps: &[u8]) -> Result<(), HuntRefusal>
        requires may { O.may_be_asked self.now.inquiry.now.oracle.now }
        requires sound { IsSound self.now.hunt.now hand.old }
        ensures { IsSound self.now.hunt.now hand.new }
    {
        let served = self.inquiry.served_by(gaps)?;
        self.hunt.lower(&mut hand.seat, &served);
        drop(served);
        Ok(())
    }

    /// Posts the run of these labels.
    pub fn post(
        &self,
        hand: &mut Hand,
        labels: &[u8],
        printed: &mut String,
    ) -> Result<(), HuntRefusal>
        requires { IsSound self.now.hunt.now hand.old }
        ensures { IsSound self.now.hunt.now hand.new }
    {
        let run = self.inquiry.run_by(labels)?;
        if is_posted_again(self.hunt, hand, run, printed)? {
            Ok(printed.push_str("posted\n")?)
        } else {
            Ok(printed.push_str("row full\n")?)
        }
    }

    /// Posts runs of these labels, as many as a row has cells.
    pub fn fill(&self, hand: &mut Hand, labels: &[u8]) -> Result<(), HuntRefusal>
        requires { IsSound self.now.hunt.now hand.old }
        ensures { IsSound self.now.hunt.now hand.new }
    {
        for _ in 0..ROW_CELLS {
            let run = self.inquiry.run_by(labels)?;
            is_posted_now(self.hunt, hand, run)?;
        }
        Ok(())
    }
}

/// The gaps that a run passes, and its steps.
fn push_posted_run(
    alloc: Global,
    run: &ForeignRun,
    printed: &mut String,
) -> Result<(), AllocError> {
    push_gaps_after("passed", &run.passed(), printed)?;
    printed.push('\n')?;
    push_run(alloc, run.labels(), printed)
}

/// The run that was posted last.
pub fn push_posted(
    alloc: Global,
    hunt: &Hunt,
    hand: &mut Hand,
    printed: &mut String,
) -> Result<(), HuntRefusal>
    requires { IsSound hunt.now hand.old }
    ensures { IsSound hunt.now hand.new }
{
    let Some(posted) = &mut hand.posted else {
        return Err(HuntRefusal::Call);
    };
    let run = hunt.posted(posted);
    Ok(push_posted_run(alloc, run, printed)?)
}

/// The run that a seat has posted, by the seat's number and the run's index.
pub fn push_look(
    alloc: Global,
    hunt: &Hunt,
    place: &[u8],
    printed: &mut String,
) -> Result<(), HuntRefusal> {
    let (seat, index) = split_at_byte(place, b':');
    match hunt.look(byte_of(seat)?, number_of(index)? as usize) {
        Some(run) => Ok(push_posted_run(alloc, run, printed)?),
        None => Ok(printed.push_str("no run\n")?),
    }
}
