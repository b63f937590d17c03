//! A hunt of one seat by its calls, one for each word of a script, at whose end the hunt is closed.
ghost use Rattle.std.specs.Prelude.{◌≡◌, ◌∷◌, [], IfOk};
ghost use Rattle.hunt_board.specs.Seats.{IsFresh};
ghost use Rattle.hunt_calls.specs.Hunts.{IsSound};

use crate::beside::{push_ceiling, push_look, push_posted};
use crate::inquiry::Inquiry;
use crate::records::push_set;
use crate::refusal::HuntRefusal;
use crate::scene::Scene;
use crate::search::{new_search, push_region};
use crate::settlings::{Way, held};
use hunt_board::{Hunt, HuntSeat, Next, Posted, Receipt};
use oracle::{Oracle, SeqTable};
use search_core::Finished;
use std::alloc::{AllocError, Global};
use std::sync::Wait;
use text_calls::{named, split_at_byte};

/// So many receipts are kept without another allocation.
const FEW: usize = 8;

/// What the script has in hand: its seat, the receipts of what it settled, and what shows that it posted its last run.
#[derive(Drop)]
pub struct Hand {
    pub seat: HuntSeat,
    pub receipts: Vec<Receipt>,
    pub posted: Option<Posted>,
}

/// What a word names.
#[derive(Clone, Copy)]
enum HuntStep {
    Next,
    GiveBack,
    Drop,
    Split,
    Again,
    Settle(Way),
    Ceiling,
    Lower,
    Post,
    Fill,
    Posted,
    Look,
}

const STEPS: [(&[u8], HuntStep); 14] = [
    (b"next", HuntStep::Next),
    (b"give", HuntStep::GiveBack),
    (b"drop", HuntStep::Drop),
    (b"split", HuntStep::Split),
    (b"settle", HuntStep::Again),
    (b"ask", HuntStep::Settle(Way::Ask)),
    (b"best", HuntStep::Settle(Way::Best)),
    (b"cut", HuntStep::Settle(Way::Cut)),
    (b"ceiling", HuntStep::Ceiling),
    (b"lower", HuntStep::Lower),
    (b"post", HuntStep::Post),
    (b"fill", HuntStep::Fill),
    (b"posted", HuntStep::Posted),
    (b"look", HuntStep::Look),
];

/// The seat takes a node, whose region is printed, where one is left.
fn push_next<W: Wait>(
    wait: &W,
    hunt: &Hunt,
    hand: &mut Hand,
    printed: &mut String,
) -> Result<(), HuntRefusal>
    requires { IsSound hunt.now hand.old }
    ensures { IsSound hunt.now hand.new }
{
    if hand.seat.node().is_some() {
        return Err(HuntRefusal::Call);
    }
    match hunt.next(wait, &mut hand.seat) {
        Next::Work(node) => Ok(push_region(&node, printed)?),
        Next::Done => Ok(printed.push_str("done\n")?),
    }
}

/// The seat's node is open again.
fn give_back<W: Wait>(
    wait: &W,
    hunt: &Hunt,
    hand: &mut Hand,
    printed: &mut String,
) -> Result<(), HuntRefusal>
    requires { IsSound hunt.now hand.old }
    ensures { IsSound hunt.now hand.new }
{
    let _ = held(&hand.seat)?;
    hunt.give_back(wait, &mut hand.seat);
    Ok(printed.push_str("given back\n")?)
}

impl<O: Oracle> Scene<'_, O> {
    /// Does what a word names.
    fn push_step<W: Wait>(
        &self,
        wait: &W,
        hand: &mut Hand,
        word: &[u8],
        printed: &mut String,
    ) -> Result<(), HuntRefusal>
        requires may { O.may_be_asked self.now.inquiry.now.oracle.now }
        requires sound { IsSound self.now.hunt.now hand.old }
        ensures { IsSound self.now.hunt.now hand.new }
    {
        let (name, rest) = split_at_byte(word, b':');
        match named(&STEPS, name)? {
            HuntStep::Next => push_next(wait, self.hunt, hand, printed),
            HuntStep::GiveBack => give_back(wait, self.hunt, hand, printed),
            HuntStep::Drop => {
                let _ = hand.receipts.pop();
                Ok(())
            }
            HuntStep::Split => self.split(wait, hand, rest, printed),
            HuntStep::Again => self.split_again(wait, hand, rest, printed),
            HuntStep::Settle(way) => self.settle(wait, hand, way, printed),
            HuntStep::Ceiling => Ok(push_ceiling(self.hunt, hand, printed)?),
            HuntStep::Lower => self.lower(hand, rest),
            HuntStep::Post => self.post(hand, rest, printed),
            HuntStep::Fill => self.fill(hand, rest),
            HuntStep::Posted => push_posted(self.inquiry.alloc, self.hunt, hand, printed),
            HuntStep::Look => push_look(self.inquiry.alloc, self.hunt, rest, printed),
        }
    }

    /// The lines of a script: what each word did, or why it did nothing.
    fn push_script<W: Wait>(
        &self,
        wait: &W,
        hand: &mut Hand,
        script: &[&[u8]],
        printed: &mut String,
    ) -> Result<(), AllocError>
        requires may { O.may_be_asked self.now.inquiry.now.oracle.now }
        requires sound { IsSound self.now.hunt.now hand.old }
        ensures { IsSound self.now.hunt.now hand.new }
    {
        for word in script {
            match self.push_step(wait, hand, word, printed) {
                Ok(()) => {}
                Err(refusal) => write!(printed, "refused {refusal}\n")?,
            }
        }
        Ok(())
    }
}

/// The seat alone in a list.
fn alone(alloc: Global, seat: HuntSeat) -> Result<Vec<HuntSeat>, AllocError>
    ensures { IfOk result (λ seats. seats.items ≡ seat ∷ []) }
{
    let mut seats = Vec::new(alloc);
    seats.push(seat)?;
    Ok(seats)
}

/// A hunt by one seat for the best set of gaps, each of which costs 1.
fn hunt_alone(alloc: Global, table: &SeqTable) -> Result<(Hunt, HuntSeat), HuntRefusal>
    ensures hunt { IfOk result (λ made. made.0.question ≡ table.now.question) }
    ensures seat { IfOk result (λ made. IsFresh made.0 made.1) }
{
    let tree = new_search(alloc, table, 1)?;
    let (hunt, mut seats) = Hunt::new(alloc, tree, 1)?;
    match seats.pop() {
        Some(seat) => Ok((hunt, seat)),
        None => {
            drop(hunt);
            Err(HuntRefusal::Call)
        }
    }
}

/// A hunt by one seat, and what is in hand before its script: the seat, and nothing settled or posted.
fn begin(alloc: Global, table: &SeqTable) -> Result<(Hunt, Hand), HuntRefusal>
    ensures question { IfOk result (λ made. made.0.question ≡ table.now.question) }
    ensures sound { IfOk result (λ made. IsSound made.0 made.1) }
{
    let receipts = Vec::with_capacity(alloc, FEW)?;
    let (hunt, seat) = hunt_alone(alloc, table)?;
    let hand = Hand {
        seat,
        receipts,
        posted: None,
    };
    Ok((hunt, hand))
}

/// A hunt for the best set of gaps, each of which costs 1, by one seat, and what is in hand after a script.
pub fn hunt_by<W: Wait, O: Oracle>(
    wait: &W,
    inquiry: &Inquiry<'_, O>,
    script: &[&[u8]],
    printed: &mut String,
) -> Result<(Hunt, Hand), HuntRefusal>
    requires { O.may_be_asked inquiry.now.oracle.now }
    ensures { IfOk result (λ made. IsSound made.0 made.1) }
{
    let (hunt, mut hand) = begin(inquiry.alloc, inquiry.table)?;
    let scene = Scene {
        inquiry,
        hunt: &hunt,
    };
    match scene.push_script(wait, &mut hand, script, printed) {
        Ok(()) => Ok((hunt, hand)),
        Err(fault) => {
            drop(hand);
            drop(hunt);
            Err(HuntRefusal::Memory(fault))
        }
    }
}

/// What the hunt leaves, where it closes.
fn close(alloc: Global, hunt: Hunt, hand: Hand) -> Result<Finished, HuntRefusal>
    requires { IsSound hunt hand }
{
    let Hand {
        seat,
        receipts,
        posted: _,
    } = hand;
    match alone(alloc, seat) {
        Ok(seats) => Ok(hunt.close(seats, receipts)?),
        Err(fault) => {
            drop(hunt);
            Err(HuntRefusal::Memory(fault))
        }
    }
}

/// The set that the hunt ends with, or why it does not end.
pub fn push_end(
    alloc: Global,
    hunt: Hunt,
    hand: Hand,
    printed: &mut String,
) -> Result<(), HuntRefusal>
    requires { IsSound hunt hand }
{
    match close(alloc, hunt, hand) {
        Ok(finished) => {
            let pushed = push_set(&finished, printed);
            drop(finished);
            Ok(pushed?)
        }
        Err(refusal) => Ok(write!(printed, "refused {refusal}\n")?),
    }
}

/// The lines of a script over a hunt, and what the hunt ends with.
pub fn push_hunted<W: Wait, O: Oracle>(
    wait: &W,
    inquiry: &Inquiry<'_, O>,
    script: &[&[u8]],
    printed: &mut String,
) -> Result<(), HuntRefusal>
    requires { O.may_be_asked inquiry.now.oracle.now }
{
    let (hunt, hand) = hunt_by(wait, inquiry, script, printed)?;
    push_end(inquiry.alloc, hunt, hand, printed)
}
