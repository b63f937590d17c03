//! Two hunts, and a receipt of the one among those of the other.
ghost use Rattle.std.specs.Prelude.{◌≡◌};

use crate::refusal::PlaceRefusal;
use crate::verdicts::Verdicts;
use cover_solver::{SeqTable, sequential};
use hunt_board::Receipt;
use hunt_calls::{Hand, Inquiry, hunt_by, push_end};
use litmus_text::read_litmus;
use std::alloc::Global;
use std::sync::Wait;
use text_calls::{place_of_then, split_at_byte};
use tso_program::Shown;

/// The sequential outcomes of a litmus text, all of them shown.
fn table_of(alloc: Global, text: &[u8]) -> Result<SeqTable, PlaceRefusal> {
    let litmus = read_litmus(alloc, text)?;
    let table = sequential(alloc, &litmus.program, &Shown::All);
    drop(litmus);
    Ok(table?)
}

/// The last receipt of a hunt by this script.
fn last_receipt<W: Wait>(
    wait: &W,
    inquiry: &Inquiry<'_, Verdicts<'_>>,
    script: &[&[u8]],
    printed: &mut String,
) -> Result<Receipt, PlaceRefusal> {
    let (hunt, mut hand) = hunt_by(wait, inquiry, script, printed)?;
    let last = hand.receipts.pop();
    drop(hand);
    drop(hunt);
    last.ok_or(PlaceRefusal::Call)
}

/// Puts the last receipt of a hunt by this script in place of the last one in hand.
fn exchange<W: Wait>(
    wait: &W,
    inquiry: &Inquiry<'_, Verdicts<'_>>,
    script: &[&[u8]],
    hand: &mut Hand,
    printed: &mut String,
) -> Result<(), PlaceRefusal>
    ensures { (hand.new.seat ≡ hand.old.seat) × (hand.new.posted ≡ hand.old.posted) }
{
    let receipt = last_receipt(wait, inquiry, script, printed)?;
    let _ = hand.receipts.pop();
    Ok(hand.receipts.push(receipt)?)
}

/// The lines of a hunt by the words before `then`, of another one by those after it, and what the first ends with where its
/// last receipt is the other's.
fn push_of_two<W: Wait>(
    wait: &W,
    words: &[&[u8]],
    inquiry: &Inquiry<'_, Verdicts<'_>>,
    other: &Inquiry<'_, Verdicts<'_>>,
    printed: &mut String,
) -> Result<(), PlaceRefusal> {
    let (script, rest) = words.split_at(place_of_then(words)?);
    let (hunt, mut hand) = hunt_by(wait, inquiry, script, printed)?;
    match exchange(wait, other, rest.split_at(1).1, &mut hand, printed) {
        Ok(()) => Ok(push_end(inquiry.alloc, hunt, hand, printed)?),
        Err(refusal) => {
            drop(hand);
            drop(hunt);
            Err(refusal)
        }
    }
}

/// The lines of a hunt of this table, of one of the test of a text, and what the first ends with then.
fn push_beside<W: Wait>(
    wait: &W,
    alloc: Global,
    words: &[&[u8]],
    table: &SeqTable,
    text: &[u8],
    printed: &mut String,
) -> Result<(), PlaceRefusal> {
    let other = table_of(alloc, text)?;
    let verdicts = Verdicts::new(alloc, table);
    let others = Verdicts::new(alloc, &other);
    let pushed = push_of_two(wait, words, &verdicts.inquiry(), &others.inquiry(), printed);
    drop(other);
    pushed
}

/// The lines of a hunt of the first of two tests by the words before `then`, of one of the second by those after it, and
/// what the first ends with where its last receipt is the second's. A `%` stands between the tests.
pub fn push_exchanged<W: Wait>(
    wait: &W,
    alloc: Global,
    words: &[&[u8]],
    text: &[u8],
    printed: &mut String,
) -> Result<(), PlaceRefusal> {
    let (first, second) = split_at_byte(text, b'%');
    let table = table_of(alloc, first)?;
    let pushed = push_beside(wait, alloc, words, &table, second, printed);
    drop(table);
    pushed
}
