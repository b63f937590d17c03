//! A search by its events, one for each word of a script.
ghost use Rattle.std.specs.Prelude.{◌≡◌, ◌<◌, IfOk, IfSome};
ghost use Rattle.search_core.specs.States.{IsSameSearch, IsSeatCount, IsStart};

use crate::ceilings::{Making, made};
use crate::inquiry::Inquiry;
use crate::records::push_record;
use crate::refusal::HuntRefusal;
use gap_sets::Region;
use oracle::{Oracle, SeqTable, Served};
use search_core::{Reason, SearchTree};
use std::alloc::{AllocError, Global};
use text_calls::{equal_costs, named, place_of_then, push_gaps_after, split_at_byte};

/// How many seats the search has.
const SEATS: u8 = 2;

/// What a seat does.
#[derive(Clone, Copy)]
enum SearchEvent {
    Take,
    Split,
    Cut,
    CutBy(Making),
    Confirm,
    GiveBack,
}

/// What a word names: what a seat does, and the labels or gaps that it does it by.
#[derive(Clone, Copy)]
struct Act<'a> {
    event: SearchEvent,
    seat: u8,
    labels: &'a [u8],
}

const EVENTS: [(&[u8], SearchEvent); 8] = [
    (b"take", SearchEvent::Take),
    (b"split", SearchEvent::Split),
    (b"cut", SearchEvent::Cut),
    (b"none", SearchEvent::CutBy(Making::None)),
    (b"of", SearchEvent::CutBy(Making::Of)),
    (b"at", SearchEvent::CutBy(Making::At)),
    (b"confirm", SearchEvent::Confirm),
    (b"give", SearchEvent::GiveBack),
];

pub fn push_region(region: &Region, printed: &mut String) -> Result<(), AllocError> {
    push_gaps_after("must", &region.must, printed)?;
    push_gaps_after(" never", &region.never, printed)?;
    printed.push('\n')
}

/// The seat takes a node, whose region is printed.
fn take(tree: &mut SearchTree, seat: u8, printed: &mut String) -> Result<(), HuntRefusal>
    requires { seat < tree.old.seats }
    ensures { IsSameSearch tree.old tree.new }
{
    let region = tree.take(seat)?;
    Ok(push_region(&region, printed)?)
}

/// The seat's node is split by the run of the act's labels.
fn split<O: Oracle>(
    inquiry: &Inquiry<'_, O>,
    tree: &mut SearchTree,
    act: &Act<'_>,
) -> Result<(), HuntRefusal>
    requires seat { act.now.seat < tree.old.seats }
    requires of_table { tree.old.question ≡ inquiry.now.table.now.question }
    ensures { IsSameSearch tree.old tree.new }
{
    let run = inquiry.run_by(act.labels)?;
    let split = tree.split(act.seat, &run);
    drop(run);
    Ok(split?)
}

/// The seat's node is cut by a ceiling that is made in this way, which is printed.
fn cut_by<O: Oracle>(
    inquiry: &Inquiry<'_, O>,
    tree: &mut SearchTree,
    act: &Act<'_>,
    making: Making,
    printed: &mut String,
) -> Result<(), HuntRefusal>
    requires seat { act.now.seat < tree.old.seats }
    requires may { O.may_be_asked inquiry.now.oracle.now }
    requires of_table { tree.old.question ≡ inquiry.now.table.now.question }
    ensures { IsSameSearch tree.old tree.new }
{
    let ceiling = made(inquiry, tree, making, act.labels)?;
    let cost = ceiling.cost();
    let cut = tree.cut(act.seat, Reason::Ceiling(ceiling));
    write!(printed, "ceiling {cost:?}\n")?;
    Ok(cut?)
}

/// The seat's node is confirmed, if the gaps that its sets must have serve.
fn confirm<O: Oracle>(
    inquiry: &Inquiry<'_, O>,
    tree: &mut SearchTree,
    seat: u8,
) -> Result<(), HuntRefusal>
    requires seat { seat < tree.old.seats }
    requires may { O.may_be_asked inquiry.now.oracle.now }
    requires of_table { tree.old.question ≡ inquiry.now.table.now.question }
    ensures { IsSameSearch tree.old tree.new }
{
    let Some(node) = tree.held(seat) else {
        return Err(HuntRefusal::Call);
    };
    let served = inquiry.served_on(&node.must)?;
    Ok(tree.confirm(seat, served)?)
}

/// Does what a word names, and prints what became of it.
fn push_event<O: Oracle>(
    inquiry: &Inquiry<'_, O>,
    tree: &mut SearchTree,
    act: &Act<'_>,
    printed: &mut String,
) -> Result<(), HuntRefusal>
    requires seat { act.now.seat < tree.old.seats }
    requires may { O.may_be_asked inquiry.now.oracle.now }
    requires of_table { tree.old.question ≡ inquiry.now.table.now.question }
    ensures { IsSameSearch tree.old tree.new }
{
    let done = match act.event {
        SearchEvent::Take => return take(tree, act.seat, printed),
        SearchEvent::Split => {
            split(inquiry, tree, act)?;
            "split\n"
        }
        SearchEvent::Cut => {
            tree.cut(act.seat, Reason::Best)?;
            "cut\n"
        }
        SearchEvent::CutBy(making) => {
            cut_by(inquiry, tree, act, making, printed)?;
            "cut\n"
        }
        SearchEvent::Confirm => {
            confirm(inquiry, tree, act.seat)?;
            "confirmed\n"
        }
        SearchEvent::GiveBack => {
            tree.give_back(act.seat)?;
            "given back\n"
        }
    };
    Ok(printed.push_str(done)?)
}

/// Does what a word names: the event, the seat's number as its last digit, and labels or gaps after a colon.
fn push_step<O: Oracle>(
    inquiry: &Inquiry<'_, O>,
    tree: &mut SearchTree,
    word: &[u8],
    printed: &mut String,
) -> Result<(), HuntRefusal>
    requires seats { tree.old.seats ≡ 2 }
    requires may { O.may_be_asked inquiry.now.oracle.now }
    requires of_table { tree.old.question ≡ inquiry.now.table.now.question }
    ensures { IsSameSearch tree.old tree.new }
{
    let (first, labels) = split_at_byte(word, b':');
    let Some((last, name)) = first.split_last() else {
        return Err(HuntRefusal::Call);
    };
    let seat = last.wrapping_sub(b'0');
    if seat >= SEATS {
        return Err(HuntRefusal::Call);
    }
    let act = Act {
        event: named(&EVENTS, name)?,
        seat,
        labels,
    };
    push_event(inquiry, tree, &act, printed)
}

/// The answer, if the search is done.
fn push_answer(answer: Option<&Served>, printed: &mut String) -> Result<(), AllocError> {
    match answer {
        Some(served) => {
            push_gaps_after("set", &served.set(), printed)?;
            printed.push('\n')
        }
        None => printed.push_str("not done\n"),
    }
}

/// The lines of a word: the answer, or what became of an event.
fn push_word<O: Oracle>(
    inquiry: &Inquiry<'_, O>,
    tree: &mut SearchTree,
    word: &[u8],
    printed: &mut String,
) -> Result<(), AllocError>
    requires seats { tree.old.seats ≡ 2 }
    requires may { O.may_be_asked inquiry.now.oracle.now }
    requires of_table { tree.old.question ≡ inquiry.now.table.now.question }
    ensures { IsSameSearch tree.old tree.new }
{
    if word == b"answer".as_slice() {
        return push_answer(tree.answer(), printed);
    }
    if word == b"done".as_slice() {
        return write!(printed, "done {}\n", tree.is_done());
    }
    match push_step(inquiry, tree, word, printed) {
        Ok(()) => Ok(()),
        Err(refusal) => write!(printed, "refused {refusal}\n"),
    }
}

/// The lines of a script.
fn push_script<O: Oracle>(
    inquiry: &Inquiry<'_, O>,
    tree: &mut SearchTree,
    script: &[&[u8]],
    printed: &mut String,
) -> Result<(), AllocError>
    requires seats { tree.old.seats ≡ 2 }
    requires may { O.may_be_asked inquiry.now.oracle.now }
    requires of_table { tree.old.question ≡ inquiry.now.table.now.question }
    ensures seats { tree.new.seats ≡ 2 }
    ensures of_table { tree.new.question ≡ inquiry.now.table.now.question }
{
    for word in script {
        push_word(inquiry, tree, word, printed)?;
    }
    Ok(())
}

/// A search by so many seats for the best set of gaps, each of which costs 1.
pub fn new_search(alloc: Global, table: &SeqTable, seats: u8) -> Result<SearchTree, HuntRefusal>
    requires { IsSeatCount seats }
    ensures start { IfOk result IsStart }
    ensures parts { IfOk result (λ tree. (tree.question ≡ table.now.question) × (tree.seats ≡ seats)) }
{
    let costs = equal_costs(alloc, table)?;
    Ok(SearchTree::new(alloc, table, &costs, seats)?)
}

/// The lines of a script over the search for the best set of gaps, each of which costs 1.
pub fn push_searched<O: Oracle>(
    inquiry: &Inquiry<'_, O>,
    script: &[&[u8]],
    printed: &mut String,
) -> Result<(), HuntRefusal>
    requires { O.may_be_asked inquiry.now.oracle.now }
{
    let mut tree = new_search(inquiry.alloc, inquiry.table, SEATS)?;
    let pushed = push_script(inquiry, &mut tree, script, printed);
    drop(tree);
    Ok(pushed?)
}

/// The record of a search that is done. Of one that is not, it says so, and hands it back.
fn push_if_finished(
    tree: SearchTree,
    printed: &mut String,
) -> Result<Option<SearchTree>, AllocError>
    ensures { IfOk result (λ back. IfSome back (λ left. left ≡ tree)) }
{
    match tree.finish() {
        Ok(finished) => {
            let pushed = push_record(&finished, printed);
            drop(finished);
            pushed?;
            Ok(None)
        }
        Err(tree) => match printed.push_str("not finished\n") {
            Ok(()) => Ok(Some(tree)),
            Err(fault) => {
                drop(tree);
                Err(fault)
            }
        },
    }
}

/// The lines of a script over a search, and then its record where it is done. One that is not is handed back.
fn push_part<O: Oracle>(
    inquiry: &Inquiry<'_, O>,
    mut tree: SearchTree,
    script: &[&[u8]],
    printed: &mut String,
) -> Result<Option<SearchTree>, AllocError>
    requires seats { tree.seats ≡ 2 }
    requires may { O.may_be_asked inquiry.now.oracle.now }
    requires of_table { tree.question ≡ inquiry.now.table.now.question }
    ensures seats { IfOk result (λ back. IfSome back (λ left. left.seats ≡ 2)) }
    ensures of_table { IfOk result (λ back. IfSome back (λ left. left.question ≡ inquiry.now.table.now.question)) }
{
    match push_script(inquiry, &mut tree, script, printed) {
        Ok(()) => push_if_finished(tree, printed),
        Err(fault) => {
            drop(tree);
            Err(fault)
        }
    }
}

/// The lines of the words before `then` over a search, and its record where it is done; or else those of the words after
/// it, and the record then.
pub fn push_records<O: Oracle>(
    inquiry: &Inquiry<'_, O>,
    words: &[&[u8]],
    printed: &mut String,
) -> Result<(), HuntRefusal>
    requires { O.may_be_asked inquiry.now.oracle.now }
{
    let (script, rest) = words.split_at(place_of_then(words)?);
    let tree = new_search(inquiry.alloc, inquiry.table, SEATS)?;
    if let Some(tree) = push_part(inquiry, tree, script, printed)? {
        drop(push_part(inquiry, tree, rest.split_at(1).1, printed)?);
    }
    Ok(())
}
