//! The words of a certificate's lines.
//!
//! Most numbers of a tree have one digit, so the words of such a node are made whole, and go onto the page at once.

ghost use Rattle.std.specs.Prelude.{◌≡◌, ◌++◌, ◌∷◌, [], ◌<◌, map, OnOk, codes};
ghost use Rattle.std.specs.Fmt.{decimal};
ghost use Rattle.gap_sets.specs.Gaps.{numbers_of_set};
ghost use Rattle.tso_machine.specs.RunTexts.{spelling};
ghost use Rattle.cert_words.specs.Lines.{texts_of, spaced, line};
ghost use Rattle.cert_forest.specs.Texts.{register_word, location_word, place_word, shown_line, head_lines, access_word, kind_word, labels_line};
ghost use Rattle.cert_pages.specs.NodeWords.{node_words, gap_node_words, early_node_words};

use candidate_executions::Kind;
use cert_forest::{AccessId, CoverNode, Events, GapNode, Rule, Shows};
use gap_sets::GapSet;
use itoa::Buffer;
use std::alloc::AllocError;
use tso_machine::Label;
use tso_program::{Names, REGISTER_PLACES, REGISTERS};

/// The places below this are those of registers, and the others those of locations.
const MAX_REGISTERS: u8 = REGISTER_PLACES as u8;
/// How many registers a thread has.
const THREAD_REGISTERS: u8 = REGISTERS as u8;

/// The number's one digit.
#[tactic(auto, using(std::proofs::lemmas::Fmt::decimal_digit))]
fn digit(number: u64) -> u8
    requires { number < 10 }
    ensures { decimal number ≡ result ∷ [] }
{
    b'0' + number as u8
}

fn push_byte(out: &mut Vec<u8>, byte: u8) -> Result<(), AllocError>
    ensures { OnOk result (out.new.items ≡ out.old.items ++ byte ∷ []) }
{
    out.push(byte)?;
    Ok(())
}

fn push_digits(out: &mut Vec<u8>, number: u64) -> Result<(), AllocError>
    ensures { OnOk result (out.new.items ≡ out.old.items ++ decimal number) }
{
    if number < 10 {
        return push_byte(out, digit(number));
    }
    let mut digits = Buffer::new();
    out.extend_from_slice(digits.format(number).as_bytes())
}

/// A space, and a number.
pub fn push_number(out: &mut Vec<u8>, number: u64) -> Result<(), AllocError>
    ensures { OnOk result (out.new.items ≡ out.old.items ++ spaced (decimal number)) }
{
    if number < 10 {
        return out.extend_from_slice(&[b' ', digit(number)]);
    }
    push_byte(out, b' ')?;
    push_digits(out, number)
}

pub(crate) fn push_len(out: &mut Vec<u8>, number: usize) -> Result<(), AllocError>
    ensures { OnOk result (out.new.items ≡ out.old.items ++ spaced (decimal number)) }
{
    push_number(out, number as u64)
}

/// A space, and a letter.
pub fn push_letter(out: &mut Vec<u8>, letter: u8) -> Result<(), AllocError>
    ensures { OnOk result (out.new.items ≡ out.old.items ++ spaced (letter ∷ [])) }
{
    out.extend_from_slice(&[b' ', letter])
}

/// A space, a letter, and a number.
fn push_named(out: &mut Vec<u8>, letter: u8, number: u64) -> Result<(), AllocError>
    ensures { OnOk result (out.new.items ≡ out.old.items ++ spaced (letter ∷ decimal number)) }
{
    if number < 10 {
        return out.extend_from_slice(&[b' ', letter, digit(number)]);
    }
    push_letter(out, letter)?;
    push_digits(out, number)
}

/// A space, and an access: its thread, a point, and its index.
pub fn push_access(out: &mut Vec<u8>, event: AccessId) -> Result<(), AllocError>
    ensures { OnOk result (out.new.items ≡ out.old.items ++ spaced (access_word event)) }
{
    let AccessId { thread, access } = event;
    if thread < 10 && access < 10 {
        return out.extend_from_slice(&[
            b' ',
            digit(u64::from(thread)),
            b'.',
            digit(u64::from(access)),
        ]);
    }
    push_number(out, u64::from(thread))?;
    push_byte(out, b'.')?;
    push_digits(out, u64::from(access))
}

fn push_events(out: &mut Vec<u8>, events: Events<'_>) -> Result<(), AllocError>
    ensures { OnOk result (out.new.items ≡ out.old.items ++ texts_of spaced (map access_word events.entry)) }
{
    for event in events {
        push_access(out, event)?;
    }
    Ok(())
}

fn push_value(out: &mut Vec<u8>, thread: u8, count: u32) -> Result<(), AllocError>
    ensures { OnOk result (out.new.items ≡ out.old.items ++ texts_of spaced (codes "V" ∷ (decimal thread ∷ (decimal count ∷ [])))) }
{
    if thread < 10 && count < 10 {
        return out.extend_from_slice(&[
            b' ',
            b'V',
            b' ',
            digit(u64::from(thread)),
            b' ',
            digit(u64::from(count)),
        ]);
    }
    push_letter(out, b'V')?;
    push_number(out, u64::from(thread))?;
    push_number(out, u64::from(count))
}

fn push_source(out: &mut Vec<u8>, read: AccessId, count: u32) -> Result<(), AllocError>
    ensures { OnOk result (out.new.items ≡ out.old.items ++ texts_of spaced (codes "S" ∷ (access_word read ∷ (decimal count ∷ [])))) }
{
    let AccessId { thread, access } = read;
    if thread < 10 && access < 10 && count < 10 {
        return out.extend_from_slice(&[
            b' ',
            b'S',
            b' ',
            digit(u64::from(thread)),
            b'.',
            digit(u64::from(access)),
            b' ',
            digit(u64::from(count)),
        ]);
    }
    push_letter(out, b'S')?;
    push_access(out, read)?;
    push_number(out, u64::from(count))
}

/// The letter of a kind.
fn letter_of(kind: Kind) -> u8
    ensures { kind_word kind ≡ result ∷ [] }
{
    match kind {
        Kind::Sequential => b's',
        Kind::Location => b'l',
        Kind::Global => b'g',
    }
}

/// The words of a cycle before those of its accesses: its letter, its union, and how many accesses it has.
pub fn push_cycle_head(out: &mut Vec<u8>, kind: Kind, len: usize) -> Result<(), AllocError>
    ensures { OnOk result (out.new.items ≡ out.old.items ++ texts_of spaced (codes "C" ∷ (kind_word kind ∷ (decimal len ∷ [])))) }
{
    if len < 10 {
        return out.extend_from_slice(&[b' ', b'C', b' ', letter_of(kind), b' ', digit(len as u64)]);
    }
    push_letter(out, b'C')?;
    push_letter(out, letter_of(kind))?;
    push_len(out, len)
}

/// The words of a node of a cover tree.
pub fn push_node(out: &mut Vec<u8>, node: CoverNode<'_>) -> Result<(), AllocError>
    ensures { OnOk result (out.new.items ≡ out.old.items ++ texts_of spaced (node_words node.entry)) }
{
    match node {
        CoverNode::Value { thread, count } => push_value(out, thread, count),
        CoverNode::Source { read, count } => push_source(out, read, count),
        CoverNode::Order { first, second } => {
            push_letter(out, b'O')?;
            push_access(out, first)?;
            push_access(out, second)
        }
        CoverNode::Cycle { kind, events } => {
            push_cycle_head(out, kind, events.len())?;
            push_events(out, events)
        }
        CoverNode::Known { run } => {
            push_letter(out, b'K')?;
            push_number(out, run)
        }
    }
}

/// The words of a split by a foreign run, given by its number from 0, with so many children.
pub fn push_split(out: &mut Vec<u8>, run: u64, count: u32) -> Result<(), AllocError>
    ensures { OnOk result (out.new.items ≡ out.old.items ++ texts_of spaced (codes "P" ∷ (decimal run ∷ (decimal count ∷ [])))) }
{
    push_letter(out, b'P')?;
    push_number(out, run)?;
    push_number(out, u64::from(count))
}

/// The words of a node in the first two versions, which name no runs.
pub(crate) fn push_gap_node(out: &mut Vec<u8>, node: GapNode) -> Result<(), AllocError>
    ensures { OnOk result (out.new.items ≡ out.old.items ++ texts_of spaced (gap_node_words node)) }
{
    match node {
        GapNode::Split { count, run } => push_split(out, run, count),
        GapNode::By { .. } => Ok(()),
        GapNode::Bound => push_letter(out, b'B'),
    }
}

/// A bound's letter, how many runs it names, and the first of them.
fn push_first_run(out: &mut Vec<u8>, runs: usize, run: u64) -> Result<(), AllocError>
    ensures { OnOk result (out.new.items ≡ out.old.items ++ texts_of spaced (codes "B" ∷ (decimal runs ∷ (decimal run ∷ [])))) }
{
    push_letter(out, b'B')?;
    push_len(out, runs)?;
    push_number(out, run)
}

/// A bound without runs.
fn push_bare_bound(out: &mut Vec<u8>) -> Result<(), AllocError>
    ensures { OnOk result (out.new.items ≡ out.old.items ++ texts_of spaced (codes "B" ∷ (decimal 0 ∷ []))) }
{
    push_letter(out, b'B')?;
    push_number(out, 0)
}

/// The words of a node in the fourth version, where the first tree names so many runs. Inside a bound its letter and
/// the number of its runs are written.
pub(crate) fn push_early_node(
    out: &mut Vec<u8>,
    inside: bool,
    runs: usize,
    node: GapNode,
) -> Result<(), AllocError>
    ensures { OnOk result (out.new.items ≡ out.old.items ++ texts_of spaced (early_node_words inside runs node)) }
{
    match node {
        GapNode::Split { count, run } => push_split(out, run, count),
        GapNode::By { run } => {
            if inside {
                return push_number(out, run);
            }
            push_first_run(out, runs, run)
        }
        GapNode::Bound => {
            if inside {
                return Ok(());
            }
            push_bare_bound(out)
        }
    }
}

fn push_label(out: &mut Vec<u8>, label: Label) -> Result<(), AllocError>
    ensures { OnOk result (out.new.items ≡ out.old.items ++ spaced (spelling label)) }
{
    match label {
        Label::Exec(thread) => push_named(out, b'e', u64::from(thread)),
        Label::Flush(thread) => push_named(out, b'f', u64::from(thread)),
    }
}

fn push_labels(out: &mut Vec<u8>, labels: &[Label]) -> Result<(), AllocError>
    ensures { OnOk result (out.new.items ≡ out.old.items ++ texts_of spaced (map spelling labels.now)) }
{
    for label in labels {
        push_label(out, *label)?;
    }
    Ok(())
}

/// The line of a run.
pub fn push_run(out: &mut Vec<u8>, labels: &[Label]) -> Result<(), AllocError>
    ensures { OnOk result (out.new.items ≡ out.old.items ++ labels_line labels.now) }
{
    out.extend_from_slice(b"run")?;
    push_labels(out, labels)?;
    push_byte(out, b'\n')
}

fn push_gap_numbers(out: &mut Vec<u8>, set: GapSet) -> Result<(), AllocError>
    ensures { OnOk result (out.new.items ≡ out.old.items ++ texts_of spaced (map decimal (numbers_of_set set))) }
{
    for gap in set.iter() {
        push_number(out, u64::from(gap))?;
    }
    Ok(())
}

/// The line of the set and that of its cost.
pub fn push_set(out: &mut Vec<u8>, set: GapSet, cost: u64) -> Result<(), AllocError>
    ensures { OnOk result (out.new.items
        ≡ out.old.items ++ (line (codes "set") (map decimal (numbers_of_set set)) ++ line (codes "cost") (decimal cost ∷ []))) }
{
    out.extend_from_slice(b"set")?;
    push_gap_numbers(out, set)?;
    out.extend_from_slice(b"\ncost")?;
    push_number(out, cost)?;
    push_byte(out, b'\n')
}

/// A space, and `rT.R`.
fn push_register(out: &mut Vec<u8>, thread: u8, register: u8) -> Result<(), AllocError>
    ensures { OnOk result (out.new.items ≡ out.old.items ++ spaced (register_word thread register)) }
{
    push_named(out, b'r', u64::from(thread))?;
    push_byte(out, b'.')?;
    push_digits(out, u64::from(register))
}

/// A space, and `lN`.
fn push_location(out: &mut Vec<u8>, location: u8) -> Result<(), AllocError>
    ensures { OnOk result (out.new.items ≡ out.old.items ++ spaced (location_word location)) }
{
    push_named(out, b'l', u64::from(location))
}

/// A space, and the word of a place.
fn push_place(out: &mut Vec<u8>, place: u8) -> Result<(), AllocError>
    ensures { OnOk result (out.new.items ≡ out.old.items ++ spaced (place_word place)) }
{
    if place < MAX_REGISTERS {
        push_register(out, place / THREAD_REGISTERS, place % THREAD_REGISTERS)
    } else {
        push_location(out, place - MAX_REGISTERS)
    }
}

fn push_places(out: &mut Vec<u8>, names: &Names) -> Result<(), AllocError>
    ensures { OnOk result (out.new.items ≡ out.old.items ++ texts_of spaced (map place_word (numbers_of_set names.now))) }
{
    for place in names.places() {
        push_place(out, place)?;
    }
    Ok(())
}

/// The line that says what the text is, and that of what is shown, where the version has one.
pub fn push_head(out: &mut Vec<u8>, rule: Rule, shown: &Shows) -> Result<(), AllocError>
    ensures { OnOk result (out.new.items ≡ out.old.items ++ head_lines rule shown.now) }
{
    match rule {
        Rule::Whole => push_whole_head(out, shown),
        Rule::Early => push_early_head(out, shown),
    }
}

/// The first line, or the first two lines, of the first two versions.
fn push_whole_head(out: &mut Vec<u8>, shown: &Shows) -> Result<(), AllocError>
    ensures { OnOk result (out.new.items ≡ out.old.items ++ head_lines Rule.Whole shown.now) }
{
    match shown {
        Shows::All => out.extend_from_slice(b"FENCECERT 1\n"),
        Shows::Only(names) => push_second(out, names),
        Shows::Condition => out.extend_from_slice(b"FENCECERT 2\nshown condition\n"),
    }
}

/// The two lines of the second version.
fn push_second(out: &mut Vec<u8>, names: &Names) -> Result<(), AllocError>
    ensures { OnOk result (out.new.items ≡ out.old.items ++ head_lines Rule.Whole (Shows.Only names.now)) }
{
    out.extend_from_slice(b"FENCECERT 2\n")?;
    push_shown(out, names)
}

/// The two lines of the fourth version.
fn push_early_head(out: &mut Vec<u8>, shown: &Shows) -> Result<(), AllocError>
    ensures { OnOk result (out.new.items ≡ out.old.items ++ head_lines Rule.Early shown.now) }
{
    out.extend_from_slice(b"FENCECERT 4\n")?;
    push_shown_line(out, shown)
}

fn push_shown_line(out: &mut Vec<u8>, shown: &Shows) -> Result<(), AllocError>
    ensures { OnOk result (out.new.items ≡ out.old.items ++ shown_line shown.now) }
{
    match shown {
        Shows::All => out.extend_from_slice(b"shown all\n"),
        Shows::Only(names) => push_shown(out, names),
        Shows::Condition => out.extend_from_slice(b"shown condition\n"),
    }
}

fn push_shown(out: &mut Vec<u8>, names: &Names) -> Result<(), AllocError>
    ensures { OnOk result (out.new.items ≡ out.old.items ++ line (codes "shown") (map place_word (numbers_of_set names.now))) }
{
    out.extend_from_slice(b"shown")?;
    push_places(out, names)?;
    push_byte(out, b'\n')
}
