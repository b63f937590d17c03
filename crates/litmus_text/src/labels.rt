//! The labels of a text, at their places among the fenced instructions.
ghost use Rattle.std.specs.Prelude.{◌≡◌, ◌≢◌, ◌++◌, ℕ, IfOk, IfNone, IfSome, length, map, nat_lt};
ghost use Rattle.text_tokens.specs.Pieces.{text_of};
ghost use Rattle.tso_program.specs.Fences.{gaps_in, place_of};
ghost use Rattle.litmus_text.specs.Spelling.{gap, joined_by, label_pieces};
ghost use Rattle.litmus_text.specs.Canonical.{label_names_at, label_name_at, own_labels, moved_labels};

use crate::words::push_gap;
use gap_sets::GapSet;
use litmus_reader::{CodeLabel, Litmus};
use std::alloc::AllocError;
use tso_program::{Items, Program};

/// The position that lies at this place of the fenced thread; `None` at an instruction after its fence.
fn position_at(program: &Program, gaps: &GapSet, t: u8, place: u8) -> Option<usize>
    ensures found { IfSome result (λ k. place_of (gaps_in program.now gaps.now t) k ≡ place) }
    ensures none { IfNone result ((k : ℕ) → place_of (gaps_in program.now gaps.now t) k ≢ place) }
{
    let mut position: usize = 0;
    let mut reached: usize = 0;
    while reached < place as usize {
        reached += if program.is_fenced(gaps, t, position as u8) {
            2
        } else {
            1
        };
        position += 1;
    }
    if reached == place as usize {
        Some(position)
    } else {
        None
    }
}

/// The labels of a thread.
fn labels_of(labels: &[Items<CodeLabel>], thread: usize) -> &[CodeLabel]
    ensures { result.now ≡ own_labels labels.now thread }
{
    match labels.get(thread) {
        Some(own) => own.as_slice(),
        None => &[],
    }
}

/// `NAME: NAME: ..`, the labels of a position; returns how many they are.
fn push_own(out: &mut Vec<u8>, labels: &[CodeLabel], position: usize) -> Result<usize, AllocError>
    ensures text { IfOk result (λ count. out.new.items ≡ out.old.items ++ text_of (joined_by gap (map label_pieces (label_names_at labels.now position)))) }
    ensures count { IfOk result (λ count. count ≡ length (label_names_at labels.now position)) }
{
    let mut count: usize = 0;
    for label in labels {
        if label.position == position {
            push_gap(out, count)?;
            out.extend_from_slice(label.name.as_slice())?;
            out.push(b':')?;
            count += 1;
        }
    }
    Ok(count)
}

/// The name of the first label of a position; `None` if it has no label.
fn first_label(labels: &[CodeLabel], position: usize) -> &[u8]
    ensures { result.now ≡ label_name_at labels.now position }
{
    for label in labels {
        if label.position == position {
            return label.name.as_slice();
        }
    }
    b""
}

/// Whether a label stands at the position.
fn is_labelled(labels: &[CodeLabel], position: usize) -> bool
    ensures { result ≡ nat_lt 0 (length (label_names_at labels.now position)) }
{
    for label in labels {
        if label.position == position {
            return true;
        }
    }
    false
}

/// The labels at a place of a fenced thread; returns how many they are.
pub fn push_labels(
    out: &mut Vec<u8>,
    litmus: &Litmus<Program>,
    gaps: &GapSet,
    t: u8,
    place: u8,
) -> Result<usize, AllocError>
    ensures text { IfOk result (λ count. out.new.items ≡ out.old.items ++ text_of (joined_by gap (map label_pieces
        (label_names_at (own_labels (moved_labels (gaps_in litmus.now.program gaps.now) 0 litmus.now.labels) t) place)))) }
    ensures count { IfOk result (λ count. count ≡ length (label_names_at (own_labels (moved_labels (gaps_in litmus.now.program gaps.now) 0 litmus.now.labels) t) place)) }
{
    let labels = labels_of(litmus.labels.as_slice(), t as usize);
    match position_at(&litmus.program, gaps, t, place) {
        Some(position) => push_own(out, labels, position),
        None => Ok(0),
    }
}

/// The name of the first label at a place of a fenced thread; `None` if it has no label.
pub fn label_name<'a>(litmus: &'a Litmus<Program>, gaps: &GapSet, t: u8, place: u8) -> &'a [u8]
    ensures { result.now ≡ label_name_at (own_labels (moved_labels (gaps_in litmus.now.program gaps.now) 0 litmus.now.labels) t) place }
{
    let labels = labels_of(litmus.labels.as_slice(), t as usize);
    match position_at(&litmus.program, gaps, t, place) {
        Some(position) => first_label(labels, position),
        None => b"",
    }
}

/// Whether a label stands at a place of a fenced thread.
pub fn has_label(litmus: &Litmus<Program>, gaps: &GapSet, t: u8, place: u8) -> bool
    ensures { result ≡ nat_lt 0 (length (label_names_at (own_labels (moved_labels (gaps_in litmus.now.program gaps.now) 0 litmus.now.labels) t) place)) }
{
    let labels = labels_of(litmus.labels.as_slice(), t as usize);
    match position_at(&litmus.program, gaps, t, place) {
        Some(position) => is_labelled(labels, position),
        None => false,
    }
}
