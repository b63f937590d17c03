//! Where jumps lead.
ghost use Rattle.std.specs.Prelude.{◌≡◌, true, false, not, IfOk, OnOk, IfSome, IfNone, List, [], map, option_map, slice_index_or};
ghost use Rattle.std.specs.List.{list_all};
ghost use Rattle.litmus_syntax.specs.Views.{code_view, cell_view, row_view};
ghost use Rattle.litmus_reader.specs.Labels.{label_in, jump_of, is_found, are_found};
ghost use Rattle.litmus_reader.specs.Internal.Filling.{byte_at, with_label, FindsAs, FindAllAs};

use crate::label::CodeLabel;
use indexmap::IndexMap;
use litmus_syntax::{Cell, Code};
use std::alloc::{AllocError, Global};
use std::marker::Model;
use tso_program::Items;

/// The labels of a thread, found by name.
#[derive(Drop)]
pub(crate) struct Targets {
    positions: IndexMap<Vec<u8>, usize>,
}

impl Model for Targets {
    ghost use Rattle.std.specs.Prelude.{List};
    ghost use Rattle.litmus_reader.specs.declared.label.CodeLabel.{CodeLabel as LabelValue};
    ghost use Rattle.litmus_reader.specs.Internal.Filling.{labels_in};

    ghost Value = { List LabelValue };

    ghost view = { λ t. labels_in t.positions.entries };
}

impl Targets {
    /// A label is added, if its name is new.
    fn add(&mut self, alloc: Global, label: &CodeLabel) -> Result<(), AllocError>
        ensures { OnOk result (self.new ≡ with_label self.old label.now) }
    {
        if self.find(label.name.as_slice()).is_none() {
            let own = Vec::from_slice(alloc, label.name.as_slice())?;
            self.positions.insert(own, label.position)?;
        }
        Ok(())
    }

    fn new(alloc: Global, labels: &[CodeLabel]) -> Result<Targets, AllocError>
        ensures { IfOk result (λ targets. FindsAs targets labels.now) }
    {
        let mut targets = Targets {
            positions: IndexMap::new(alloc),
        };
        for label in labels {
            targets.add(alloc, label)?;
        }
        Ok(targets)
    }

    /// The position of the label of this name.
    fn find(&self, name: &[u8]) -> Option<usize>
        ensures { result ≡ option_map (λ label. label.position) (label_in self.now name.now) }
    {
        self.positions.get(name).copied()
    }

    /// The position of the label of this name; 0 if no label has it, 255 past a byte.
    pub(crate) fn position(&self, name: &[u8]) -> u8
        ensures { result ≡ byte_at self.now name.now }
    {
        let position = self.find(name).unwrap_or(0);
        u8::try_from(position).unwrap_or(u8::MAX)
    }
}

/// The labels of each thread, found by name.
pub(crate) fn targets_of(
    alloc: Global,
    labels: &[Items<CodeLabel>],
) -> Result<Vec<Targets>, AllocError>
    ensures { IfOk result (λ targets. FindAllAs targets.items labels.now) }
{
    let mut targets = Vec::new(alloc);
    for own in labels {
        targets.push(Targets::new(alloc, own.as_slice())?)?;
    }
    Ok(targets)
}

/// The label to which an instruction jumps.
fn jump_of<'t>(code: Code<'t>) -> Option<&'t [u8]>
    ensures { option_map (λ label. label.now) result ≡ jump_of (code_view code.entry) }
{
    match code {
        Code::Je(label) | Code::Jne(label) | Code::Jmp(label) => Some(label),
        _ => None,
    }
}

/// Whether a thread's cell jumps to a name that is no label of the thread.
fn is_lost(targets: &[Targets], thread: usize, cell: &Cell<'_>) -> bool
    ensures { result ≡ not (is_found (slice_index_or targets.now thread []) (cell_view cell.now)) }
{
    let Some(code) = cell.code else {
        return false;
    };
    let Some(label) = jump_of(code) else {
        return false;
    };
    match targets.get(thread) {
        Some(own) => own.find(label).is_none(),
        None => true,
    }
}

/// The tokens left at the first jump of a row to a name that is no label of its thread.
fn lost_in_row(targets: &[Targets], row: &[Cell<'_>]) -> Option<usize>
    ensures none { IfNone result (are_found targets.now 0 (map cell_view row.now) ≡ true) }
    ensures some { IfSome result (λ left. are_found targets.now 0 (map cell_view row.now) ≡ false) }
{
    for (thread, cell) in row.iter().enumerate() {
        if is_lost(targets, thread, cell) {
            return Some(cell.left);
        }
    }
    None
}

/// The tokens left at the first jump, in text order, to a name that is no label of its thread.
pub(crate) fn lost_jump(targets: &[Targets], rows: &[Vec<Cell<'_>>]) -> Option<usize>
    ensures none { IfNone result (list_all (are_found targets.now 0) (map row_view rows.now) ≡ true) }
    ensures some { IfSome result (λ left. list_all (are_found targets.now 0) (map row_view rows.now) ≡ false) }
{
    for row in rows {
        if let Some(left) = lost_in_row(targets, row.as_slice()) {
            return Some(left);
        }
    }
    None
}
