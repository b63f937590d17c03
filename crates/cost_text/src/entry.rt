//! What lines say of gaps.
ghost use Rattle.std.specs.Prelude.{◌≡◌, ◌<◌, [], IfOk, map, min, if◌then◌else◌};
ghost use Rattle.std.specs.List.{range_with_len};
ghost use Rattle.gap_sets.specs.Ties.{AreTies};
ghost use Rattle.gap_sets.specs.declared.gap_set.TheConstants.{MAX_GAPS};
ghost use Rattle.cost_text.specs.Internal.TextReading.{cost_in, entry_at, has_no_ties, name_in, names_in, no_gaps, with_gap};

use gap_sets::{GapSet, Ties};
use std::alloc::{AllocError, Global};

/// What a line says: these gaps go together under the name of the least, and cost so much.
#[derive(Clone, Copy)]
pub(crate) struct CostEntry {
    pub(crate) gaps: GapSet,
    pub(crate) name: u8,
    pub(crate) cost: u32,
}

/// The gaps of a line so far, the least of them, and whether one of them was named before.
#[derive(Clone, Copy)]
pub(crate) struct PlacedGaps {
    pub(crate) gaps: GapSet,
    pub(crate) name: u8,
    pub(crate) is_repeated: bool,
}

/// The entry of a gap, if one names it.
fn entry_at(entries: &[CostEntry], gap: u8) -> Option<CostEntry>
    ensures { result ≡ entry_at entries.now gap }
{
    entries.iter().find(|entry| entry.gaps.has(gap)).copied()
}

/// What a gap costs: 1 where no entry names it.
fn cost_in(entries: &[CostEntry], gap: u8) -> u32
    ensures { result ≡ cost_in entries.now gap }
{
    match entry_at(entries, gap) {
        Some(entry) => entry.cost,
        None => 1,
    }
}

/// The name of a gap: its own number where no entry names it.
fn name_in(entries: &[CostEntry], gap: u8) -> u8
    ensures { result ≡ name_in entries.now gap }
{
    match entry_at(entries, gap) {
        Some(entry) => entry.name,
        None => gap,
    }
}

/// What each of so many gaps costs.
pub(crate) fn costs_in(
    alloc: Global,
    entries: &[CostEntry],
    gaps: u8,
) -> Result<Vec<u32>, AllocError>
    ensures { IfOk result (λ costs. costs.items ≡ map (cost_in entries.now) (range_with_len 0 gaps)) }
{
    (0..gaps).map(|gap| cost_in(entries, gap)).collect(alloc)
}

/// The name of each of so many gaps.
fn names_in(alloc: Global, entries: &[CostEntry], gaps: u8) -> Result<Vec<u8>, AllocError>
    ensures { IfOk result (λ names. names.items ≡ names_in gaps entries.now) }
{
    (0..gaps).map(|gap| name_in(entries, gap)).collect(alloc)
}

/// Whether each of so many gaps is a tie of its own.
fn has_no_ties(entries: &[CostEntry], gaps: u8) -> bool
    ensures { result ≡ has_no_ties gaps entries.now }
{
    (0..gaps).all(|gap| name_in(entries, gap) == gap)
}

/// The ties of so many gaps.
pub(crate) fn ties_in(alloc: Global, entries: &[CostEntry], gaps: u8) -> Result<Ties, AllocError>
    requires { AreTies (names_in gaps entries.now) }
    ensures { IfOk result (λ ties. ties ≡ (if has_no_ties gaps entries.now then [] else names_in gaps entries.now)) }
{
    if has_no_ties(entries, gaps) {
        return Ties::single(alloc);
    }
    let names = names_in(alloc, entries, gaps)?;
    Ties::new(alloc, names.as_slice())
}

/// The lesser of two numbers.
fn least(first: u8, second: u8) -> u8
    ensures { result ≡ min first second }
{
    if second < first { second } else { first }
}

impl PlacedGaps {
    /// No gap.
    pub(crate) fn none() -> PlacedGaps
        ensures { result ≡ no_gaps }
    {
        PlacedGaps {
            gaps: GapSet::empty(),
            name: u8::MAX,
            is_repeated: false,
        }
    }

    /// One more gap of a line that comes after these entries.
    pub(crate) fn with(self, entries: &[CostEntry], gap: u8) -> PlacedGaps
        requires { gap < MAX_GAPS }
        ensures { result ≡ with_gap entries.now self gap }
    {
        let is_named = self.gaps.has(gap) || entry_at(entries, gap).is_some();
        PlacedGaps {
            gaps: self.gaps.with(gap),
            name: least(gap, self.name),
            is_repeated: self.is_repeated || is_named,
        }
    }
}
