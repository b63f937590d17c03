//! Rows of accesses by their numbers, their places among all accesses.
ghost use Rattle.std.specs.Prelude.{◌≡◌, ◌<◌, ◌↔◌, ℕ, Some, MatchOption, Contains, length, slice_get, ◌⊎◌, IsTrue};
ghost use Rattle.candidate_executions.specs.declared.event.Event.{Event};
ghost use Rattle.bit_rows.specs.Rows.{IsIn, RowHas, LeadsInto};
ghost use Rattle.bit_rows.specs.declared.row.TheConstants.{ROW_BITS};
ghost use Rattle.known_edges.specs.Rows.{IsRowOf, IsWriteAt, ReadsBut, IsAlike, IsAfter};
ghost use Rattle.tso_machine.specs.declared.mode.Mode.TheVariants.{Sequential};
ghost use Rattle.candidate_executions.specs.Consistency.{SameThread};

use crate::numbered_traces::Traces;
use bit_rows::{ROW_BITS, has, joined, lowest};
use candidate_executions::Event;
use program_sketches::{is_one_thread, is_same};
use tso_machine::Mode;

/// The reads that have the event as their source, but for one.
pub(crate) fn readers_of(
    sources: &[(Event, Event)],
    traces: &Traces,
    source: Event,
    except: Event,
) -> u32
    ensures { IsRowOf traces.now.events (ReadsBut sources.now source except) result }
{
    let mut row = 0;
    for chosen in sources {
        if is_same(chosen.1, source) && !is_same(chosen.0, except) {
            row = joined(row, traces.row_of(chosen.0));
        }
    }
    row
}

/// The row at the number that a row has, if it has one.
fn row_at(rows: &[u32], number: u32) -> u32
    requires { length rows.now ≡ ROW_BITS }
    ensures from { (d : ℕ) → IsIn result d → LeadsInto rows.now number d }
    ensures whole { (k : ℕ) → IsIn number k → (j : ℕ) × IsIn number j × ((d : ℕ) → RowHas rows.now j d → IsIn result d) }
{
    match lowest(number) {
        Some(d) => rows[d as usize],
        None => 0,
    }
}

/// The writes that are known to come after an event, which has the number of this row.
pub(crate) fn writes_after(traces: &Traces, later: &[u32], event: Event, number: u32) -> u32
    requires rows { length later.now ≡ ROW_BITS }
    requires alike { IsAlike traces.now.events later.now }
    requires number { IsRowOf traces.now.events (λ e. e ≡ event) number }
    ensures initial { (l : ℕ) → event ≡ Event.Initial l → IsRowOf traces.now.events (IsWriteAt traces.now.thread_traces l) result }
    ensures after { (t i : ℕ) → event ≡ Event.Access t i → (d : ℕ) → IsIn result d ↔ IsAfter traces.now.events later.now event d }
{
    match event {
        Event::Initial(location) => traces.writes_to(location),
        Event::Access(_, _) => row_at(later, number),
    }
}

/// The first place of an event.
pub(crate) fn place_of(events: &[Event], event: Event) -> Option<usize>
    ensures { MatchOption result (Contains events.now event → ⊥) (λ i. (i < length events.now) × (slice_get events.now i ≡ Some event)) }
{
    for (i, other) in events.iter().enumerate() {
        if is_same(*other, event) {
            return Some(i);
        }
    }
    None
}

/// The row, or none in sequential mode.
pub(crate) fn if_fenced(mode: Mode, row: u32) -> u32
    ensures { (k : ℕ) → IsIn result k ↔ ((mode ≡ Sequential → ⊥) × IsIn row k) }
{
    match mode {
        Mode::Sequential => 0,
        Mode::Fenced(_) => row,
    }
}

/// The row, or none where both are accesses of one thread.
pub(crate) fn if_far(source: Event, read: Event, row: u32) -> u32
    ensures { (k : ℕ) → IsIn result k ↔ ((SameThread source read → ⊥) × IsIn row k) }
{
    if is_one_thread(source, read) { 0 } else { row }
}

/// Whether the row at one of two numbers has the other.
pub fn has_either(rows: &[u32], d: u8, e: u8) -> bool
    requires rows { length rows.now ≡ ROW_BITS }
    requires first { d < ROW_BITS }
    requires second { e < ROW_BITS }
    ensures { IsTrue result ↔ (RowHas rows.now d e ⊎ RowHas rows.now e d) }
{
    has(rows[d as usize], e) || has(rows[e as usize], d)
}
