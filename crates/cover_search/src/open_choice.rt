//! What is left to be chosen in a sketch.
ghost use Rattle.std.specs.Prelude.{◌≡◌, ◌↔◌, IsTrue, false};
ghost use Rattle.tree_laws.specs.CoverTrees as trees;
ghost use Rattle.program_sketches.specs.Choices.{IsOrdered};
ghost use Rattle.exec_axioms.specs.Complete.{HasItsSource};
ghost use Rattle.cover_search.specs.OpenChoices.{NeedsSource, NeedsOrder};
ghost use Rattle.cover_search.specs.Accesses.{IsReadValue, IsWrittenValue};
ghost use Rattle.cover_search.specs.ChoicesLeft.{AreWritesInOrder};

use crate::accesses::{ReadValue, WrittenValue};
use cert_trees::AccessId;
use cover_judge::event_of;
use exec_axioms::{Event, Sketch};

/// Whether a read has no source.
pub(crate) fn needs_source(sketch: &Sketch, read: ReadValue) -> bool
    requires { IsReadValue sketch.now read }
    ensures needs { IsTrue result → NeedsSource sketch.now (trees.event_of read.read) }
    ensures has { result ≡ false → HasItsSource sketch.now (trees.event_of read.read) }
{
    sketch.source(event_of(read.read)).is_none()
}

/// Whether two writes are to one location and in no order.
pub(crate) fn needs_order(sketch: &Sketch, first: WrittenValue, second: WrittenValue) -> bool
    requires first { IsWrittenValue sketch.now first }
    requires second { IsWrittenValue sketch.now second }
    ensures needs { IsTrue result → NeedsOrder sketch.now (trees.event_of first.write) (trees.event_of second.write) }
    ensures has { result ≡ false → AreWritesInOrder sketch.now first second }
{
    if first.location != second.location {
        return false;
    }
    if is_same(first.write, second.write) {
        return false;
    }
    !are_in_order(sketch, event_of(first.write), event_of(second.write))
}

/// Whether two accesses are one.
fn is_same(a: AccessId, b: AccessId) -> bool
    ensures { IsTrue result ↔ (a ≡ b) }
{
    a == b
}

/// Whether two writes are in order, one way or the other.
fn are_in_order(sketch: &Sketch, first: Event, second: Event) -> bool
    ensures { IsTrue result ↔ IsOrdered sketch.now first second }
{
    sketch.before(first, second) || sketch.before(second, first)
}
