//! The runs that a search knows.
//!
//! A split needs a run that passes no gap of the node's `must`, and any such run will do: so before it asks, a
//! search looks for one among the runs that it knows.
ghost use Rattle.std.specs.Prelude.{◌≡◌, ◌↔◌, IfSome, IsTrue, Some, slice_get};
ghost use Rattle.oracle.specs.Facts.{Foreign};
ghost use Rattle.oracle.specs.Verdicts.{PassesNoneOf};

use crate::gaps::count_open;
use gap_sets::Region;
use oracle::ForeignRun;

/// Of the known runs that pass no gap which the node's sets must have, the place of one that opens the
/// fewest nodes.
pub(crate) fn known_run(known: &[ForeignRun], node: &Region) -> Option<usize>
    ensures { IfSome result (λ place. (run : Foreign) × (slice_get known.now place ≡ Some run) × PassesNoneOf node.now.must run) }
{
    let mut best = None;
    let mut fewest = usize::MAX;
    for (place, run) in known.iter().enumerate() {
        let count = count_open(run.passed(), node.never);
        if count < fewest && may_split(run, node) {
            best = Some(place);
            fewest = count;
        }
    }
    best
}

/// Whether the run passes no gap which the node's sets must have.
pub(crate) fn may_split(run: &ForeignRun, node: &Region) -> bool
    ensures { IsTrue result ↔ PassesNoneOf node.now.must run.now }
{
    !run.passed().meets(&node.must)
}
