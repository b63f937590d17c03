//! What workers share without waiting for one another: a ceiling, and the runs that they were given.
ghost use Rattle.std.specs.Prelude.{◌≡◌, IfSome};
ghost use Rattle.gap_sets.specs.Gaps.{SetOfGaps};
ghost use Rattle.oracle.specs.Verdicts.{IsVerdictOf};
ghost use Rattle.search_core.specs.Ceilings.{IsAboveCeiling, IsCeilingOf};
ghost use Rattle.hunt_board.specs.Seats.{IsOf};
ghost use Rattle.fence_place.specs.Internal.Sharing.{CanSplit, HasShared};

use crate::gaps::count_open;
use crate::known::may_split;
use gap_sets::{GapSet, Region};
use hunt_board::{Hunt, HuntSeat, PostFault, ROW_CELLS};
use oracle::{ForeignRun, Served, Verdict};
use search_core::Ceiling;
use std::alloc::Global;
use tso_program::MAX_WORKERS;

/// The hunt's ceiling, where the set costs more.
pub(crate) fn ceiling_below(hunt: &Hunt, seat: &mut HuntSeat, set: &GapSet) -> Option<Ceiling>
    requires { IsOf hunt.now seat.old }
    ensures ceiling { IfSome result (IsCeilingOf hunt.now.question hunt.now.costs) }
    ensures below { IfSome result (IsAboveCeiling hunt.now.costs set.now) }
    ensures shared { HasShared hunt.now seat.old seat.new }
{
    let ceiling = hunt.ceiling(seat);
    match ceiling.cost() {
        Some(cost) if cost < hunt.costs().total(set) => Some(ceiling),
        _ => None,
    }
}

/// A posted run that splits a node, and how many nodes it opens.
#[derive(Clone, Copy)]
struct SplittingRun<'a> {
    run: &'a ForeignRun,
    opens: usize,
}

/// A copy of a posted run that splits the node, where there is one, and memory for it.
pub(crate) fn copy_of_posted(alloc: Global, hunt: &Hunt, node: &Region) -> Option<ForeignRun>
    ensures { IfSome result (CanSplit hunt.now.question node.now) }
{
    posted_run(hunt, node)?.run.copy(alloc).ok()
}

/// Of the posted runs that split the node, one that opens the fewest nodes.
fn posted_run<'a>(hunt: &'a Hunt, node: &Region) -> Option<SplittingRun<'a>>
    ensures { IfSome result (λ best. CanSplit hunt.now.question node.now best.run.now) }
{
    let mut best = None;
    for seat in 0..MAX_WORKERS {
        best = better_in_row(hunt, seat, node, best);
    }
    best
}

/// Of the posted runs in a seat's row that split the node, and one found before, one that opens the fewest nodes.
fn better_in_row<'a>(
    hunt: &'a Hunt,
    seat: u8,
    node: &Region,
    found: Option<SplittingRun<'a>>,
) -> Option<SplittingRun<'a>>
    requires { IfSome found (λ best. CanSplit hunt.now.question node.now best.run.now) }
    ensures { IfSome result (λ best. CanSplit hunt.now.question node.now best.run.now) }
{
    let mut best = found;
    for index in 0..ROW_CELLS {
        let Some(run) = hunt.look(seat, index) else {
            break;
        };
        let opens = count_open(run.passed(), node.never);
        if best.is_none_or(|best| opens < best.opens) && may_split(run, node) {
            best = Some(SplittingRun { run, opens });
        }
    }
    best
}

/// The others learn what the oracle said. A copy of a run that isn't posted is handed back.
pub(crate) fn share(
    alloc: Global,
    hunt: &Hunt,
    seat: &mut HuntSeat,
    verdict: &Verdict,
) -> Option<ForeignRun>
    requires of { IsOf hunt.now seat.old }
    requires verdict { (gaps : SetOfGaps) × IsVerdictOf hunt.now.question gaps verdict.now }
    ensures of { IfSome result (λ run. run.question ≡ hunt.now.question) }
    ensures shared { HasShared hunt.now seat.old seat.new }
{
    let run = match verdict {
        Verdict::Foreign(run) => run,
        Verdict::Serves(served) => {
            hunt.lower(seat, served);
            return None;
        }
    };
    let copy = run.copy(alloc).ok()?;
    match hunt.post(seat, copy) {
        Ok(_) => None,
        Err(PostFault::RowFull(copy) | PostFault::Refused(copy)) => Some(copy),
    }
}
