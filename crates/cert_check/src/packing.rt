//! The runs of a bound, as far as they are judged.
ghost use Rattle.std.specs.Prelude.{◌≡◌, ◌↔◌, ◌<◌, ◌∷◌, [], ℕ, List, IfSome, MatchOption};
ghost use Rattle.gap_sets.specs.Gaps.{SetOfGaps, numbers_of_set};
ghost use Rattle.gap_sets.specs.Order.{cost_of};
ghost use Rattle.gap_sets.specs.declared.gap_set.TheConstants.{MAX_GAPS};
ghost use Rattle.tso_program.specs.declared.question.Question.{Question};
ghost use Rattle.tso_machine.specs.declared.label.Label.{Label};
ghost use Rattle.tree_laws.specs.GapTrees.{IsBoundBy, IsSplitBy};
ghost use Rattle.tree_laws.specs.Packings.{IsCheapestOf};
ghost use Rattle.cert_check.specs.Internal.Packed.{IsBoundWith, IsCheaper, IsCheaperOf, IsPackedWith};
ghost use Rattle.cert_check.specs.Internal.Replays.{HavePassed};

use crate::gap::Bounds;
use crate::runs::passed_by;
use gap_sets::{Costs, GapSet, Region};

/// Runs of a bound that pass no gap that the region's sets must have, and no two of which pass a common gap that
/// they may have.
#[derive(Clone, Copy)]
pub(crate) struct Packing {
    /// What the region's sets must have, with the cheapest gap of each run.
    pub(crate) least: GapSet,
    /// The gaps of the runs.
    pub(crate) gaps: GapSet,
    /// Whether a run has no gap, and then no set of the region serves.
    pub(crate) has_none: bool,
}

impl Packing {
    /// No run.
    pub(crate) fn of_region(region: &Region) -> Packing
        ensures { (q : Question) (costs : List ℕ) (answer : SetOfGaps) (runs : List (List Label)) (numbers : List ℕ) →
            IsBoundBy q costs answer runs region.now numbers ↔ IsBoundWith q costs answer runs region.now result numbers }
    {
        Packing {
            least: region.must,
            gaps: GapSet::empty(),
            has_none: false,
        }
    }

    /// With one run more. `None` if it is not there, passes a gap that the sets must have, or has a gap in common with
    /// another run.
    pub(crate) fn with_run(self, run: u64, region: &Region, bounds: &Bounds) -> Option<Packing>
        ensures { (q : Question) (runs : List (List Label)) (left : List ℕ) → HavePassed q runs bounds.now.passed.now
            → MatchOption result (¬ IsBoundWith q bounds.now.costs.now bounds.now.answer runs region.now self (run ∷ left))
            (λ packing. IsBoundWith q bounds.now.costs.now bounds.now.answer runs region.now self (run ∷ left) ↔ IsBoundWith q bounds.now.costs.now bounds.now.answer runs region.now packing left) }
    {
        let Some(gaps) = run_gaps(run, region, bounds.passed) else {
            return None;
        };
        gaps.recall_facts();
        if gaps.meets(&self.gaps) {
            return None;
        }
        Some(self.with_gaps(gaps, bounds.costs))
    }

    /// With a run that has these gaps.
    fn with_gaps(self, gaps: GapSet, costs: &Costs) -> Packing
        ensures { IsPackedWith costs.now self (numbers_of_set gaps) result }
    {
        gaps.recall_facts();
        let all = self.gaps.joined(gaps);
        match cheapest_of(costs, gaps) {
            Some(gap) => Packing {
                least: self.least.with(gap),
                gaps: all,
                has_none: self.has_none,
            },
            None => Packing {
                least: self.least,
                gaps: all,
                has_none: true,
            },
        }
    }
}

/// The gaps that the run of this number passes and that the sets of the region may have, where it passes none that
/// they must have.
pub(crate) fn run_gaps(run: u64, region: &Region, passed: &[GapSet]) -> Option<GapSet>
    ensures { (q : Question) (runs : List (List Label)) → HavePassed q runs passed.now
        → MatchOption result ((gaps : List ℕ) → ¬ IsSplitBy q runs region.now run gaps) (λ gaps. IsSplitBy q runs region.now run (numbers_of_set gaps)) }
{
    let Some(passed) = passed_by(passed, run) else {
        return None;
    };
    if passed.meets(&region.must) {
        return None;
    }
    let gaps = passed.minus(region.never);
    gaps.recall_facts();
    Some(gaps)
}

/// The cheapest gap of a set, of equally cheap ones the least.
fn cheapest_of(costs: &Costs, gaps: GapSet) -> Option<u8>
    ensures cheapest { MatchOption result (numbers_of_set gaps ≡ []) (IsCheapestOf costs.now (numbers_of_set gaps)) }
    ensures below { IfSome result (λ gap. gap < MAX_GAPS) }
{
    let mut best = None;
    for gap in gaps.iter() {
        best = Some(cheaper_of(costs, best, gap));
    }
    best
}

/// Of a gap and another, if there is one, the cheaper, or the lesser if they cost the same.
fn cheaper_of(costs: &Costs, best: Option<u8>, gap: u8) -> u8
    requires best { IfSome best (λ best. best < MAX_GAPS) }
    requires gap { gap < MAX_GAPS }
    ensures best { IsCheaperOf costs.now best gap result }
    ensures below { result < MAX_GAPS }
{
    match best {
        Some(best) => cheaper(costs, best, gap),
        None => gap,
    }
}

/// The cheaper of two gaps, or the lesser if they cost the same.
fn cheaper(costs: &Costs, first: u8, second: u8) -> u8
    ensures { IsCheaper costs.now first second result }
{
    let cost = cost_at(costs, first);
    let other_cost = cost_at(costs, second);
    if other_cost < cost || other_cost == cost && second < first {
        second
    } else {
        first
    }
}

/// What the gap costs by the list, 0 past its end.
fn cost_at(costs: &Costs, gap: u8) -> u32
    ensures { result ≡ cost_of costs.now gap }
{
    costs.cost_of(gap).unwrap_or(0)
}
