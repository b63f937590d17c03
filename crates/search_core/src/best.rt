//! What the best set so far, or a ceiling, says of a set.
ghost use Rattle.std.specs.Prelude.{◌≡◌, ◌↔◌, false, Some, IfSome, IsTrue};
ghost use Rattle.gap_sets.specs.Order.{Better};
ghost use Rattle.oracle.specs.Facts.{Serving, IsServing};
ghost use Rattle.search_core.specs.Faults.{CutsMust, HasBound};

use crate::Reason;
use gap_sets::{Costs, GapSet};
use oracle::Served;

/// Whether the reason cuts the nodes whose sets must have these gaps.
pub(crate) fn cuts(costs: &Costs, best: &Option<Served>, reason: &Reason, must: &GapSet) -> bool
    ensures value { IsTrue result ↔ CutsMust costs.now best.now reason.now must.now }
    ensures bound { HasBound reason.now }
{
    match reason {
        Reason::Best => match best {
            Some(served) => !costs.better(must, &served.set()),
            None => false,
        },
        Reason::Ceiling(ceiling) => match ceiling.cost() {
            Some(cost) => cost < costs.total(must),
            None => false,
        },
    }
}

/// Whether the set is better than the best so far, or the first.
pub(crate) fn is_better(costs: &Costs, best: &Option<Served>, served: &Served) -> bool
    ensures yes { IsTrue result → IfSome best.now (λ old. Better costs.now served.now.gaps old.gaps) }
    ensures no { result ≡ false → (old : Serving) × (best.now ≡ Some old) × (¬ Better costs.now served.now.gaps old.gaps) }
    ensures serving { IsServing served.now }
{
    served.recall_facts();
    let set = served.set();
    match best {
        Some(best) => costs.better(&set, &best.set()),
        None => true,
    }
}
