//! What each gap costs, and which of two sets of gaps is better.
ghost use Rattle.std.specs.Prelude.{◌≡◌, ◌<◌, ◌≤◌, ◌*◌, ◌↔◌, IsTrue, None, Some, [], length, slice_get, IfOk, OnOk, IfSome, IsOkUnless};
ghost use Rattle.gap_sets.specs.CostLists.{IsCostList, CostLimitsAreTheRefusals, first_cost_fault, first_free, first_too_large};
ghost use Rattle.gap_sets.specs.Order.{total, Better, cost_of};
ghost use Rattle.gap_sets.specs.declared.costs.CostFault.{CostFault};
ghost use Rattle.gap_sets.specs.declared.costs.TheConstants.{MAX_COST};
ghost use Rattle.gap_sets.specs.declared.gap_set.TheConstants.{MAX_GAPS};

use crate::gap_set::{GapSet, MAX_GAPS};
use std::alloc::{AllocError, AllocFailed, Global};
use std::marker::Model;
use std::sync::Arc;
use thiserror::Error;

/// The most that a gap may cost.
pub const MAX_COST: u32 = 1_000_000;

/// Why a list of numbers is no list of costs.
#[derive(Clone, Copy, Debug, Error)]
pub enum CostFault {
    /// The gap of this number, from 0, costs nothing.
    #[error("gap number {0} costs nothing")]
    Zero(u8),
    /// The gap of this number, from 0, costs more than `MAX_COST`.
    #[error("gap number {0} costs more than 1000000")]
    TooLarge(u8),
    /// There are more costs than `MAX_GAPS`.
    #[error("there are more than 128 costs")]
    TooMany,
    /// The list could not be stored.
    #[error("out of memory")]
    OutOfMemory,
}

impl From<AllocError> for CostFault {
    ghost use Rattle.gap_sets.specs.declared.costs.CostFault.TheVariants.{OutOfMemory};

    ghost from_gives = { λ _ fault. fault ≡ OutOfMemory };

    fn from(_error: AllocError) -> CostFault {
        CostFault::OutOfMemory
    }
}

impl<T: Drop> From<AllocFailed<T>> for CostFault {
    ghost use Rattle.gap_sets.specs.declared.costs.CostFault.TheVariants.{OutOfMemory};

    ghost from_gives = { λ _ fault. fault ≡ OutOfMemory };

    fn from(_error: AllocFailed<T>) -> CostFault {
        CostFault::OutOfMemory
    }
}

/// What each gap costs, by the gap's number. The list never changes and is shared by all copies.
///
/// Only `new` and `copy` take memory.
#[derive(Drop)]
pub struct Costs {
    list: Arc<Vec<u32>>,
}

impl Model for Costs {
    ghost use Rattle.std.specs.Prelude.{List, ℕ};
    ghost use Rattle.std.specs.Arc.{arc_value};
    ghost use Rattle.gap_sets.specs.CostLists.{IsCostList};

    ghost Value = { List ℕ };

    ghost view = { λ costs. (arc_value costs.list).items };

    ghost invariant = { λ costs. IsCostList (arc_value costs.list).items };
}

impl Costs {
    /// The costs of the gaps 0, 1, .. in this order.
    ///
    /// It is refused where there are too many of them, else for the first gap of cost 0, else for the
    /// first gap whose cost is too large. Where none of this holds only memory can be wanting.
    pub fn new(alloc: Global, list: &[u32]) -> Result<Costs, CostFault>
        ensures value { IfOk result (λ costs. costs ≡ list.now) }
        ensures limits { OnOk result (IsCostList list.now) }
        ensures within { first_cost_fault list.now ≡ None → IsOkUnless result CostFault.OutOfMemory }
        ensures refused { (fault : CostFault)
            → first_cost_fault list.now ≡ Some fault → result ≡ Err fault }
    {
        match broken_limit(list) {
            Some(fault) => Err(fault),
            None => Ok(Costs {
                list: Arc::new(alloc, Vec::from_slice(alloc, list)?)?,
            }),
        }
    }

    /// How many gaps have a cost.
    pub fn len(&self) -> usize
        ensures value { result ≡ length self.now }
        ensures limits { IsCostList self.now }
    {
        self.list.len()
    }

    /// For a proof alone: recalls what holds of every list of costs.
    pub fn recall_facts(&self)
        ensures limits { IsCostList self.now }
    {
        let _ = self.len();
    }

    /// Whether no gap has a cost.
    pub fn is_empty(&self) -> bool
        ensures { IsTrue result ↔ (self.now ≡ []) }
    {
        self.list.is_empty()
    }

    /// The costs by gap number.
    pub fn as_slice(&self) -> &[u32]
        ensures value { result.now ≡ self.now }
        ensures limits { IsCostList self.now }
    {
        self.list.as_slice()
    }

    /// What the gap costs, if the list has it.
    pub fn cost_of(&self, gap: u8) -> Option<u32>
        ensures value { result ≡ slice_get self.now gap }
        ensures limits { IfSome result (λ cost. (1 ≤ cost) × (cost ≤ MAX_COST)) }
    {
        self.list.get(gap as usize).copied()
    }

    /// A copy of the costs. The list itself is shared.
    pub fn copy(&self) -> Result<Costs, AllocError>
        ensures { IfOk result (λ costs. costs ≡ self.now) }
    {
        Ok(Costs {
            list: Arc::try_clone(&self.list)?,
        })
    }

    /// Whether the two lists have the same costs for the same gaps.
    pub fn same(&self, other: &Costs) -> bool
        ensures { IsTrue result ↔ (self.now ≡ other.now) }
    {
        self.as_slice() == other.as_slice()
    }

    /// What the gaps of the set cost together. A gap past the list costs nothing.
    pub fn total(&self, set: &GapSet) -> u64
        ensures value { result ≡ total self.now set.now }
        ensures limit { result ≤ MAX_GAPS * MAX_COST }
    {
        let costs = self.as_slice();
        let mut sum = 0u64;
        for gap in set.iter() {
            sum += u64::from(cost_at(costs, gap));
        }
        sum
    }

    /// Whether the first set is cheaper, or equally cheap with the least gap of the difference in it.
    pub fn better(&self, first: &GapSet, second: &GapSet) -> bool
        ensures { IsTrue result ↔ Better self.now first.now second.now }
    {
        let cost = self.total(first);
        let other_cost = self.total(second);
        cost < other_cost || cost == other_cost && first.has_least_difference(second)
    }
}

/// What the gap costs by the list, 0 past its end.
fn cost_at(costs: &[u32], gap: u8) -> u32
    ensures { result ≡ cost_of costs.now gap }
{
    costs.get(gap as usize).copied().unwrap_or(0)
}

/// The first limit that a list of costs breaks.
fn broken_limit(list: &[u32]) -> Option<CostFault>
    ensures { result ≡ first_cost_fault list.now }
{
    if list.len() > MAX_GAPS as usize {
        return Some(CostFault::TooMany);
    }
    if let Some(gap) = first_free(list) {
        return Some(CostFault::Zero(gap as u8));
    }
    if let Some(gap) = first_too_large(list) {
        return Some(CostFault::TooLarge(gap as u8));
    }
    None
}

/// The first gap of cost 0.
fn first_free(list: &[u32]) -> Option<usize>
    ensures { result ≡ first_free list.now }
{
    list.iter().position(|cost| *cost == 0)
}

/// The first gap whose cost is too large.
fn first_too_large(list: &[u32]) -> Option<usize>
    ensures { result ≡ first_too_large list.now }
{
    list.iter().position(|cost| *cost > MAX_COST)
}

/// No refusal applies exactly where a list of numbers is one of costs within the limits.
pub fn limits_are_the_refusals()
    ensures { CostLimitsAreTheRefusals }
{}
