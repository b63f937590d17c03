//! The cost file of gaps that likely go together, each tie at what its dearest gap costs.

ghost use Rattle.std.specs.Prelude.{◌≡◌, IfOk, map};
ghost use Rattle.std.specs.List.{range_with_len};
ghost use Rattle.gap_list.specs.TiedFiles.{at_dearest, cost_beside, dearest, IsTiedFile};

use crate::cost_lines::cost_file;
use crate::shared_lines::{SharedCode, likely_ties};
use gap_sets::{Costs, TiedCosts, Ties};
use std::alloc::{AllocError, Global};
use tso_program::Program;

/// What another gap costs, if the two go together, and otherwise nothing.
fn cost_beside(costs: &Costs, ties: &Ties, gap: u8, other: u8) -> u32
    ensures { result ≡ cost_beside costs.now ties.now gap other }
{
    if ties.name_of(other) == ties.name_of(gap) {
        costs.cost_of(other).unwrap_or(0)
    } else {
        0
    }
}

/// What the dearest gap of a gap's tie costs, of so many gaps.
fn dearest(gaps: u8, costs: &Costs, ties: &Ties, gap: u8) -> u32
    ensures { result ≡ dearest gaps costs.now ties.now gap }
{
    let mut most = 0;
    for other in 0..gaps {
        most = most.max(cost_beside(costs, ties, gap, other));
    }
    most
}

/// What each of so many gaps costs as the dearest of its tie.
fn dearest_costs(
    alloc: Global,
    gaps: u8,
    costs: &Costs,
    ties: &Ties,
) -> Result<Vec<u32>, AllocError>
    ensures { IfOk result (λ list. list.items ≡ map (dearest gaps costs.now ties.now) (range_with_len 0 gaps)) }
{
    (0..gaps)
        .map(|gap| dearest(gaps, costs, ties, gap))
        .collect(alloc)
}

/// The costs of so many gaps with these ties, each tie at what its dearest gap costs.
fn at_dearest(alloc: Global, gaps: u8, costs: &Costs, ties: Ties) -> Result<TiedCosts, AllocError>
    ensures { IfOk result (λ tied. tied ≡ at_dearest gaps costs.now ties) }
{
    let list = dearest_costs(alloc, gaps, costs, &ties)?;
    match Costs::new(alloc, &list) {
        Ok(costs) => Ok(TiedCosts { costs, ties }),
        Err(_) => Err(AllocError),
    }
}

/// The cost file of a program's gaps, of which those go together that likely are one line of the source, each tie at what its
/// dearest gap costs.
pub fn tied_file(
    alloc: Global,
    program: &Program,
    costs: &Costs,
    shared: SharedCode<'_>,
) -> Result<Vec<u8>, AllocError>
    ensures { IfOk result (λ file. IsTiedFile program.now costs.now file.items) }
{
    let TiedCosts { ties, .. } = likely_ties(alloc, program, costs, shared)?;
    let tied = at_dearest(alloc, program.gaps(), costs, ties)?;
    cost_file(alloc, program, &tied)
}
