//! Costs with or without a text of them.
ghost use Rattle.std.specs.Prelude.{◌≡◌, [], IfErr, IfOk, IsOkUnless, option_map, replicate};
ghost use Rattle.tso_program.specs.Listings.{gap_count};
ghost use Rattle.cost_text.specs.GivenCosts.{AreGiven, AreNotGiven};

use crate::fault::CostTextFault;
use crate::reader::read_costs;
use gap_sets::{Costs, TiedCosts};
use std::alloc::{AllocError, Global};
use tso_program::Program;

fn equal_list(alloc: Global, program: &Program) -> Result<Vec<u32>, AllocError>
    ensures { IfOk result (λ list. list.items ≡ replicate (gap_count program.now.threads) 1) }
{
    vec![in alloc; 1; program.gaps() as usize]
}

/// The costs where each gap costs 1, and is a tie of its own.
fn equal_costs(alloc: Global, program: &Program) -> Result<TiedCosts, CostTextFault>
    ensures costs { IfOk result (λ costs. costs.costs ≡ replicate (gap_count program.now.threads) 1) }
    ensures ties { IfOk result (λ costs. costs.ties ≡ []) }
    ensures err { IsOkUnless result CostTextFault.OutOfMemory }
{
    let list = equal_list(alloc, program)?;
    match Costs::new(alloc, &list) {
        Ok(costs) => Ok(TiedCosts::single(alloc, costs)?),
        Err(_) => Err(CostTextFault::OutOfMemory),
    }
}

/// The costs that a text gives a program's gaps, with their ties; 1 each without a text.
pub fn given_costs(
    alloc: Global,
    text: Option<&[u8]>,
    program: &Program,
) -> Result<TiedCosts, CostTextFault>
    ensures costs { IfOk result (AreGiven program.now (option_map (λ text. text.now) text.entry)) }
    ensures none { IfErr result (AreNotGiven program.now (option_map (λ text. text.now) text.entry)) }
{
    match text {
        Some(text) => read_costs(alloc, text, program),
        None => equal_costs(alloc, program),
    }
}
