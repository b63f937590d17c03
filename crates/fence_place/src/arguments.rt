//! The arguments of a hunt and of a placement.
ghost use Rattle.std.specs.Prelude.{◌≡◌, ◌≤◌, Err, IfErr, OnOk, length};
ghost use Rattle.tso_program.specs.Listings.{gap_count};
ghost use Rattle.search_core.specs.States.{IsSeatCount};
ghost use Rattle.fence_place.specs.Faults.{AreTooFewOrMany, HasOtherLength, ArgumentFaultIs};

use crate::PlaceFault;
use gap_sets::Costs;
use oracle::SeqTable;
use tso_program::MAX_WORKERS;

/// Refuses a number of workers that can't be, a list of costs that hasn't one for each gap, and ties that reach past the gaps.
pub(crate) fn judge_arguments(
    table: &SeqTable,
    costs: &Costs,
    workers: u8,
) -> Result<(), PlaceFault>
    ensures count { OnOk result (IsSeatCount workers) }
    ensures one_each { OnOk result (length costs.now ≡ gap_count table.now.question.program.threads) }
    ensures ties { OnOk result (length table.now.question.ties ≤ gap_count table.now.question.program.threads) }
    ensures workers { AreTooFewOrMany workers → result ≡ Err PlaceFault.Workers }
    ensures costs { ¬ AreTooFewOrMany workers → HasOtherLength table.now.question costs.now → result ≡ Err PlaceFault.Costs }
    ensures fault { IfErr result (ArgumentFaultIs table.now.question costs.now workers) }
{
    if workers == 0 || workers > MAX_WORKERS {
        return Err(PlaceFault::Workers);
    }
    let gaps = table.program().gaps() as usize;
    if costs.len() != gaps {
        return Err(PlaceFault::Costs);
    }
    if table.question().ties.as_slice().len() > gaps {
        return Err(PlaceFault::Costs);
    }
    Ok(())
}
