//! What searches, hunts and placers are given.
ghost use Rattle.std.specs.Prelude.{◌≡◌, IfOk, IsTrue, length};
ghost use Rattle.tso_machine.specs.Outcomes.{AreGapsOf};
ghost use Rattle.tso_program.specs.Listings.{gap_count};
ghost use Rattle.oracle.specs.Verdicts.{PassesNoneOf};

use crate::refusal::TextRefusal;
use gap_sets::{Costs, GapSet};
use oracle::{ForeignRun, SeqTable};
use std::alloc::Global;
use tso_program::Program;

/// A cost of 1 for each gap of the table's program.
pub fn equal_costs(alloc: Global, table: &SeqTable) -> Result<Costs, TextRefusal>
    ensures { IfOk result (λ costs. length costs ≡ gap_count table.now.question.program.threads) }
{
    let mut list = Vec::new(alloc);
    for _ in 0..table.program().gaps() {
        list.push(1)?;
    }
    Ok(Costs::new(alloc, &list)?)
}

/// The set, if each of its gaps is one of the program's.
pub fn set_in(program: &Program, set: GapSet) -> Result<GapSet, TextRefusal>
    ensures { IfOk result (AreGapsOf program.now) }
{
    if program.all_gaps().holds_all(&set) {
        Ok(set)
    } else {
        Err(TextRefusal::Gap)
    }
}

/// Whether the run passes no gap of the set.
pub fn passes_none(run: &ForeignRun, set: &GapSet) -> bool
    ensures { IsTrue result → PassesNoneOf set.now run.now }
{
    !run.passed().meets(set)
}
