//! What a solver says of a set, made anew for each question.
ghost use Rattle.std.specs.Prelude.{◌≡◌, false};

use cover_solver::{Oracle, SeqTable, SolveFault, Solver, Verdict};
use gap_sets::GapSet;
use hunt_calls::Inquiry;
use std::alloc::Global;

/// Asks a new solver each time, so that a script takes no memory for one which it does not ask.
#[derive(Drop)]
pub struct Verdicts<'a> {
    pub alloc: Global,
    pub table: &'a SeqTable,
}

impl<'a> Verdicts<'a> {
    pub fn new(alloc: Global, table: &'a SeqTable) -> Verdicts<'a>
        ensures { result.table ≡ table.entry }
    {
        Verdicts { alloc, table }
    }

    /// Asks this of the table's question.
    pub fn inquiry(&self) -> Inquiry<'_, Verdicts<'a>> {
        Inquiry {
            alloc: self.alloc,
            table: self.table,
            oracle: self,
        }
    }
}

impl Oracle for Verdicts<'_> {
    ghost question = { λ v. v.table.now.question };

    ghost may_lack_runs = { λ v. false };

    ghost may_be_asked = { λ v. Unit {0} };

    fn ask(&self, set: &GapSet) -> Result<Verdict, SolveFault> {
        let program = self.table.program();
        let solver = Solver::new(self.alloc, program, self.table)?;
        let verdict = solver.ask(set);
        drop(solver);
        verdict
    }
}
