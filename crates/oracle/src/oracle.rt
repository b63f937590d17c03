//! Who says of a set of gaps whether it serves.
ghost use Rattle.std.specs.Prelude.{◌≡◌, Bool, true, IfOk, IfErr};
ghost use Rattle.tso_program.specs.declared.question.Question.{Question};
ghost use Rattle.tso_machine.specs.Outcomes.{AreGapsOf};
ghost use Rattle.oracle.specs.Verdicts.{IsVerdictOf};

use crate::fault::SolveFault;
use crate::foreign_run::ForeignRun;
use crate::served::Served;
use gap_sets::GapSet;

/// What is said of a set of gaps.
#[derive(Drop)]
pub enum Verdict {
    /// A foreign run that passes no gap of the set: with the set fenced it is left.
    Foreign(ForeignRun),
    /// The set serves.
    Serves(Served),
}

/// Stands for one program and what is shown of its outcomes, and says of a set of its gaps whether it
/// serves.
pub trait Oracle: Sync {
    ghost question: { Self → Question };

    /// Whether it may answer `NoRun`.
    ghost may_lack_runs: { Self → Bool };

    /// What must hold of it to be asked. Of one that shares a search among threads: that they may share what starts them.
    ghost may_be_asked: { Self → Type 0 };

    /// Says that the set serves, or gives a foreign run that passes no gap of it.
    fn ask(&self, set: &GapSet) -> Result<Verdict, SolveFault>
        requires gaps { AreGapsOf (question self.now).program set.now }
        requires may { may_be_asked self.now }
        ensures verdict { IfOk result (IsVerdictOf (question self.now) set.now) }
        ensures fault { IfErr result (λ fault. fault ≡ SolveFault.NoRun → may_lack_runs self.now ≡ true) };
}
