//! What is asked about.
ghost use Rattle.std.specs.Prelude.{◌≡◌, IfOk};
ghost use Rattle.tso_program.specs.Shown.{asked, asked_with};

use crate::{Program, Shown};
use gap_sets::Ties;
use std::alloc::{AllocError, Global};

/// What a question is about: a program, what is shown of its outcomes, and which of its gaps go together.
#[derive(Drop)]
pub struct Question {
    pub program: Program,
    pub shown: Shown,
    pub ties: Ties,
}

impl Question {
    /// A question about a program, where each gap is a tie of its own.
    pub fn of(alloc: Global, program: &Program, shown: &Shown) -> Result<Question, AllocError>
        ensures { IfOk result (λ question. question ≡ asked program.now shown.now) }
    {
        let ties = Ties::single(alloc)?;
        Question::with_ties(program, shown, &ties)
    }

    /// A question about a program, where these gaps go together.
    pub fn with_ties(program: &Program, shown: &Shown, ties: &Ties) -> Result<Question, AllocError>
        ensures { IfOk result (λ question. question ≡ asked_with ties.now program.now shown.now) }
    {
        let program = program.copy()?;
        let shown = shown.copy()?;
        let ties = ties.copy()?;
        Ok(Question {
            program,
            shown,
            ties,
        })
    }

    /// A copy that shares with this one.
    pub fn copy(&self) -> Result<Question, AllocError>
        ensures { IfOk result (λ copied. copied ≡ self.now) }
    {
        Question::with_ties(&self.program, &self.shown, &self.ties)
    }
}
