//! The sequential outcomes of a program.
ghost use Rattle.std.specs.Prelude.{◌≡◌, ◌↔◌, IfOk, IsTrue};
ghost use Rattle.std.specs.Arc.{arc_value};
ghost use Rattle.tso_machine.specs.Outcomes.{IsSequentialOutcome};
ghost use Rattle.oracle.specs.Facts.{IsSequentialTable};

use cert_forest::{CoverTree, Runs};
use gap_sets::Ties;
use std::alloc::AllocError;
use std::marker::Model;
use std::sync::Arc;
use tso_program::{Outcome, Program, Question};

/// The sequential outcomes of a program, as far as they are shown, ascending and each of them once, with
/// a run of each and a cover tree that shows that there are no others.
#[derive(Drop)]
pub struct SeqTable {
    question: Question,
    outcomes: Arc<Vec<Outcome>>,
    runs: Arc<Runs>,
    tree: CoverTree,
}

impl Model for SeqTable {
    ghost use Rattle.oracle.specs.Facts.{Table};

    ghost Value = { Table };

    ghost use Rattle.tso_program.specs.contracts.shown.Names as names;
    ghost use Rattle.std.specs.Coded.{codes};
    ghost use Rattle.tso_program.specs.Nodes.{tree_code};
    ghost use Rattle.cert_forest.specs.CoverCodes.{coded_cover};

    ghost coded = { Prim.hlevel (codes, names.the_row.coded, coded_cover, tree_code) };

    ghost use Rattle.oracle.specs.Facts.{IsSequentialTable};
    ghost use Rattle.std.specs.Arc.{arc_value};

    ghost view = { λ t. record { question = t.question; outcomes = (arc_value t.outcomes).items; runs = arc_value t.runs; tree = t.tree } };

    ghost invariant = { λ t. IsSequentialTable (record { question = t.question; outcomes = (arc_value t.outcomes).items; runs = arc_value t.runs; tree = t.tree }) };
}

impl SeqTable {
    /// The table of a question's sequential outcomes, ascending, with a run of each and a tree that shows that there
    /// are no others.
    pub fn new(
        question: Question,
        outcomes: Arc<Vec<Outcome>>,
        runs: Arc<Runs>,
        tree: CoverTree,
    ) -> SeqTable
        requires { IsSequentialTable (record { question = question; outcomes = (arc_value outcomes).items; runs = arc_value runs; tree = tree }) }
        ensures question { result.question ≡ question }
        ensures outcomes { result.outcomes ≡ (arc_value outcomes).items }
        ensures runs { result.runs ≡ arc_value runs }
        ensures tree { result.tree ≡ tree }
    {
        SeqTable {
            question,
            outcomes,
            runs,
            tree,
        }
    }

    /// This table for the question in which these gaps go together.
    pub fn with_ties(self, ties: Ties) -> SeqTable
        ensures question { result.question ≡ record self.question { ties = ties } }
        ensures outcomes { result.outcomes ≡ self.outcomes }
        ensures runs { result.runs ≡ self.runs }
        ensures tree { result.tree ≡ self.tree }
    {
        let SeqTable {
            question,
            outcomes,
            runs,
            tree,
        } = self;
        let Question { program, shown, .. } = question;
        let question = Question {
            program,
            shown,
            ties,
        };
        SeqTable {
            question,
            outcomes,
            runs,
            tree,
        }
    }

    /// The question.
    pub fn question(&self) -> &Question
        ensures value { result.now ≡ self.now.question }
        ensures table { IsSequentialTable self.now }
    {
        &self.question
    }

    /// The program.
    pub fn program(&self) -> &Program
        ensures value { result.now ≡ self.now.question.program }
        ensures table { IsSequentialTable self.now }
    {
        &self.question.program
    }

    /// For a proof alone: recalls what holds of every table.
    pub fn recall_facts(&self)
        ensures table { IsSequentialTable self.now }
    {
        let _ = self.question();
    }

    /// The outcomes, ascending.
    pub fn outcomes(&self) -> &[Outcome]
        ensures { result.now ≡ self.now.outcomes }
    {
        &self.outcomes
    }

    /// The outcomes, ascending, shared.
    pub fn shared_outcomes(&self) -> Result<Arc<Vec<Outcome>>, AllocError>
        ensures { IfOk result (λ shared. (arc_value shared).items ≡ self.now.outcomes) }
    {
        Arc::try_clone(&self.outcomes)
    }

    /// A run of each outcome, in the order of the outcomes.
    pub fn runs(&self) -> &Runs
        ensures { result.now ≡ self.now.runs }
    {
        &self.runs
    }

    /// A run of each outcome, in the order of the outcomes, shared.
    pub fn shared_runs(&self) -> Result<Arc<Runs>, AllocError>
        ensures { IfOk result (λ shared. arc_value shared ≡ self.now.runs) }
    {
        Arc::try_clone(&self.runs)
    }

    /// A tree that shows that there are no other sequential outcomes. Its numbers are those of the
    /// outcomes.
    pub fn tree(&self) -> &CoverTree
        ensures { result.now ≡ self.now.tree }
    {
        &self.tree
    }

    /// Whether an outcome is sequential.
    pub(crate) fn has(&self, outcome: &Outcome) -> bool
        ensures { IsTrue result ↔ IsSequentialOutcome self.now.question outcome.now }
    {
        self.outcomes.binary_search(outcome).is_ok()
    }
}
