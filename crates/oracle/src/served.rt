//! Sets of gaps that serve.
ghost use Rattle.std.specs.Prelude.{◌≡◌, IfOk};
ghost use Rattle.oracle.specs.Facts.{IsServing};

use cert_forest::CoverTree;
use gap_sets::GapSet;
use std::alloc::AllocError;
use std::marker::Model;
use tso_program::{Program, Question};

/// A set of names whose gaps serve, with a cover tree that shows it.
#[derive(Drop)]
pub struct Served {
    question: Question,
    set: GapSet,
    tree: CoverTree,
}

impl Model for Served {
    ghost use Rattle.oracle.specs.Facts.{Serving};

    ghost Value = { Serving };

    ghost use Rattle.gap_sets.specs.contracts.gap_set.GapSet as gap_set;
    ghost use Rattle.std.specs.Coded.{codes};
    ghost use Rattle.tso_program.specs.Nodes.{tree_code};
    ghost use Rattle.cert_forest.specs.CoverCodes.{coded_cover};

    ghost coded = { Prim.hlevel (codes, gap_set.the_row.coded, coded_cover, tree_code) };

    ghost use Rattle.oracle.specs.Facts.{IsServing};

    ghost view = { λ s. record { question = s.question; gaps = s.set; tree = s.tree } };

    ghost invariant = { λ s. IsServing (record { question = s.question; gaps = s.set; tree = s.tree }) };
}

impl Served {
    /// The set, which serves, with a tree that shows it.
    pub fn new(question: Question, set: GapSet, tree: CoverTree) -> Served
        requires { IsServing (record { question = question; gaps = set; tree = tree }) }
        ensures question { result.question ≡ question }
        ensures gaps { result.gaps ≡ set }
        ensures serving { IsServing result }
    {
        Served {
            question,
            set,
            tree,
        }
    }

    /// The question.
    pub fn question(&self) -> &Question
        ensures value { result.now ≡ self.now.question }
        ensures serving { IsServing self.now }
    {
        &self.question
    }

    /// The program.
    pub fn program(&self) -> &Program
        ensures value { result.now ≡ self.now.question.program }
        ensures serving { IsServing self.now }
    {
        &self.question.program
    }

    /// For a proof alone: recalls what holds of every set that serves.
    pub fn recall_facts(&self)
        ensures serving { IsServing self.now }
    {
        let _ = self.question();
    }

    /// The set.
    pub fn set(&self) -> GapSet
        ensures { result ≡ self.now.gaps }
    {
        self.set
    }

    /// A tree that shows that the set serves. Its numbers are those of the sequential outcomes,
    /// ascending.
    pub fn tree(&self) -> &CoverTree
        ensures { result.now ≡ self.now.tree }
    {
        &self.tree
    }

    /// An equal value, which shares the tree.
    pub fn copy(&self) -> Result<Served, AllocError>
        ensures { IfOk result (λ other. other ≡ self.now) }
    {
        Ok(Served {
            question: self.question.copy()?,
            set: self.set,
            tree: self.tree.copy()?,
        })
    }
}
