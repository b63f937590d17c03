//! Whom a script asks.
ghost use Rattle.std.specs.Prelude.{◌≡◌, IfOk};
ghost use Rattle.std.specs.Coded.{codes};
ghost use Rattle.tso_program.specs.contracts.shown.Names as names;
ghost use Rattle.tso_program.specs.Nodes.{tree_code};
ghost use Rattle.tso_machine.specs.Outcomes.{AreGapsOf};
ghost use Rattle.oracle.specs.Verdicts.{IsVerdictOf};

use crate::refusal::HuntRefusal;
use gap_sets::GapSet;
use oracle::{ForeignRun, Oracle, SeqTable, Served, Verdict};
use std::alloc::Global;
use text_calls::{gap_set_of, labels_from, parts_of, set_in};

/// The sequential outcomes of a question, and an oracle of it.
#[derive(Drop)]
pub struct Inquiry<'a, O: Oracle> {
    pub alloc: Global,
    pub table: &'a SeqTable,
    pub oracle: &'a O,
    ghost of_table: { O.question oracle.now ≡ table.now.question } by { Prim.hlevel (codes, names.the_row.coded, tree_code) },
}

impl<O: Oracle> Inquiry<'_, O> {
    /// What the oracle says of the set.
    pub fn verdict_on(&self, set: &GapSet) -> Result<Verdict, HuntRefusal>
        requires gaps { AreGapsOf self.now.table.now.question.program set.now }
        requires may { O.may_be_asked self.now.oracle.now }
        ensures { IfOk result (IsVerdictOf self.now.table.now.question set.now) }
    {
        Ok(self.oracle.ask(set)?)
    }

    /// That the set serves, where it does.
    pub fn served_on(&self, set: &GapSet) -> Result<Served, HuntRefusal>
        requires gaps { AreGapsOf self.now.table.now.question.program set.now }
        requires may { O.may_be_asked self.now.oracle.now }
        ensures question { IfOk result (λ served. served.question ≡ self.now.table.now.question) }
        ensures gaps { IfOk result (λ served. served.gaps ≡ set.now) }
    {
        match self.verdict_on(set)? {
            Verdict::Serves(served) => Ok(served),
            Verdict::Foreign(run) => {
                drop(run);
                Err(HuntRefusal::Call)
            }
        }
    }

    /// The set of these gaps, where it serves.
    pub fn served_by(&self, gaps: &[u8]) -> Result<Served, HuntRefusal>
        requires { O.may_be_asked self.now.oracle.now }
        ensures { IfOk result (λ served. served.question ≡ self.now.table.now.question) }
    {
        let set = set_in(self.table.program(), gap_set_of(self.alloc, gaps)?)?;
        self.served_on(&set)
    }

    /// The run of the labels that words spell, from the word with this index on.
    pub fn run_of(&self, words: &[&[u8]], index: usize) -> Result<ForeignRun, HuntRefusal>
        ensures { IfOk result (λ run. run.question ≡ self.now.table.now.question) }
    {
        let labels = labels_from(self.alloc, words, index)?;
        Ok(ForeignRun::new(self.alloc, self.table, labels.as_slice())?)
    }

    /// The run of the labels of a word, with a comma between each two of them.
    pub fn run_by(&self, labels: &[u8]) -> Result<ForeignRun, HuntRefusal>
        ensures { IfOk result (λ run. run.question ≡ self.now.table.now.question) }
    {
        let words = parts_of(self.alloc, labels, b',')?;
        self.run_of(words.as_slice(), 0)
    }
}
