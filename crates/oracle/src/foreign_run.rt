//! Runs that leave an outcome which no sequential run has.
ghost use Rattle.std.specs.Prelude.{◌≡◌, IfOk, IfErr, IsOkUnless};
ghost use Rattle.tso_program.specs.declared.outcome.Outcome.{Outcome};
ghost use Rattle.gap_sets.specs.Ties.{names_in};
ghost use Rattle.tso_machine.specs.Machine.{StoreBufferMachine, no_gaps};
ghost use Rattle.tso_machine.specs.Modes.{ArePassed};
ghost use Rattle.tso_machine.specs.Outcomes.{IsShownRun, IsForeignRun};
ghost use Rattle.oracle.specs.Facts.{IsForeignValue};
ghost use Rattle.oracle.specs.ForeignFaults.{ForeignFaultIs, of_replay};

use crate::fault::ForeignFault;
use crate::table::SeqTable;
use gap_sets::GapSet;
use std::alloc::{AllocError, Global};
use std::marker;
use tso_machine::{Ended, Label, Model, ReplayFault, replay_shown};
use tso_program::{Outcome, Program, Question};

/// A run of a program under x86-TSO, with no gap fenced, of whose outcome something else is shown than
/// of that of any sequential run.
#[derive(Drop)]
pub struct ForeignRun {
    question: Question,
    labels: Vec<Label>,
    outcome: Outcome,
    passed: GapSet,
}

impl marker::Model for ForeignRun {
    ghost use Rattle.oracle.specs.Facts.{Foreign};

    ghost Value = { Foreign };

    ghost use Rattle.gap_sets.specs.contracts.gap_set.GapSet as gap_set;
    ghost use Rattle.std.specs.Coded.{codes};
    ghost use Rattle.tso_program.specs.Nodes.{tree_code};

    ghost coded = { Prim.hlevel (codes, gap_set.the_row.coded, tree_code) };

    ghost use Rattle.oracle.specs.Facts.{IsForeignValue};

    ghost view = { λ r. record { question = r.question; labels = r.labels.items; outcome = r.outcome; passed = r.passed } };

    ghost invariant = { λ r. IsForeignValue (record { question = r.question; labels = r.labels.items; outcome = r.outcome; passed = r.passed }) };
}

impl ForeignRun {
    /// The run of these labels, where they are a foreign run of the table's question.
    pub fn new(
        alloc: Global,
        table: &SeqTable,
        labels: &[Label],
    ) -> Result<ForeignRun, ForeignFault>
        ensures question { IfOk result (λ run. run.question ≡ table.now.question) }
        ensures labels { IfOk result (λ run. run.labels ≡ labels.now) }
        ensures foreign { IfOk result IsForeignValue }
        ensures fault { IfErr result (ForeignFaultIs table.now.question labels.now) }
        ensures exact { (o : Outcome) → IsForeignRun table.now.question labels.now o → IsOkUnless result ForeignFault.OutOfMemory }
    {
        let question = table.question();
        let Question { program, shown, .. } = question;
        match replay_shown(alloc, program, shown, Model::Buffered, labels) {
            Ok(ended) => {
                if table.has(&ended.outcome) {
                    return Err(ForeignFault::Sequential);
                }
                let labels = Vec::from_slice(alloc, labels)?;
                Ok(ForeignRun::of(question.copy()?, labels, ended))
            }
            Err(fault) => Err(replay_fault(fault)),
        }
    }

    /// The run with what its replay gave, as far as that is shown.
    pub fn of(question: Question, labels: Vec<Label>, ended: Ended) -> ForeignRun
        requires foreign { IsForeignRun question labels.items ended.outcome }
        requires passed { ArePassed question.program (StoreBufferMachine no_gaps) labels.items ended.passed }
        ensures question { result.question ≡ question }
        ensures labels { result.labels ≡ labels.items }
        ensures passed { result.passed ≡ names_in question.ties ended.passed }
        ensures foreign { IsForeignValue result }
    {
        let passed = question.ties.names_in(&ended.passed);
        ForeignRun {
            question,
            labels,
            outcome: ended.outcome,
            passed,
        }
    }

    /// The question.
    pub fn question(&self) -> &Question
        ensures value { result.now ≡ self.now.question }
        ensures foreign { IsForeignValue self.now }
    {
        &self.question
    }

    /// The program.
    pub fn program(&self) -> &Program
        ensures value { result.now ≡ self.now.question.program }
        ensures foreign { IsForeignValue self.now }
    {
        &self.question.program
    }

    /// For a proof alone: recalls what holds of every run.
    pub fn recall_facts(&self)
        ensures foreign { IsForeignValue self.now }
    {
        let _ = self.question();
    }

    /// The steps of the run.
    pub fn labels(&self) -> &[Label]
        ensures { result.now ≡ self.now.labels }
    {
        &self.labels
    }

    /// What is shown of what the run leaves.
    pub fn outcome(&self) -> &Outcome
        ensures { result.now ≡ self.now.outcome }
    {
        &self.outcome
    }

    /// The names of the ties of which the run passes a gap.
    pub fn passed(&self) -> GapSet
        ensures { result ≡ self.now.passed }
    {
        self.passed
    }

    /// An equal run.
    pub fn copy(&self, alloc: Global) -> Result<ForeignRun, AllocError>
        ensures { IfOk result (λ other. other ≡ self.now) }
    {
        Ok(ForeignRun {
            question: self.question.copy()?,
            labels: Vec::from_slice(alloc, &self.labels)?,
            outcome: self.outcome.copy(alloc)?,
            passed: self.passed,
        })
    }
}

/// The fault of labels whose replay has this one.
fn replay_fault(fault: ReplayFault) -> ForeignFault
    ensures { result ≡ of_replay fault }
{
    match fault {
        ReplayFault::OutOfMemory => ForeignFault::OutOfMemory,
        _ => ForeignFault::Replay(fault),
    }
}
