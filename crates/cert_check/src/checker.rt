//! The checker.
ghost use Rattle.std.specs.Prelude.{◌≡◌, ◌↔◌, ℕ, List, IsTrue, OnOk, IfOk, IfErr, IsOkUnless, All, map};
ghost use Rattle.gap_sets.specs.Gaps.{SetOfGaps};
ghost use Rattle.gap_sets.specs.Order.{total};
ghost use Rattle.gap_sets.specs.Regions.{all_sets};
ghost use Rattle.gap_sets.specs.Ties.{names_in};
ghost use Rattle.tso_program.specs.declared.listing.Listing.{Listing};
ghost use Rattle.tso_program.specs.declared.outcome.Outcome.{Outcome};
ghost use Rattle.tso_program.specs.declared.shown.Shown.{Shown};
ghost use Rattle.tso_program.specs.Shown.{asked_with};
ghost use Rattle.tso_program.specs.declared.question.Question.{Question};
ghost use Rattle.tso_program.specs.Fences.{gaps_in};
ghost use Rattle.tso_machine.specs.Machine.{SequentialMachine, StoreBufferMachine};
ghost use Rattle.tso_machine.specs.Modes.{machine_of_mode};
ghost use Rattle.tso_machine.specs.Outcomes.{AreGapsOf, Headline, IsTheAnswer};
ghost use Rattle.cover_judge.specs.CoverDefects.{FirstWrongCover};
ghost use Rattle.cover_judge.specs.Judged.{IfWrong};
ghost use Rattle.cover_judge.specs.Sketches.{empty_sketch};
ghost use Rattle.tree_laws.specs.CoverTrees.{IsValidCoverBy};
ghost use Rattle.tree_laws.specs.GapTrees.{IsValidGap};
ghost use Rattle.tree_laws.specs.Laws.{IsProved};
ghost use Rattle.cert_forest.specs.Shows.{shows_of};
ghost use Rattle.cert_forest.specs.Certificates as specs;
ghost use Rattle.cert_forest.specs.Rule.{TheVariants.Early};
ghost use Rattle.tree_laws.specs.Certificates.{AreSequentialRuns, IsRunOutside, HasRightSet, IsValidCertificate, IsValidCertificateOf};
ghost use Rattle.the_answer.specs.Answers.{the_answer, least_cost};
ghost use Rattle.cert_check.specs.Faults.{CheckFaultIs, IsFirstFault, HasHead, HasEachOutcome, HasForeignRuns, HasServingSet};
ghost use Rattle.cert_check.specs.Headlines.{HeadlineOfAllowed};
ghost use Rattle.cert_check.specs.Internal.Claims.{question_of};
ghost use Rattle.cert_check.specs.Internal.Replays.{HavePassed};

use crate::fault::RunsFault;
use crate::gap::{Bounds, judge_gap_tree};
use crate::runs::{first_outcome_listed, replay_all};
use cert_forest::{Certificate, CheckFault, CoverTree, Shows};
use cover_judge::{NodeFault, RowlessSketch, judge_cover};
use gap_sets::{Costs, GapSet, Region, TiedCosts, Ties};
use live_registers::without_dead_loads;
use std::alloc::{AllocError, Global};
use the_answer::the_headline_tells_the_answer;
use tree_laws::{Rule, a_valid_certificate_proves_the_headline};
use tso_machine::{Mode, Model};
use tso_program::{Outcome, Program, Shown};

/// What a certificate shows: a set of gaps is the answer, and this is its cost.
#[derive(Clone, Copy)]
pub struct Accepted {
    pub set: GapSet,
    pub cost: u64,
}

/// Judges a certificate for a program, what is shown of its outcomes, and the costs of its gaps, of which some may go
/// together.
///
/// Where it answers, the program with an MFENCE in each gap of the set has under x86-TSO exactly the source's
/// sequentially consistent outcomes, as far as they are shown; with an MFENCE in each gap of any better set
/// (cheaper, or as cheap and earlier in gap order) it leaves an outcome that no sequentially consistent run of
/// the source has. Sets have of each tie all gaps or none, and a tie costs once.
pub fn check(
    alloc: Global,
    program: &Program,
    shown: &Shown,
    costs: &TiedCosts,
    certificate: &Certificate,
) -> Result<Accepted, CheckFault>
    ensures headline { IfOk result (λ accepted. Headline (asked_with costs.now.ties program.now shown.now) costs.now.costs (names_in costs.now.ties accepted.set)) }
    ensures cost { IfOk result (λ accepted. accepted.cost ≡ total costs.now.costs (names_in costs.now.ties accepted.set)) }

    // There is always an answer, which a definition computes: the set is that one, at the least cost.
    ensures best { IfOk result (λ accepted. names_in costs.now.ties accepted.set ≡ the_answer (asked_with costs.now.ties program.now shown.now) costs.now.costs) }
    ensures least { IfOk result (λ accepted. accepted.cost ≡ least_cost (asked_with costs.now.ties program.now shown.now) costs.now.costs) }
    ensures answer { IfOk result (λ accepted. IsTheAnswer (asked_with costs.now.ties program.now shown.now) costs.now.costs (names_in costs.now.ties accepted.set)) }

    // The certificate's set is accepted. In the words of its gaps: it has of each tie all or none, and the headline holds of it among such sets.
    ensures set { IfOk result (λ accepted. accepted.set ≡ certificate.now.gaps) }
    ensures fenced { IfOk result (λ accepted. HeadlineOfAllowed (asked_with costs.now.ties program.now shown.now) costs.now.costs accepted.set) }

    // A valid certificate is accepted if memory is there, any other is refused by its first fault.
    ensures valid { OnOk result (IsValidCertificate (asked_with costs.now.ties program.now shown.now) costs.now.costs certificate.now) }
    ensures accepts { IsValidCertificate (asked_with costs.now.ties program.now shown.now) costs.now.costs certificate.now → IsOkUnless result CheckFault.OutOfMemory }
    ensures fault { IfErr result (CheckFaultIs (asked_with costs.now.ties program.now shown.now) costs.now.costs certificate.now) }
{
    let claim = Claim {
        alloc,
        program,
        shown,
        costs,
        certificate,
    };
    match claim.check_all() {
        Ok(()) => {
            certificate_proves_answer(program, &costs.costs);
            Ok(Accepted {
                set: certificate.set,
                cost: certificate.cost,
            })
        }
        Err(fault) => Err(fault),
    }
}

/// A valid certificate for a question about a program and the costs of its gaps proves the headline, which states the
/// answer. Calling it does nothing: its contract is for who makes a certificate that is proved to be valid.
pub fn certificate_proves_answer(program: &Program, costs: &Costs)
    ensures valid { (q : Question) (c : specs.Certificate) → q.program ≡ program.now → IsValidCertificate q costs.now c → IsProved q costs.now c }
    ensures told { (q : Question) (gaps : SetOfGaps) (cost : ℕ) → q.program ≡ program.now → Headline q costs.now gaps → cost ≡ total costs.now gaps
        → (gaps ≡ the_answer q costs.now) × (cost ≡ least_cost q costs.now) }
{
    program.recall_facts();
    costs.recall_facts();
    a_valid_certificate_proves_the_headline();
    the_headline_tells_the_answer();
}

/// What is judged: a certificate for a program, what is shown of its outcomes, and the costs of its gaps.
#[derive(Clone, Copy)]
struct Claim<'a> {
    alloc: Global,
    program: &'a Program,
    shown: &'a Shown,
    costs: &'a TiedCosts,
    certificate: &'a Certificate,
}

impl Claim<'_> {
    /// Looks for the first fault. A certificate of early trees is judged over the program without its dead loads.
    fn check_all(&self) -> Result<(), CheckFault>
        ensures valid { OnOk result (IsValidCertificate (question_of self.now) self.now.costs.now.costs self.now.certificate.now) }
        ensures fault { IfErr result (CheckFaultIs (question_of self.now) self.now.costs.now.costs self.now.certificate.now) }
    {
        self.check_head()?;
        let certificate = self.certificate;
        match certificate.rule {
            Rule::Whole => self.check_proof(),
            Rule::Early => self.check_without_dead_loads(),
        }
    }

    /// Faults 3 to 8 of the program without its dead loads.
    fn check_without_dead_loads(&self) -> Result<(), CheckFault>
        requires early { self.now.certificate.now.rule ≡ Early }
        requires head { HasHead (question_of self.now) self.now.costs.now.costs self.now.certificate.now }
        ensures valid { OnOk result (IsValidCertificate (question_of self.now) self.now.costs.now.costs self.now.certificate.now) }
        ensures fault { IfErr result (CheckFaultIs (question_of self.now) self.now.costs.now.costs self.now.certificate.now) }
    {
        let slim = without_dead_loads(self.alloc, self.program, self.shown)?;
        let claim = Claim {
            alloc: self.alloc,
            program: &slim,
            shown: self.shown,
            costs: self.costs,
            certificate: self.certificate,
        };
        claim.check_proof()
    }

    /// Faults 3 to 8, by the program as it is.
    fn check_proof(&self) -> Result<(), CheckFault>
        requires head { HasHead (question_of self.now) self.now.costs.now.costs self.now.certificate.now }
        ensures valid { OnOk result (IsValidCertificateOf (question_of self.now) self.now.costs.now.costs self.now.certificate.now) }
        ensures fault { IfErr result (IsFirstFault (question_of self.now) self.now.costs.now.costs self.now.certificate.now) }
    {
        let listed = self.sequential_list()?;
        let passed = self.foreign_runs(&listed)?;
        self.check_fenced(&listed)?;
        check_gaps(self.alloc, self.costs, self.certificate, &passed)
    }

    /// Faults 10, 1 and 2.
    fn check_head(&self) -> Result<(), CheckFault>
        ensures ok { OnOk result (HasHead (question_of self.now) self.now.costs.now.costs self.now.certificate.now) }
        ensures fault { IfErr result (CheckFaultIs (question_of self.now) self.now.costs.now.costs self.now.certificate.now) }
    {
        let certificate = self.certificate;
        if !says_so(&certificate.shown, self.shown) {
            return Err(CheckFault::Shown);
        }
        if !self.has_right_set() {
            return Err(CheckFault::Set);
        }
        if self.costs.costs.len() != self.program.gaps() as usize {
            return Err(CheckFault::Cost);
        }
        if self.costs.total(&certificate.set) != certificate.cost {
            return Err(CheckFault::Cost);
        }
        Ok(())
    }

    /// Whether the set is one of the program's gaps, all or none of each tie.
    fn has_right_set(&self) -> bool
        ensures { IsTrue result ↔ HasRightSet (question_of self.now) self.now.certificate.now.gaps }
    {
        let certificate = self.certificate;
        are_gaps_of(self.program, &certificate.set) && self.costs.ties.allow(&certificate.set)
    }

    /// Faults 3 and 4: what is shown of the outcomes of the sequential runs, which are all sequential ones.
    fn sequential_list(&self) -> Result<Vec<Outcome>, CheckFault>
        ensures replayed { IfOk result (λ listed. AreSequentialRuns (question_of self.now) self.now.certificate.now.seq_runs listed.items) }
        ensures sequential { IfOk result (λ listed. IsValidCoverBy self.now.certificate.now.rule (question_of self.now) SequentialMachine listed.items self.now.certificate.now.seq_tree (empty_sketch self.now.program.now)) }
        ensures fault { (costs : List ℕ) → HasHead (question_of self.now) costs self.now.certificate.now
            → IfErr result (IsFirstFault (question_of self.now) costs self.now.certificate.now) }
    {
        let Claim {
            alloc,
            program,
            shown,
            certificate,
            ..
        } = *self;
        let runs = &certificate.seq_runs;
        let listed = match replay_all(alloc, program, shown, Model::Sequential, runs) {
            Ok(replays) => replays.outcomes,
            Err(RunsFault::NoRun(number)) => return Err(CheckFault::SequentialRun(number)),
            Err(RunsFault::OutOfMemory) => return Err(CheckFault::OutOfMemory),
        };
        match self.judge_from_start(Mode::Sequential, &certificate.seq_tree, &listed) {
            Ok(()) => Ok(listed),
            Err(NodeFault::Wrong(path)) => Err(CheckFault::SequentialTree(path)),
            Err(NodeFault::OutOfMemory) => Err(CheckFault::OutOfMemory),
        }
    }

    /// Faults 5 and 6: the names that the other runs pass, whose outcomes are not in the list.
    fn foreign_runs(&self, listed: &[Outcome]) -> Result<Vec<GapSet>, CheckFault>
        ensures passed { IfOk result (λ passed. HavePassed (question_of self.now) self.now.certificate.now.runs passed.items) }
        ensures foreign { OnOk result (All (IsRunOutside (question_of self.now) listed.now) self.now.certificate.now.runs) }
        ensures fault { (costs : List ℕ) → HasEachOutcome (question_of self.now) costs self.now.certificate.now listed.now
            → IfErr result (IsFirstFault (question_of self.now) costs self.now.certificate.now) }
    {
        let Claim {
            alloc,
            program,
            shown,
            certificate,
            ..
        } = *self;
        let replays = match replay_all(alloc, program, shown, Model::Buffered, &certificate.runs) {
            Ok(replays) => replays,
            Err(RunsFault::NoRun(number)) => return Err(CheckFault::Run(number)),
            Err(RunsFault::OutOfMemory) => return Err(CheckFault::OutOfMemory),
        };
        let known = first_outcome_listed(alloc, &replays.outcomes, listed)?;
        match known {
            Some(number) => Err(CheckFault::NotForeign(number)),
            None => Ok(names_passed(alloc, &self.costs.ties, &replays.passed)?),
        }
    }

    /// Fault 7.
    fn check_fenced(&self, listed: &[Outcome]) -> Result<(), CheckFault>
        ensures fenced { OnOk result (IsValidCoverBy self.now.certificate.now.rule (question_of self.now) (StoreBufferMachine (gaps_in self.now.program.now self.now.certificate.now.gaps)) listed.now self.now.certificate.now.fenced_tree (empty_sketch self.now.program.now)) }
        ensures fault { (costs : List ℕ) → HasForeignRuns (question_of self.now) costs self.now.certificate.now listed.now
            → IfErr result (IsFirstFault (question_of self.now) costs self.now.certificate.now) }
    {
        let certificate = self.certificate;
        let mode = Mode::Fenced(certificate.set);
        match self.judge_from_start(mode, &certificate.fenced_tree, listed) {
            Ok(()) => Ok(()),
            Err(NodeFault::Wrong(path)) => Err(CheckFault::FencedTree(path)),
            Err(NodeFault::OutOfMemory) => Err(CheckFault::OutOfMemory),
        }
    }

    /// Judges a cover tree at the sketch with no choice, over these outcomes. It recurses as deep as the tree is.
    fn judge_from_start(
        &self,
        mode: Mode,
        tree: &CoverTree,
        outcomes: &[Outcome],
    ) -> Result<(), NodeFault>
        ensures valid { OnOk result (IsValidCoverBy self.now.certificate.now.rule (question_of self.now) (machine_of_mode self.now.program.now mode) outcomes.now tree.now (empty_sketch self.now.program.now)) }
        ensures wrong { IfErr result (IfWrong (FirstWrongCover self.now.certificate.now.rule (question_of self.now) (machine_of_mode self.now.program.now mode) outcomes.now tree.now (empty_sketch self.now.program.now))) }
    {
        let certificate = self.certificate;
        let mut sketch = RowlessSketch::new(self.alloc, self.program, mode)?;
        judge_cover(
            self.alloc,
            certificate.rule,
            tree,
            &mut sketch,
            self.shown,
            outcomes,
        )
    }
}

/// Whether a certificate says that this is shown.
fn says_so(shows: &Shows, shown: &Shown) -> bool
    ensures { IsTrue result ↔ (shows.now ≡ shows_of shown.now) }
{
    shows.same(&Shows::of(shown))
}

/// Whether the gaps are the program's.
fn are_gaps_of(program: &Program, gaps: &GapSet) -> bool
    ensures { IsTrue result ↔ AreGapsOf program.now gaps.now }
{
    program.all_gaps().holds_all(gaps)
}

/// The names of the gaps that runs pass.
fn names_passed(alloc: Global, ties: &Ties, passed: &[GapSet]) -> Result<Vec<GapSet>, AllocError>
    ensures { IfOk result (λ names. names.items ≡ map (names_in ties.now) passed.now) }
{
    let mut names = Vec::new(alloc);
    for gaps in passed {
        names.push(ties.names_in(gaps))?;
    }
    Ok(names)
}

/// Fault 8, by the names that the foreign runs pass.
fn check_gaps(
    alloc: Global,
    costs: &TiedCosts,
    certificate: &Certificate,
    passed: &[GapSet],
) -> Result<(), CheckFault>
    ensures least { (p : Listing) (shown : Shown) → HavePassed (asked_with costs.now.ties p shown) certificate.now.runs passed.now
        → OnOk result (IsValidGap (asked_with costs.now.ties p shown) costs.now.costs (names_in costs.now.ties certificate.now.gaps) certificate.now.runs certificate.now.gap_tree all_sets) }
    ensures fault { (p : Listing) (shown : Shown) (outcomes : List Outcome) → HavePassed (asked_with costs.now.ties p shown) certificate.now.runs passed.now
        → HasServingSet (asked_with costs.now.ties p shown) costs.now.costs certificate.now outcomes → IfErr result (IsFirstFault (asked_with costs.now.ties p shown) costs.now.costs certificate.now) }
{
    let bounds = Bounds {
        costs: &costs.costs,
        answer: costs.ties.names_in(&certificate.set),
        passed,
    };
    match judge_gap_tree(alloc, &certificate.gap_tree, &Region::all(), &bounds) {
        Ok(()) => Ok(()),
        Err(NodeFault::Wrong(path)) => Err(CheckFault::GapTree(path)),
        Err(NodeFault::OutOfMemory) => Err(CheckFault::OutOfMemory),
    }
}
