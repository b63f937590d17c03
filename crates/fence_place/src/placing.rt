//! Placing fences.
ghost use Rattle.std.specs.Prelude.{◌≡◌, ◌≤◌, false, IfOk, IfErr, Err, length};
ghost use Rattle.tso_program.specs.Listings.{gap_count};
ghost use Rattle.tso_machine.specs.Outcomes.{Headline, IsTheAnswer};
ghost use Rattle.search_core.specs.Answers.{the_answer, least_cost};
ghost use Rattle.gap_sets.specs.Order.{total};
ghost use Rattle.tree_laws.specs.Certificates.{names_of};
ghost use Rattle.cert_check.specs.Headlines.{HeadlineOfAllowed};
ghost use Rattle.fence_place.specs.Placements.{IsPlacement};
ghost use Rattle.fence_place.specs.Proofs.{IsProof};
ghost use Rattle.fence_place.specs.Recorded.{AreDistinct};
ghost use Rattle.fence_place.specs.Faults.{AreTooFewOrMany, HasOtherLength, PlaceFaultIs};
ghost use Rattle.fence_place.specs.Internal.Searches.{IsSearchFor};

use crate::PlaceFault;
use crate::arguments::judge_arguments;
use crate::certificates::certify;
use crate::hunting::hunt;
use crate::retracing::retraced;
use crate::searching::search;
use cert_check::certificate_proves_answer;
use cert_forest::Certificate;
use gap_sets::Costs;
use oracle::{Oracle, SeqTable, SolveFault};
use search_core::{Finished, SearchTree};
use std::alloc::{AllocError, Global};
use std::sync::Wait;
use std::thread::Threads;

/// Who is asked: an oracle, and another one, which lacks no run, by which a search is made again.
#[derive(Drop)]
pub struct Oracles<'a, O, S> {
    pub first: &'a O,
    pub again: &'a S,
}

/// Finds the best set of gaps that serves, by asking an oracle, and answers a certificate of it, which the checker
/// accepts.
///
/// Where it answers, the program with an MFENCE in each gap of the certificate's set has under x86-TSO exactly the source's
/// sequentially consistent outcomes, as far as they are shown; with an MFENCE in each gap of any better set
/// (cheaper, or as cheap and earlier in gap order) it leaves an outcome that no sequentially consistent run of
/// the source has. Sets have of each tie of the table's question all gaps or none, and a tie costs once.
/// This holds for every oracle that keeps its law, and for any number of workers.
///
/// It hunts as [`crate::hunt_with`] does, by the first oracle. Where that lacks a run, or the record of the hunt doesn't
/// close, it searches again on the caller's thread, by the other one.
pub fn place<R: Threads + Wait + Sync, O: Oracle, S: Oracle>(
    rt: &R,
    alloc: Global,
    oracles: Oracles<'_, O, S>,
    table: &SeqTable,
    costs: &Costs,
    workers: u8,
) -> Result<Certificate, PlaceFault>
    requires question { O.question oracles.first.now ≡ table.now.question }
    requires may { O.may_be_asked oracles.first.now }
    requires again { S.question oracles.again.now ≡ table.now.question }
    requires again_may { S.may_be_asked oracles.again.now }
    requires again_has_runs { S.may_lack_runs oracles.again.now ≡ false }
    ensures headline { IfOk result (λ certificate. Headline table.now.question costs.now (names_of table.now.question certificate)) }
    ensures cost { IfOk result (λ certificate. certificate.cost ≡ total costs.now (names_of table.now.question certificate)) }

    // There is always an answer, which a definition computes: the set is that one, at the least cost.
    ensures best { IfOk result (λ certificate. names_of table.now.question certificate ≡ the_answer table.now.question costs.now) }
    ensures least { IfOk result (λ certificate. certificate.cost ≡ least_cost table.now.question costs.now) }
    ensures answer { IfOk result (λ certificate. IsTheAnswer table.now.question costs.now (names_of table.now.question certificate)) }

    // In the words of the gaps that are fenced: the set has of each tie all or none, and the headline holds of it among such sets.
    ensures fenced { IfOk result (λ certificate. HeadlineOfAllowed table.now.question costs.now certificate.gaps) }

    // The certificate proves it, and has each run once.
    ensures proof { IfOk result (IsProof table.now.question costs.now) }
    ensures once { IfOk result (λ certificate. AreDistinct certificate.runs) }

    // It refuses what can't be asked, and nothing else but for memory.
    ensures workers { AreTooFewOrMany workers → result ≡ Err PlaceFault.Workers }
    ensures costs { ¬ AreTooFewOrMany workers → HasOtherLength table.now.question costs.now → result ≡ Err PlaceFault.Costs }
    ensures fault { IfErr result (PlaceFaultIs table.now.question costs.now workers) }
{
    judge_arguments(table, costs, workers)?;
    let tree = SearchTree::new(alloc, table, costs, workers)?;
    let hunted = hunt(rt, alloc, oracles.first, tree);
    Ok(placement(alloc, oracles.again, table, costs, hunted)?)
}

/// The certificate of the answer, by what a hunt found or else by a search that is made again.
fn placement<S: Oracle>(
    alloc: Global,
    again: &S,
    table: &SeqTable,
    costs: &Costs,
    hunted: Result<Finished, PlaceFault>,
) -> Result<Certificate, AllocError>
    requires question { S.question again.now ≡ table.now.question }
    requires may { S.may_be_asked again.now }
    requires has_runs { S.may_lack_runs again.now ≡ false }
    requires one_each { length costs.now ≡ gap_count table.now.question.program.threads }
    requires ties { length table.now.question.ties ≤ gap_count table.now.question.program.threads }
    requires hunted { IfOk hunted (IsSearchFor table.now.question costs.now) }
    ensures { IfOk result (IsPlacement table.now.question costs.now) }
{
    let finished = searched(alloc, again, table, costs, hunted)?;
    let certificate = certify(alloc, table, &finished);
    drop(finished);
    let certificate = certificate?;
    // For the proof alone: the certificate is valid, so its set is the answer.
    certificate_proves_answer(table.program(), costs);
    Ok(certificate)
}

/// What a hunt found, retraced; or where it failed for another cause than memory the search that is made again by one seat
/// on the caller's thread, by an oracle that lacks no run.
fn searched<S: Oracle>(
    alloc: Global,
    again: &S,
    table: &SeqTable,
    costs: &Costs,
    hunted: Result<Finished, PlaceFault>,
) -> Result<Finished, AllocError>
    requires question { S.question again.now ≡ table.now.question }
    requires may { S.may_be_asked again.now }
    requires has_runs { S.may_lack_runs again.now ≡ false }
    requires one_each { length costs.now ≡ gap_count table.now.question.program.threads }
    requires hunted { IfOk hunted (IsSearchFor table.now.question costs.now) }
    ensures { IfOk result (IsSearchFor table.now.question costs.now) }
{
    match hunted {
        Ok(finished) => return Ok(retraced(alloc, table, costs, finished)),
        Err(PlaceFault::OutOfMemory) => return Err(AllocError),
        Err(_) => {}
    }
    match search(alloc, again, table, costs, Vec::new(alloc)) {
        Ok(finished) => Ok(finished),
        Err(SolveFault::OutOfMemory) => Err(AllocError),
        Err(SolveFault::NoRun) => unreachable!(),
    }
}
