//! The certificate of a search that is done.
ghost use Rattle.std.specs.Prelude.{◌≡◌, ◌<◌, ◌≤◌, ◌+◌, ℕ, IfOk, OnOk, length};
ghost use Rattle.tso_program.specs.Listings.{gap_count};
ghost use Rattle.cert_forest.specs.Limits.{AreShownPlaces};
ghost use Rattle.cert_forest.specs.Shows.{shows_of};
ghost use Rattle.gap_sets.specs.Ties.{spread};
ghost use Rattle.fence_place.specs.Recorded.{AreSplitRuns, AreDistinct, IsRecorded};
ghost use Rattle.fence_place.specs.Proofs.{IsProof};
ghost use Rattle.fence_place.specs.Internal.Recording.{AreNumbersOf, ListsEvent, IsNumbered, PushesRecorded, PushesRecords};

use crate::gaps::count_open;
use cert_forest::{Certificate, GapNode, GapTree, Rule, Runs, Shows};
use oracle::SeqTable;
use search_core::{Finished, SettledEvent};
use std::alloc::{AllocError, Global};
use tso_program::Shown;

/// The certificate of the answer: the table's runs with their tree, the tree with the set's gaps fenced,
/// and the record as a gap tree, where a split node is a split and a cut or confirmed one a bound.
pub fn certify(
    alloc: Global,
    table: &SeqTable,
    finished: &Finished,
) -> Result<Certificate, AllocError>
    requires question { table.now.question ≡ finished.now.question }
    requires ties { length table.now.question.ties ≤ gap_count table.now.question.program.threads }
    ensures rule { IfOk result (λ certificate. certificate.rule ≡ Rule.Whole) }
    ensures set { IfOk result (λ certificate. certificate.gaps ≡ spread finished.now.question.ties finished.now.served.gaps) }
    ensures sequential { IfOk result (λ certificate. (certificate.seq_runs ≡ table.now.runs) × (certificate.seq_tree ≡ table.now.tree)) }
    ensures fenced { IfOk result (λ certificate. certificate.fenced_tree ≡ finished.now.served.tree) }
    ensures runs { IfOk result (λ certificate. AreSplitRuns finished.now.entries certificate.runs) }
    ensures once { IfOk result (λ certificate. AreDistinct certificate.runs) }
    ensures record { IfOk result (λ certificate. IsRecorded finished.now.entries certificate.runs certificate.gap_tree 0) }
    ensures proof { IfOk result (IsProof finished.now.question finished.now.costs) }
{
    let served = finished.served();
    let shown = &table.question().shown;
    table.recall_facts();
    served.recall_facts();
    names_have_places(shown);
    let shows = Shows::of(shown);
    let (runs, numbers) = listed_runs(alloc, finished)?;
    let gap_tree = gap_tree(alloc, finished, &numbers)?;
    let ties = &table.question().ties;
    ties.recall_facts();
    let set = ties.spread(&served.set());
    let seq_runs = table.shared_runs()?;
    // For the proof alone: there are no more runs than a number can count.
    let _ = runs.len();
    let _ = seq_runs.len();
    Ok(Certificate {
        rule: Rule::Whole,
        shown: shows,
        set,
        cost: finished.costs().total(&served.set()),
        seq_runs,
        seq_tree: table.tree().copy()?,
        runs,
        fenced_tree: served.tree().copy()?,
        gap_tree,
    })
}

/// The registers and locations that are shown are at places. Calling it does nothing.
fn names_have_places(shown: &Shown)
    ensures { AreShownPlaces (shows_of shown.now) }
{
    // For the proof alone: what holds of all names is known where their places are asked for.
    match shown {
        Shown::All => {}
        Shown::Only(names) => {
            let _ = names.places();
        }
        Shown::Truth(_) => {}
    }
}

/// The runs that split nodes, each of them once, and for each node a number: that of its run, where it was
/// split.
fn listed_runs(alloc: Global, finished: &Finished) -> Result<(Runs, Vec<usize>), AllocError>
    ensures numbers { IfOk result (λ found. AreNumbersOf finished.now.entries found.0 found.1.items) }
    ensures as_many { IfOk result (λ found. length found.1.items ≡ length finished.now.entries) }
    ensures runs { IfOk result (λ found. AreSplitRuns finished.now.entries found.0) }
    ensures once { IfOk result (λ found. AreDistinct found.0) }
{
    let mut runs = Runs::new(alloc);
    let mut numbers = Vec::new(alloc);
    while let Some(settled) = finished.settled(numbers.len()) {
        let number = run_number(&mut runs, settled.event)?;
        numbers.push(number)?;
    }
    Ok((runs, numbers))
}

/// The number of the run of a split, which is put after the others where none of them is equal to it. A
/// node that isn't split has any number.
fn run_number(runs: &mut Runs, event: SettledEvent<'_>) -> Result<usize, AllocError>
    ensures { IfOk result (λ number. ListsEvent event.entry number runs.old runs.new) }
{
    let SettledEvent::Split(run) = event else {
        return Ok(0);
    };
    if let Some(number) = runs.position(run.labels()) {
        return Ok(number);
    }
    let number = runs.len();
    runs.push(run.labels())?;
    Ok(number)
}

/// What became of the first node and of its descendants, with these numbers for runs.
fn gap_tree(alloc: Global, finished: &Finished, numbers: &[usize]) -> Result<GapTree, AllocError>
    requires as_many { length numbers.now ≡ length finished.now.entries }
    requires there { 0 < length numbers.now }
    ensures { IfOk result (λ tree. IsNumbered finished.now.entries numbers.now tree 0) }
{
    let mut nodes = Vec::new(alloc);
    push_tree(finished, numbers, 0, &mut nodes)?;
    GapTree::of_nodes(alloc, nodes)
}

/// Puts after the others the nodes of a tree that says what became of the node of this number and of its descendants. It
/// recurses as deep as a tree of gaps may be.
#[cycle(push_tree)]
fn push_tree(
    finished: &Finished,
    numbers: &[usize],
    number: usize,
    nodes: &mut Vec<GapNode>,
) -> Result<(), AllocError>
    requires as_many { length numbers.now ≡ length finished.now.entries }
    requires there { number < length numbers.now }
    ensures { OnOk result (PushesRecorded finished.now.entries numbers.now number nodes.old.items nodes.new.items) }
{
    finished.recall_facts();
    let Some(settled) = finished.settled(number) else {
        unreachable!()
    };
    let SettledEvent::Split(run) = settled.event else {
        nodes.push(GapNode::Bound)?;
        return Ok(());
    };
    let Some(first) = finished.first_child(number) else {
        unreachable!()
    };
    let count = count_open(run.passed(), settled.node.never);
    let children = count as u32;
    nodes.push(GapNode::Split {
        count: children,
        run: numbers[number] as u64,
    })?;
    push_trees(finished, numbers, first, count, nodes)
}

/// Puts the trees of so many nodes after the others, from the node with this number on.
#[cycle(push_tree)]
fn push_trees(
    finished: &Finished,
    numbers: &[usize],
    first: usize,
    count: usize,
    nodes: &mut Vec<GapNode>,
) -> Result<(), AllocError>
    requires as_many { length numbers.now ≡ length finished.now.entries }
    requires there { (i : ℕ) → i < count → first + i < length numbers.now }
    ensures { OnOk result (PushesRecords finished.now.entries numbers.now first count nodes.old.items nodes.new.items) }
{
    for i in 0..count {
        push_tree(finished, numbers, first + i, nodes)?;
    }
    Ok(())
}
