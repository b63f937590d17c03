//! The text of a certificate.

ghost use Rattle.std.specs.Prelude.{◌≡◌, ◌++◌, ◌∷◌, [], ◌<◌, map, OnOk, IfOk, IfSome, codes};
ghost use Rattle.std.specs.Arc.{arc_value};
ghost use Rattle.std.specs.Fmt.{decimal};
ghost use Rattle.gap_sets.specs.Gaps.{numbers_of_set};
ghost use Rattle.cert_words.specs.Lines.{texts_of, spaced, line};
ghost use Rattle.cert_forest.specs.Texts.{head_lines, cover_words, gap_words, labels_line, runs_lines, certificate_text};
ghost use Rattle.cert_pages.specs.NodeWords.{node_words, gap_node_words, early_node_words};
ghost use Rattle.cert_pages.specs.Drafts.{draft_text};

use crate::draft::Draft;
use crate::parts::pages_ahead;
use crate::words::{
    push_early_node, push_gap_node, push_head, push_len, push_node, push_run, push_set,
};
use cert_forest::{Certificate, CoverNode, CoverTree, GapNode, GapTree, Rule, Runs, Shows};
use gap_sets::GapSet;
use paged_text::Pages;
use std::alloc::{AllocError, Global};
use std::sync::Arc;
use std::thread::Threads;
use tso_machine::Label;

/// The words of a node.
pub(crate) fn write_node(out: &mut Draft, node: CoverNode<'_>) -> Result<(), AllocError>
    ensures { OnOk result (draft_text out.new ≡ draft_text out.old ++ texts_of spaced (node_words node.entry)) }
{
    push_node(&mut out.page, node)?;
    out.turn()
}

/// The words of a tree, node by node: it does not recurse.
fn write_cover(out: &mut Draft, tree: &CoverTree) -> Result<(), AllocError>
    ensures { OnOk result (draft_text out.new ≡ draft_text out.old ++ texts_of spaced (cover_words tree.now)) }
{
    let mut walk = tree.walk();
    while !walk.is_done() {
        write_node(out, walk.next_node())?;
    }
    Ok(())
}

fn write_gap_node(out: &mut Draft, node: GapNode) -> Result<(), AllocError>
    ensures { OnOk result (draft_text out.new ≡ draft_text out.old ++ texts_of spaced (gap_node_words node)) }
{
    push_gap_node(&mut out.page, node)?;
    out.turn()
}

/// The words of a tree in the first two versions, node by node: it does not recurse.
fn write_whole_gap(out: &mut Draft, tree: &GapTree) -> Result<(), AllocError>
    ensures { OnOk result (draft_text out.new ≡ draft_text out.old ++ texts_of spaced (gap_words Rule.Whole tree.now)) }
{
    let mut walk = tree.walk();
    while !walk.is_done() {
        write_gap_node(out, walk.next_node())?;
    }
    Ok(())
}

fn write_early_node(
    out: &mut Draft,
    inside: bool,
    runs: usize,
    node: GapNode,
) -> Result<(), AllocError>
    ensures { OnOk result (draft_text out.new ≡ draft_text out.old ++ texts_of spaced (early_node_words inside runs node)) }
{
    push_early_node(&mut out.page, inside, runs, node)?;
    out.turn()
}

/// The words of a tree in the fourth version, node by node: it does not recurse.
fn write_early_gap(out: &mut Draft, tree: &GapTree) -> Result<(), AllocError>
    ensures { OnOk result (draft_text out.new ≡ draft_text out.old ++ texts_of spaced (gap_words Rule.Early tree.now)) }
{
    let mut walk = tree.walk();
    let mut inside = false;
    while !walk.is_done() {
        let runs = walk.bound_len();
        let node = walk.next_node();
        write_early_node(out, inside, runs, node)?;
        inside = node.is_run();
    }
    Ok(())
}

/// The words of a tree.
fn write_gap(out: &mut Draft, rule: Rule, tree: &GapTree) -> Result<(), AllocError>
    ensures { OnOk result (draft_text out.new ≡ draft_text out.old ++ texts_of spaced (gap_words rule tree.now)) }
{
    match rule {
        Rule::Whole => write_whole_gap(out, tree),
        Rule::Early => write_early_gap(out, tree),
    }
}

fn write_run(out: &mut Draft, labels: &[Label]) -> Result<(), AllocError>
    ensures { OnOk result (draft_text out.new ≡ draft_text out.old ++ labels_line labels.now) }
{
    push_run(&mut out.page, labels)?;
    out.turn()
}

fn write_run_lines(out: &mut Draft, runs: &Runs) -> Result<(), AllocError>
    ensures { OnOk result (draft_text out.new ≡ draft_text out.old ++ texts_of labels_line runs.now) }
{
    for run in runs {
        write_run(out, run)?;
    }
    Ok(())
}

/// A space, and a number.
fn write_len(out: &mut Draft, number: usize) -> Result<(), AllocError>
    ensures { OnOk result (draft_text out.new ≡ draft_text out.old ++ spaced (decimal number)) }
{
    push_len(&mut out.page, number)?;
    out.turn()
}

/// Writes the lines of runs.
fn write_runs(out: &mut Draft, name: &[u8], runs: &Runs) -> Result<(), AllocError>
    ensures { OnOk result (draft_text out.new ≡ draft_text out.old ++ runs_lines name.now runs.now) }
{
    out.push(name)?;
    write_len(out, runs.len())?;
    out.push(b"\n")?;
    write_run_lines(out, runs)
}

/// The line of the set and that of its cost.
fn write_set(out: &mut Draft, set: GapSet, cost: u64) -> Result<(), AllocError>
    ensures { OnOk result (draft_text out.new
        ≡ draft_text out.old ++ (line (codes "set") (map decimal (numbers_of_set set)) ++ line (codes "cost") (decimal cost ∷ []))) }
{
    push_set(&mut out.page, set, cost)?;
    out.turn()
}

fn write_gap_line(out: &mut Draft, rule: Rule, tree: &GapTree) -> Result<(), AllocError>
    ensures { OnOk result (draft_text out.new ≡ draft_text out.old ++ line (codes "gaps") (gap_words rule tree.now)) }
{
    out.push(b"gaps")?;
    write_gap(out, rule, tree)?;
    out.push(b"\n")
}

/// The line that says what the text is, and that of what is shown, where the version has one.
fn write_head(out: &mut Draft, rule: Rule, shown: &Shows) -> Result<(), AllocError>
    ensures { OnOk result (draft_text out.new ≡ draft_text out.old ++ head_lines rule shown.now) }
{
    push_head(&mut out.page, rule, shown)?;
    out.turn()
}

/// The lines before that of the first tree. The runs are let go.
fn write_front(
    out: &mut Draft,
    rule: Rule,
    shown: &Shows,
    set: GapSet,
    cost: u64,
    seq_runs: Arc<Runs>,
) -> Result<(), AllocError>
    ensures { OnOk result (draft_text out.new
        ≡ draft_text out.old ++ (head_lines rule shown.now ++ (line (codes "set") (map decimal (numbers_of_set set)) ++ (line (codes "cost") (decimal cost ∷ []) ++ runs_lines (codes "seq") (arc_value seq_runs))))) }
{
    write_head(out, rule, shown)?;
    write_set(out, set, cost)?;
    write_runs(out, b"seq", &seq_runs)
}

/// Writes the line of a tree. The tree is let go.
fn write_cover_line(out: &mut Draft, name: &[u8], tree: CoverTree) -> Result<(), AllocError>
    ensures { OnOk result (draft_text out.new ≡ draft_text out.old ++ line name.now (cover_words tree)) }
{
    out.push(name)?;
    write_cover(out, &tree)?;
    out.push(b"\n")
}

/// Writes the words of a tree, in at most so many threads where it is long. The tree is let go.
fn write_shared_cover<R: Threads + Sync>(
    rt: &R,
    out: &mut Draft,
    threads: usize,
    tree: CoverTree,
) -> Result<(), AllocError>
    requires { 0 < threads }
    ensures { OnOk result (draft_text out.new ≡ draft_text out.old ++ texts_of spaced (cover_words tree)) }
{
    match pages_ahead(rt, out.alloc(), threads, &tree)? {
        Some(words) => out.append(words),
        None => write_cover(out, &tree),
    }
}

/// Writes the line of a tree, which threads write where it is long. The tree is let go.
fn write_shared_line<R: Threads + Sync>(
    rt: &R,
    out: &mut Draft,
    threads: usize,
    name: &[u8],
    tree: CoverTree,
) -> Result<(), AllocError>
    requires { 0 < threads }
    ensures { OnOk result (draft_text out.new ≡ draft_text out.old ++ line name.now (cover_words tree)) }
{
    out.push(name)?;
    write_shared_cover(rt, out, threads, tree)?;
    out.push(b"\n")
}

/// Writes the certificate in this thread.
fn write_alone(out: &mut Draft, certificate: Certificate) -> Result<(), AllocError>
    ensures { OnOk result (draft_text out.new ≡ draft_text out.old ++ certificate_text certificate) }
{
    let Certificate {
        rule,
        shown,
        set,
        cost,
        seq_runs,
        seq_tree,
        runs,
        fenced_tree,
        gap_tree,
    } = certificate;
    write_front(out, rule, &shown, set, cost, seq_runs)?;
    write_cover_line(out, b"tree", seq_tree)?;
    write_runs(out, b"runs", &runs)?;
    drop(runs);
    write_cover_line(out, b"fenced", fenced_tree)?;
    write_gap_line(out, rule, &gap_tree)
}

/// Writes the certificate. Threads write its long trees. Its runs and its trees are let go, each once it is written.
fn write_shared<R: Threads + Sync>(
    rt: &R,
    out: &mut Draft,
    threads: usize,
    certificate: Certificate,
) -> Result<(), AllocError>
    requires { 0 < threads }
    ensures { OnOk result (draft_text out.new ≡ draft_text out.old ++ certificate_text certificate) }
{
    let Certificate {
        rule,
        shown,
        set,
        cost,
        seq_runs,
        seq_tree,
        runs,
        fenced_tree,
        gap_tree,
    } = certificate;
    write_front(out, rule, &shown, set, cost, seq_runs)?;
    write_shared_line(rt, out, threads, b"tree", seq_tree)?;
    write_runs(out, b"runs", &runs)?;
    drop(runs);
    write_shared_line(rt, out, threads, b"fenced", fenced_tree)?;
    write_gap_line(out, rule, &gap_tree)
}

/// The certificate's text, beyond the limits of what is read too: `read_cert` reads the text of a certificate within
/// them. At most so many threads write it. Its runs and its trees are let go, each once it is written.
pub fn write_pages<R: Threads + Sync>(
    rt: &R,
    alloc: Global,
    threads: usize,
    certificate: Certificate,
) -> Result<Pages, AllocError>
    requires { 0 < threads }
    ensures { IfOk result (λ text. text ≡ certificate_text certificate) }
{
    let mut out = Draft::new(alloc);
    write_shared(rt, &mut out, threads, certificate)?;
    out.into_pages()
}

/// The certificate's text in one block. This thread alone writes it.
pub fn write_cert(alloc: Global, certificate: Certificate) -> Result<Vec<u8>, AllocError>
    ensures { IfOk result (λ text. text.items ≡ certificate_text certificate) }
{
    let mut out = Draft::new(alloc);
    write_alone(&mut out, certificate)?;
    out.into_pages()?.joined(alloc)
}
