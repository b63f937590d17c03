//! The words of a tree, written part by part in threads.

ghost use Rattle.std.specs.Prelude.{◌≡◌, ◌∷◌, ◌++◌, [], ◌<◌, IfOk, IfSome, List, OnOk, Some};
ghost use Rattle.cert_forest.specs.Trees.{Cover};
ghost use Rattle.cert_pages.specs.Drafts.{draft_text};
ghost use Rattle.cert_pages.specs.Parts.{trees_text, after, IsPartWritten, AreWritten, LeadTo, WriteFrom};

use crate::draft::Draft;
use crate::writer::write_node;
use cert_forest::{CoverTree, Walk};
use paged_text::Pages;
use std::alloc::{AllocError, Global};
use std::thread::{self, Threads};

/// A tree of fewer nodes is written as soon by one thread.
const MANY_NODES: usize = 100_000;

/// A part has so many nodes, but the last.
const PART_NODES: usize = 32_768;

/// Some of a tree's nodes, in order, to be written by themselves.
#[derive(Drop)]
pub(crate) struct TreePart<'a> {
    /// A walk that comes to the part next.
    start: Walk<'a>,
    nodes: usize,
    /// Their words. `None` until they are written, and where there was no memory for that.
    text: Option<Pages>,
}

impl TreePart<'_> {
    /// Writes the part.
    fn write(&mut self, alloc: Global)
        ensures { IsPartWritten self.old self.new }
    {
        self.text = self.pages(alloc).ok();
    }

    /// The words of the part.
    fn pages(&self, alloc: Global) -> Result<Pages, AllocError>
        ensures { IfOk result (λ text. text ++ trees_text (after self.now.nodes self.now.start) ≡ trees_text self.now.start) }
    {
        let mut out = Draft::new(alloc);
        let mut walk = self.start.ahead();
        write_nodes(&mut out, &mut walk, self.nodes)?;
        out.into_pages()
    }

    /// Its words, if it is written.
    fn into_text(self) -> Result<Pages, AllocError>
        ensures { IfOk result (λ text. self.entry.text ≡ Some text) }
    {
        match self.text {
            Some(text) => Ok(text),
            None => Err(AllocError),
        }
    }
}

/// Writes the words of the next nodes of a walk, of so many or all.
fn write_nodes(out: &mut Draft, walk: &mut Walk<'_>, nodes: usize) -> Result<(), AllocError>
    ensures text { OnOk result (draft_text out.new ++ trees_text walk.new ≡ draft_text out.old ++ trees_text walk.old) }
    ensures walk { OnOk result (walk.new ≡ after nodes walk.old) }
{
    for _ in 0..nodes {
        if walk.is_done() {
            return Ok(());
        }
        write_node(out, walk.next_node())?;
    }
    Ok(())
}

/// Goes past the next nodes of a walk, past so many or all.
fn pass_nodes(walk: &mut Walk<'_>, nodes: usize)
    ensures { walk.new ≡ after nodes walk.old }
{
    for _ in 0..nodes {
        if walk.is_done() {
            return;
        }
        let _ = walk.next_node();
    }
}

/// The parts of a tree, none of them written.
fn parts_of<'a>(alloc: Global, tree: &'a CoverTree) -> Result<Vec<TreePart<'a>>, AllocError>
    ensures { IfOk result (λ parts. LeadTo (tree.now ∷ []) parts.items []) }
{
    let mut parts = Vec::new(alloc);
    let mut walk = tree.walk();
    while !walk.is_done() {
        let start = walk.ahead();
        pass_nodes(&mut walk, PART_NODES);
        parts.push(TreePart {
            start,
            nodes: PART_NODES,
            text: None,
        })?;
    }
    Ok(parts)
}

/// Writes each of the parts, in at most so many threads.
fn write_parts<R: Threads + Sync>(rt: &R, alloc: Global, threads: usize, parts: &mut [TreePart<'_>])
    requires { 0 < threads }
    ensures { AreWritten parts.old parts.new }
{
    thread::for_each_mut(
        rt,
        parts,
        threads,
        &|_, part|
            ensures { IsPartWritten part.entry.now part.exit.now }
        { part.write(alloc) },
    );
}

/// The words of parts that are written, in their order.
#[tactic(auto, using(crate::proofs::PartLaws::all_parts))]
fn joined(alloc: Global, parts: Vec<TreePart<'_>>) -> Result<Pages, AllocError>
    ensures { IfOk result (λ text. (ts : List Cover) → WriteFrom ts parts.entry.items [] → text ≡ trees_text ts) }
{
    let mut text = Pages::new(alloc);
    for part in parts {
        text.append(part.into_text()?)?;
    }
    Ok(text)
}

/// The words of a tree, where threads write it: it has many nodes, and there are two threads or more.
pub(crate) fn pages_ahead<R: Threads + Sync>(
    rt: &R,
    alloc: Global,
    threads: usize,
    tree: &CoverTree,
) -> Result<Option<Pages>, AllocError>
    requires { 0 < threads }
    ensures { IfOk result (λ ahead. IfSome ahead (λ pages. pages ≡ trees_text (tree.now ∷ []))) }
{
    if threads == 1 || tree.nodes().len() < MANY_NODES {
        return Ok(None);
    }
    let mut parts = parts_of(alloc, tree)?;
    write_parts(rt, alloc, threads, parts.as_mut_slice());
    Ok(Some(joined(alloc, parts)?))
}
