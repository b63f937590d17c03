//! What threads do under the values that they were given so far, kept for the next time that they are given.
ghost use Rattle.std.specs.Prelude.{◌≡◌, ◌<◌, ◌++◌, ◌∷◌, [], ℕ, List, Some, None, IfOk, IfSome, IfNone, OnOk, OnErr, length, set, slice_get};
ghost use Rattle.tso_program.specs.declared.listing.Listing.{Listing};
ghost use Rattle.tso_machine.specs.declared.mode.Mode.{Mode};
ghost use Rattle.tso_machine.specs.Modes.{machine_of_mode};
ghost use Rattle.thread_traces.specs.ThreadTraces.{IsThreadTraceOf};
ghost use Rattle.thread_traces.specs.TraceTrees.{AreNodesOf, IsChildOf, IsFurther, IsGivenMore, IsNextPlace, IsPushed, IsTraceTree};

use crate::thread_trace::SharedTrace;
use crate::writes::is_value;
use std::alloc::{AllocError, Global};
use std::mem;

/// How many nodes there are at most.
const MOST_NODES: usize = 16_384;

/// At most so many children of a node are looked at for a value.
const MOST_STEPS: usize = 8;

/// The number of no node.
const NO_NODE: u32 = 0xffff_ffff;

/// What a thread does under the values of its parent and one more. The trace is here while the thread is neither at
/// the node nor below. The last three numbers say where to look first: the child that was found last, the child after
/// it, and the next child of the parent, round and round.
#[derive(Drop)]
pub struct TraceNode {
    pub trace: Option<SharedTrace>,
    pub value: u32,
    pub parent: Option<u32>,
    pub child: u32,
    pub next: u32,
    pub sibling: u32,
}

/// Where a thread is: at a node, if it is at one, or so many values beyond it.
#[derive(Clone, Copy)]
pub struct TracePlace {
    pub node: Option<u32>,
    pub beyond: u32,
}

/// What threads do under the values that they were given so far: a node for each list of values, and the place of
/// each thread. Once the tree has its most nodes, threads go beyond them.
#[derive(Drop)]
pub struct TraceTree {
    pub nodes: Vec<TraceNode>,
    pub places: Vec<TracePlace>,
}

impl TraceTree {
    /// So many threads, each at a node of its own under what it was given so far.
    pub fn new(alloc: Global, threads: usize) -> Result<TraceTree, AllocError>
        ensures { IfOk result (λ tree. (p : Listing) (mode : Mode) (given : ℕ → List ℕ) → IsTraceTree p mode given tree) }
    {
        let mut nodes = Vec::new(alloc);
        let mut places = Vec::new(alloc);
        for t in 0..threads {
            nodes.push(node_of(0, None, NO_NODE))?;
            places.push(first_place(t))?;
        }
        Ok(TraceTree { nodes, places })
    }

    /// Moves thread t to the node of one more value, and takes its trace from there, if it is known.
    pub fn take(&mut self, t: u8, value: u32) -> Option<SharedTrace>
        ensures found { IfSome result (λ trace. (p : Listing) (mode : Mode) (given : ℕ → List ℕ) → IsTraceTree p mode given self.old
            → IsThreadTraceOf p (machine_of_mode p mode) t (given t ++ value ∷ []) trace) }
        ensures moved { IfSome result (λ _. (p : Listing) (mode : Mode) (given next : ℕ → List ℕ) → IsTraceTree p mode given self.old
            → IsGivenMore given t value next → IsTraceTree p mode next self.new) }
        ensures unknown { IfNone result ((p : Listing) (mode : Mode) (given : ℕ → List ℕ) → IsTraceTree p mode given self.old → IsTraceTree p mode given self.new) }
    {
        let place = place_of(self.places.as_slice(), t)?;
        if place.beyond != 0 {
            return None;
        }
        let at = place.node?;
        let child = child_of(self.nodes.as_slice(), at, value)?;
        let trace = take_trace(&mut self.nodes, child)?;
        point_at(&mut self.nodes, at, child);
        put(&mut self.places, t, Some(child), 0);
        Some(trace)
    }

    /// Moves thread t to a new node of one more value, or further beyond its node.
    pub fn enter(&mut self, t: u8, value: u32) -> Result<(), AllocError>
        ensures ok { OnOk result ((p : Listing) (mode : Mode) (given next : ℕ → List ℕ) → IsTraceTree p mode given self.old
            → IsGivenMore given t value next → IsTraceTree p mode next self.new) }
        ensures err { OnErr result ((p : Listing) (mode : Mode) (given : ℕ → List ℕ) → IsTraceTree p mode given self.old → IsTraceTree p mode given self.new) }
    {
        if let Some(place) = place_of(self.places.as_slice(), t) {
            let next = next_place(&mut self.nodes, place, value)?;
            put(&mut self.places, t, next.node, next.beyond);
        }
        Ok(())
    }

    /// Moves thread t back to where it was before the last value, and keeps its trace.
    pub fn leave(&mut self, t: u8, trace: SharedTrace)
        ensures { (p : Listing) (mode : Mode) (given earlier : ℕ → List ℕ) (value : ℕ) → IsTraceTree p mode given self.old
            → IsGivenMore earlier t value given → IsThreadTraceOf p (machine_of_mode p mode) t (given t) trace → IsTraceTree p mode earlier self.new }
    {
        if let Some(place) = place_of(self.places.as_slice(), t) {
            if place.beyond != 0 {
                put(&mut self.places, t, place.node, place.beyond - 1);
            } else if let Some(n) = place.node {
                let parent = put_trace(&mut self.nodes, n, trace);
                put(&mut self.places, t, parent, 0);
            }
        }
    }
}

/// A node without a trace.
fn node_of(value: u32, parent: Option<u32>, sibling: u32) -> TraceNode
    ensures no_trace { result.trace ≡ None }
    ensures is_value { result.value ≡ value }
    ensures parent { result.parent ≡ parent }
{
    TraceNode {
        trace: None,
        value,
        parent,
        child: NO_NODE,
        next: NO_NODE,
        sibling,
    }
}

/// Thread t at the node of its number, if that can be a node's number.
fn first_place(t: usize) -> TracePlace
    ensures node { (n : ℕ) → result.node ≡ Some n → n ≡ t }
    ensures beyond { result.beyond ≡ 0 }
{
    TracePlace {
        node: u32::try_from(t).ok(),
        beyond: 0,
    }
}

/// The place of thread t.
fn place_of(places: &[TracePlace], t: u8) -> Option<TracePlace>
    ensures { result ≡ slice_get places.now t }
{
    places.get(t as usize).copied()
}

/// Puts thread t at a place, if there is such a thread.
fn put(places: &mut Vec<TracePlace>, t: u8, node: Option<u32>, beyond: u32)
    ensures { places.new.items ≡ set places.old.items t (record { node = node; beyond = beyond }) }
{
    let t = t as usize;
    if t < places.len() {
        places[t] = TracePlace { node, beyond };
    }
}

/// The node under the parent's values and one more, if it is found.
fn child_of(nodes: &[TraceNode], parent: u32, value: u32) -> Option<u32>
    ensures { IfSome result (IsChildOf nodes.now parent value) }
{
    let mut next = nodes.get(parent as usize)?.next;
    for _ in 0..MOST_STEPS {
        let node = nodes.get(next as usize)?;
        if node.value == value && is_value(node.parent, parent) {
            return Some(next);
        }
        next = node.sibling;
    }
    None
}

/// Takes a node's trace out of it.
fn take_trace(nodes: &mut Vec<TraceNode>, n: u32) -> Option<SharedTrace>
    ensures nodes { AreNodesOf nodes.old.items None nodes.new.items }
    ensures trace { IfSome result (λ trace. (x : TraceNode) → slice_get nodes.old.items n ≡ Some x → x.trace ≡ Some trace) }
{
    let n = n as usize;
    if n < nodes.len() {
        mem::replace(&mut nodes[n].trace, None)
    } else {
        None
    }
}

/// Puts a trace into a node. The node's parent.
fn put_trace(nodes: &mut Vec<TraceNode>, n: u32, trace: SharedTrace) -> Option<u32>
    ensures nodes { AreNodesOf nodes.old.items (Some (n, trace)) nodes.new.items }
    ensures parent { (x : TraceNode) → slice_get nodes.old.items n ≡ Some x → result ≡ x.parent }
{
    let n = n as usize;
    if n < nodes.len() {
        nodes[n].trace = Some(trace);
        nodes[n].parent
    } else {
        None
    }
}

/// Makes this child of a node the one that was found last.
fn point_at(nodes: &mut Vec<TraceNode>, parent: u32, child: u32)
    ensures { AreNodesOf nodes.old.items None nodes.new.items }
{
    let next = next_child(nodes.as_slice(), child, NO_NODE);
    let parent = parent as usize;
    if parent < nodes.len() {
        nodes[parent].child = child;
        nodes[parent].next = next;
    }
}

/// Makes this node the next child after another.
fn point_on(nodes: &mut Vec<TraceNode>, n: u32, sibling: u32)
    ensures { AreNodesOf nodes.old.items None nodes.new.items }
{
    let n = n as usize;
    if n < nodes.len() {
        nodes[n].sibling = sibling;
    }
}

/// Where a thread is after one more value that no node is found for: at a new node, or further beyond its own.
fn next_place(
    nodes: &mut Vec<TraceNode>,
    place: TracePlace,
    value: u32,
) -> Result<TracePlace, AllocError>
    ensures ok { IfOk result (λ next. IsNextPlace nodes.old.items place value nodes.new.items next) }
    ensures err { OnErr result (nodes.new.items ≡ nodes.old.items) }
{
    match place.node {
        Some(parent) if place.beyond == 0 && nodes.len() < MOST_NODES => {
            let own = nodes.len() as u32;
            push_child(nodes, parent, value, own)?;
            Ok(TracePlace {
                node: Some(own),
                beyond: 0,
            })
        }
        _ => Ok(further(place)),
    }
}

/// One value further beyond the node, or at none where these are too many to count.
fn further(place: TracePlace) -> TracePlace
    ensures { IsFurther place result }
{
    match place.beyond.checked_add(1) {
        Some(beyond) => TracePlace {
            node: place.node,
            beyond,
        },
        None => TracePlace {
            node: None,
            beyond: 0,
        },
    }
}

/// Pushes a node of one more value than the parent's: its number is the nodes' count.
fn push_child(
    nodes: &mut Vec<TraceNode>,
    parent: u32,
    value: u32,
    own: u32,
) -> Result<(), AllocError>
    ensures ok { OnOk result (IsPushed nodes.old.items parent value nodes.new.items) }
    ensures err { OnErr result (nodes.new.items ≡ nodes.old.items) }
{
    let last = last_child(nodes.as_slice(), parent);
    let sibling = next_child(nodes.as_slice(), last, own);
    nodes.push(node_of(value, Some(parent), sibling))?;
    point_at(nodes, parent, own);
    point_on(nodes, last, own);
    Ok(())
}

/// The child of a node that was found last.
fn last_child(nodes: &[TraceNode], parent: u32) -> u32 {
    match nodes.get(parent as usize) {
        Some(node) => node.child,
        None => NO_NODE,
    }
}

/// The next child after this one, or the node's own number where it is the only one.
fn next_child(nodes: &[TraceNode], last: u32, own: u32) -> u32 {
    match nodes.get(last as usize) {
        Some(node) => node.sibling,
        None => own,
    }
}
