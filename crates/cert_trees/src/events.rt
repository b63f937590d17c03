//! The accesses of a cycle, as its nodes have them.
ghost use Rattle.std.specs.Prelude.{◌≡◌, ◌∷◌, [], IfSome, drop, option_map, length, slice_get};
ghost use Rattle.std.specs.Iterator.{YieldsFirst, item_count};
ghost use Rattle.cert_trees.specs.Nodes.{cycle_end, events_of, gathered, goes_on, union_of};
ghost use Rattle.cert_trees.specs.Internal.Places.{gone_before};

use crate::node::Node;
use crate::tree::AccessId;
use candidate_executions::Kind;
use std::marker::Model;

/// Which access of a node.
#[derive(Clone, Copy)]
enum AccessPlace {
    First,
    Second,
    Third,
}

/// The accesses of a cycle that are still to come, in order.
#[derive(Drop)]
pub struct Events<'a> {
    /// The nodes from that of the next access on; those after the cycle may follow.
    left: &'a [Node],
    place: AccessPlace,
}

impl<'a> Model for Events<'a> {
    ghost use Rattle.std.specs.Prelude.{List, drop};
    ghost use Rattle.cert_trees.specs.declared.tree.AccessId.{AccessId};
    ghost use Rattle.cert_trees.specs.Nodes.{events_of};
    ghost use Rattle.cert_trees.specs.Internal.Places.{gone_before};

    ghost Value = { List AccessId };

    ghost view = { λ e. drop (gone_before e.place) (events_of e.left.now) };
}

impl<'a> Events<'a> {
    /// The accesses of the cycle that these nodes begin with.
    pub(crate) fn of(nodes: &'a [Node]) -> Events<'a>
        ensures { result ≡ events_of nodes.now }
    {
        Events {
            left: nodes,
            place: AccessPlace::First,
        }
    }

    /// How many are still to come.
    pub fn len(&self) -> usize
        ensures { result ≡ length self.now }
    {
        count_events(self.left).saturating_sub(gone(self.place))
    }
}

impl<'a> Iterator for Events<'a> {
    type Item = AccessId;

    ghost next_gives = { YieldsFirst (λ rest. rest) };

    ghost remaining = { item_count (λ rest. rest) };

    fn next(&mut self) -> Option<AccessId> {
        let (node, others) = self.left.split_first()?;
        let access = access_at(*node, self.place)?;
        *self = after(self.place, self.left, *node, others);
        Some(access)
    }
}

/// The accesses after that of the first node at this place.
fn after<'a>(place: AccessPlace, nodes: &'a [Node], node: Node, others: &'a [Node]) -> Events<'a>
    requires { nodes.now ≡ node ∷ others.now }
    ensures { IfSome (slice_get (gathered node []) (gone_before place)) (λ access. drop (gone_before place) (events_of nodes.now) ≡ access ∷ result) }
{
    match place {
        AccessPlace::First => Events {
            left: nodes,
            place: AccessPlace::Second,
        },
        AccessPlace::Second => Events {
            left: nodes,
            place: AccessPlace::Third,
        },
        AccessPlace::Third => Events {
            left: if is_earlier(node) { others } else { &[] },
            place: AccessPlace::First,
        },
    }
}

/// The access of a node at this place.
fn access_at(node: Node, place: AccessPlace) -> Option<AccessId>
    ensures { result ≡ slice_get (gathered node []) (gone_before place) }
{
    match node {
        Node::Earlier(first, second, third)
        | Node::LastThree {
            first,
            second,
            third,
            ..
        } => match place {
            AccessPlace::First => Some(first),
            AccessPlace::Second => Some(second),
            AccessPlace::Third => Some(third),
        },
        Node::LastTwo { first, second, .. } => match place {
            AccessPlace::First => Some(first),
            AccessPlace::Second => Some(second),
            AccessPlace::Third => None,
        },
        Node::LastOne { first, .. } => match place {
            AccessPlace::First => Some(first),
            _ => None,
        },
        _ => None,
    }
}

/// How many accesses come before one at this place.
fn gone(place: AccessPlace) -> usize
    ensures { result ≡ gone_before place }
{
    match place {
        AccessPlace::First => 0,
        AccessPlace::Second => 1,
        AccessPlace::Third => 2,
    }
}

/// Whether other nodes of a cycle follow this one.
fn is_earlier(node: Node) -> bool
    ensures { result ≡ goes_on node }
{
    matches!(node, Node::Earlier(..))
}

/// How many accesses the cycle has that these nodes begin with.
fn count_events(nodes: &[Node]) -> usize
    ensures { result ≡ length (events_of nodes.now) }
{
    let mut count = 0;
    let mut left = nodes;
    while let Some((node, others)) = left.split_first() {
        if !is_earlier(*node) {
            return count + own_count(*node);
        }
        count += 3;
        left = others;
    }
    count
}

/// How many accesses a node has.
fn own_count(node: Node) -> usize
    ensures { result ≡ length (gathered node []) }
{
    match node {
        Node::Earlier(..) | Node::LastThree { .. } => 3,
        Node::LastTwo { .. } => 2,
        Node::LastOne { .. } => 1,
        _ => 0,
    }
}

/// The union of the cycle that these nodes begin with, and the nodes after the cycle.
pub(crate) fn cycle_end(nodes: &[Node]) -> Option<(Kind, &[Node])>
    ensures { option_map (λ x. (x.0, x.1.now)) result ≡ cycle_end nodes.now }
{
    let mut left = nodes;
    while let Some((node, others)) = left.split_first() {
        if let Some(kind) = union_of(*node) {
            return Some((kind, others));
        }
        left = others;
    }
    None
}

/// The union of a cycle whose last node this is.
fn union_of(node: Node) -> Option<Kind>
    ensures { result ≡ union_of node }
{
    match node {
        Node::EmptyCycle { kind }
        | Node::LastOne { kind, .. }
        | Node::LastTwo { kind, .. }
        | Node::LastThree { kind, .. } => Some(kind),
        _ => None,
    }
}
