//! The nodes of trees as they lie in memory.
ghost use Rattle.std.specs.Prelude.{◌≡◌, ◌≤◌, ◌∷◌, [], ◌++◌, OnOk, length};
ghost use Rattle.std.specs.List.{remove_range};
ghost use Rattle.cert_trees.specs.Nodes.{cycle_nodes, spell};
ghost use Rattle.cert_trees.specs.GapNodes.{is_run};
ghost use Rattle.cert_trees.specs.Trees.{Cycle, Known};

use crate::tree::AccessId;
use candidate_executions::Kind;
use std::alloc::AllocError;
use std::mem::size_of;

/// How many numbers of runs have a node of their own. A greater one has two nodes.
pub const NEAR_RUNS: u64 = 1 << 32;

/// A piece of a cover tree. A node comes before its children, and these come in order.
#[derive(Clone, Copy, Debug, PartialEq, Eq)]
pub enum Node {
    /// The next read of a thread, and how many children follow.
    Value {
        thread: u8,
        count: u32,
    },
    /// A read, and how many children follow.
    Source {
        read: AccessId,
        count: u32,
    },
    /// Two writes. Two children follow.
    Order {
        first: AccessId,
        second: AccessId,
    },
    /// Three accesses of a cycle, before its others.
    Earlier(AccessId, AccessId, AccessId),
    /// A cycle without accesses.
    EmptyCycle {
        kind: Kind,
    },
    /// The last access of a cycle, after those of nodes `Earlier`.
    LastOne {
        kind: Kind,
        first: AccessId,
    },
    /// The last two accesses of a cycle, after those of nodes `Earlier`.
    LastTwo {
        kind: Kind,
        first: AccessId,
        second: AccessId,
    },
    /// The last three accesses of a cycle, after those of nodes `Earlier`.
    LastThree {
        kind: Kind,
        first: AccessId,
        second: AccessId,
        third: AccessId,
    },
    /// A sequential run. After `Far` it is that many times `NEAR_RUNS` further.
    Known {
        run: u32,
    },
    /// Before `Known`.
    Far {
        times: u32,
    },
}

const _: () = prove!(size_of::<Node>() == 8);

/// A node of a gap tree. A node comes before its children, and these come in order.
#[derive(Clone, Copy)]
pub enum GapNode {
    /// So many children follow. The foreign run with this number, from 0, passes no gap that the region's sets must have: there
    /// is a child for each gap that it passes and that the sets may have.
    Split { count: u32, run: u64 },
    /// A run of a bound, with this number from 0. The other runs of the bound follow, and then `Bound`.
    By { run: u64 },
    /// The foreign runs before it bound the region: what its sets must have, with the cheapest gap of each that they may have, is
    /// not better than the certificate's set.
    Bound,
}

const _: () = prove!(size_of::<GapNode>() == 16);

impl GapNode {
    /// Whether it is a run of a bound.
    pub fn is_run(self) -> bool
        ensures { result ≡ is_run self }
    {
        matches!(self, GapNode::By { .. })
    }
}

/// Puts the nodes of a run's number after the others.
pub fn push_known(nodes: &mut Vec<Node>, run: u64) -> Result<(), AllocError>
    ensures { OnOk result (nodes.new.items ≡ nodes.old.items ++ spell (Known run)) }
{
    let low = (run % NEAR_RUNS) as u32;
    if run >= NEAR_RUNS {
        let times = (run / NEAR_RUNS) as u32;
        nodes.push(Node::Far { times })?;
    }
    nodes.push(Node::Known { run: low })?;
    Ok(())
}

/// Puts the nodes of a cycle after the others.
pub fn push_cycle(nodes: &mut Vec<Node>, kind: Kind, events: &[AccessId]) -> Result<(), AllocError>
    ensures { OnOk result (nodes.new.items ≡ nodes.old.items ++ spell (Cycle kind events.now)) }
{
    let mut left = events;
    while left.len() > 3 {
        nodes.push(Node::Earlier(left[0], left[1], left[2]))?;
        left = &left[3..];
    }
    nodes.push(last_node(kind, left))?;
    Ok(())
}

/// The node of a cycle's last accesses.
fn last_node(kind: Kind, events: &[AccessId]) -> Node
    requires { length events.now ≤ 3 }
    ensures { cycle_nodes kind events.now ≡ result ∷ [] }
{
    match events {
        [] => Node::EmptyCycle { kind },
        [first] => Node::LastOne {
            kind,
            first: *first,
        },
        [first, second] => Node::LastTwo {
            kind,
            first: *first,
            second: *second,
        },
        _ => Node::LastThree {
            kind,
            first: events[0],
            second: events[1],
            third: events[2],
        },
    }
}

/// Takes out the nodes from one place up to another, and moves those after them down.
pub fn take_out(nodes: &mut Vec<Node>, from: usize, to: usize)
    requires order { from ≤ to }
    requires within { to ≤ length nodes.old.items }
    ensures { nodes.new.items ≡ remove_range nodes.old.items from to }
{
    let left = nodes.len() - (to - from);
    nodes.copy_within(to.., from);
    nodes.truncate(left);
}
