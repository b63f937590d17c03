//! The line of a cover tree.
use candidate_executions::Kind;
use cert_forest::{AccessId, CoverNode, Node};
use cert_pages::{push_access, push_cycle_head, push_node};
use std::alloc::AllocError;

/// A line with the words of the nodes of a cover tree.
pub(crate) fn push_cover(out: &mut Vec<u8>, name: &[u8], nodes: &[Node]) -> Result<(), AllocError> {
    out.extend_from_slice(name)?;
    let mut is_within_cycle = false;
    for (i, node) in nodes.iter().enumerate() {
        if is_cycle(*node) && !is_within_cycle {
            push_cycle_front(out, nodes.get(i..).unwrap_or(&[]))?;
        }
        push_piece(out, *node)?;
        is_within_cycle = matches!(node, Node::Earlier(..));
    }
    out.push(b'\n')?;
    Ok(())
}

fn is_cycle(node: Node) -> bool {
    matches!(
        node,
        Node::Earlier(..)
            | Node::EmptyCycle { .. }
            | Node::LastOne { .. }
            | Node::LastTwo { .. }
            | Node::LastThree { .. }
    )
}

/// The union of the cycle that these nodes begin with, and how many accesses it has.
fn push_cycle_front(out: &mut Vec<u8>, nodes: &[Node]) -> Result<(), AllocError> {
    let mut count: usize = 0;
    for node in nodes {
        let (kind, more) = match *node {
            Node::EmptyCycle { kind } => (kind, 0),
            Node::LastOne { kind, .. } => (kind, 1),
            Node::LastTwo { kind, .. } => (kind, 2),
            Node::LastThree { kind, .. } => (kind, 3),
            _ => {
                count = count.saturating_add(3);
                continue;
            }
        };
        return push_cycle_head(out, kind, count.saturating_add(more));
    }
    Ok(())
}

/// The words of a node, of a cycle those of its accesses.
fn push_piece(out: &mut Vec<u8>, node: Node) -> Result<(), AllocError> {
    match node {
        Node::Value { thread, count } => push_node(out, CoverNode::Value { thread, count }),
        Node::Source { read, count } => push_node(out, CoverNode::Source { read, count }),
        Node::Order { first, second } => push_node(out, CoverNode::Order { first, second }),
        Node::Known { run } => push_node(
            out,
            CoverNode::Known {
                run: u64::from(run),
            },
        ),
        Node::EmptyCycle { .. } | Node::Far { .. } => Ok(()),
        Node::LastOne { first, .. } => push_access(out, first),
        Node::LastTwo { first, second, .. } => push_accesses(out, &[first, second]),
        Node::Earlier(first, second, third)
        | Node::LastThree {
            first,
            second,
            third,
            ..
        } => push_accesses(out, &[first, second, third]),
    }
}

fn push_accesses(out: &mut Vec<u8>, accesses: &[AccessId]) -> Result<(), AllocError> {
    for access in accesses {
        push_access(out, *access)?;
    }
    Ok(())
}
