//! Trees that stand in a whole tree more than once.
//!
//! A whole tree decides sources and orders once each read has its value, so a tree that does not rest on a value can't take
//! the place of the node above. It stands below each other value of that node, too.
use crate::backjumping_search::{BackjumpingSearch, Found};
use crate::shapes::{Branch, Shapes};
use search_state::{ConflictSet, Decision, Node, Rule};
use std::alloc::AllocError;

/// The branches of a thread that come with the values of a node.
#[derive(Clone, Copy)]
pub(crate) struct Branches {
    thread: u8,
    /// The place of the branch of the child that is searched.
    child: usize,
    /// The place after the branches of all children.
    end: usize,
}

/// Nodes of a tree, by the places of the first and after the last.
#[derive(Clone, Copy)]
pub(crate) struct NodeRange {
    start: usize,
    end: usize,
}

/// The branches with the next child in place of the one that is searched.
pub(crate) fn next_branches(shapes: &Shapes, branches: Option<Branches>) -> Option<Branches> {
    let branches = branches?;
    Some(Branches {
        child: shapes.branch(branches.thread, branches.child).next,
        ..branches
    })
}

impl BackjumpingSearch<'_> {
    /// In a whole tree, the branches that come with the values of the node of a decision.
    pub(crate) fn branches_of(&self, decision: Decision) -> Option<Branches> {
        match (self.asked.rule, decision) {
            (Rule::Whole, Decision::Value(t)) => {
                let place = self.place_of(t);
                Some(Branches {
                    thread: t,
                    child: place.saturating_add(1),
                    end: self.asked.shapes.branch(t, place).next,
                })
            }
            _ => None,
        }
    }

    /// The branches that come with the values of the last node.
    fn last_branches(&self) -> Option<Branches> {
        self.frames.last()?.branches
    }

    /// The place of the branch of a thread's next read.
    fn place_of(&self, t: u8) -> usize {
        match self.last_branches() {
            Some(above) if above.thread == t => above.child,
            _ => 0,
        }
    }

    /// The branch of the child that is searched.
    fn child_of(&self, branches: Branches) -> Branch {
        self.asked.shapes.branch(branches.thread, branches.child)
    }

    /// What is found where the last child's tree, which rests on these choices, does not rest on the choice above it: it
    /// takes the place of the node, or stands in the children that are left, too. `None` where the children before rest on
    /// more, or those that are left are to be searched.
    pub(crate) fn without_choice(&mut self, own: ConflictSet) -> Result<Option<Found>, AllocError> {
        let Some(frame) = self.frames.last() else {
            return Ok(None);
        };
        let (root, start, taken) = (frame.root, frame.start, frame.taken);
        let Some(branches) = frame.branches else {
            self.lift(root, start);
            return Ok(Some(self.done(own)));
        };
        if let Some(Node::Known { .. }) = self.nodes.get(start) {
            self.below = None;
            self.lift(root, start);
            return Ok(Some(self.done(own)));
        }
        let Some(below) = self.below_end(start, branches) else {
            return Ok(None);
        };
        self.fill(branches, below)?;
        if taken > 1 {
            if let Some(frame) = self.frames.last_mut() {
                frame.taken = frame.choices.len();
            }
            return Ok(None);
        }
        self.below = Some(below);
        Ok(Some(self.done(own)))
    }

    /// In the last child's tree, what stands below each end of the thread, where that is the same.
    fn below_end(&self, start: usize, branches: Branches) -> Option<NodeRange> {
        if self.child_of(branches).values > 0 {
            return self.below;
        }
        let end = self.nodes.len();
        Some(NodeRange { start, end })
    }

    /// Puts the other children's branches after the nodes, with a copy of these nodes at each end of the thread.
    fn fill(&mut self, branches: Branches, below: NodeRange) -> Result<(), AllocError> {
        let thread = branches.thread;
        for place in self.child_of(branches).next..branches.end {
            let count = self.asked.shapes.branch(thread, place).values;
            if count > 0 {
                self.nodes.push(Node::Value { thread, count })?;
            } else {
                self.copy_nodes(below)?;
            }
        }
        Ok(())
    }

    /// Puts a copy of nodes after all.
    fn copy_nodes(&mut self, nodes: NodeRange) -> Result<(), AllocError> {
        let NodeRange { start, end } = nodes;
        if start <= end && end <= self.nodes.len() {
            self.nodes.extend_from_within(start..end)?;
        }
        Ok(())
    }
}
