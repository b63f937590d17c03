//! What a search has found.
use crate::backjumping_search::{BackjumpingSearch, Found, SearchEnd};
use crate::proposing_search::ProposingSearch;
use search_state::{KnownOutcomes, Node, NumberedOutcomes};
use std::alloc::{AllocError, Global};
use tso_machine::Mode;
use tso_program::Outcome;

/// The end of a search, the outcomes that it has found, and the nodes of its tree.
#[derive(Drop)]
pub(crate) struct Searched {
    pub(crate) end: SearchEnd,
    /// None where the outcomes were listed before.
    pub(crate) found: NumberedOutcomes,
    pub(crate) nodes: Vec<Node>,
}

impl Searched {
    /// A tree of no node, over no outcome.
    pub(crate) fn none(alloc: Global) -> Searched {
        Searched {
            end: SearchEnd::Covered,
            found: NumberedOutcomes::none(alloc),
            nodes: Vec::new(alloc),
        }
    }

    /// Adds what is found in the next part, unless a part before it has ended the question.
    pub(crate) fn add(&mut self, part: Searched) -> Result<(), AllocError> {
        let SearchEnd::Covered = &self.end else {
            return Ok(());
        };
        let Searched { end, found, nodes } = part;
        self.end = end;
        let numbers = self.found.add_all(found)?;
        self.nodes.append(&mut renumbered(nodes, &numbers))
    }
}

/// So many steps at a time a search is made.
pub(crate) const TURN_STEPS: u64 = 1 << 10;

/// Searches in one piece for so many turns at most. `None` if the search has not ended then.
pub(crate) fn searched_within<'a>(
    asked: &'a ProposingSearch<'a>,
    mode: Mode,
    listed: Option<&'a [Outcome]>,
    turns: u64,
) -> Result<Option<Searched>, AllocError> {
    let outcomes = KnownOutcomes::listed(asked.alloc, listed);
    let mut search = BackjumpingSearch::new(asked, mode, outcomes)?;
    let end = end_within(&mut search, turns);
    search.ended(end)
}

/// How a search ends that begins with nothing chosen. `None` if it has not ended after so many turns.
fn end_within(
    search: &mut BackjumpingSearch<'_>,
    turns: u64,
) -> Result<Option<SearchEnd>, AllocError> {
    let mut found = search.begin(&[])?;
    for _ in 0..turns {
        found = match search.go_on(found, TURN_STEPS)? {
            Found::Ended(end) => return Ok(Some(end)),
            other => other,
        };
    }
    drop(found);
    Ok(None)
}

/// The nodes, with these numbers in place of those of their outcomes. A number stays where there is none for it.
pub(crate) fn renumbered(mut nodes: Vec<Node>, numbers: &[u32]) -> Vec<Node> {
    for i in 0..nodes.len() {
        if let Node::Known { run } = nodes[i] {
            let run = numbers.get(run as usize).copied().unwrap_or(run);
            nodes[i] = Node::Known { run };
        }
    }
    nodes
}
