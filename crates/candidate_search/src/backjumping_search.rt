//! The search for a cover tree over a list of outcomes. Where it comes to a new outcome, an open list takes it. A new
//! outcome that the list does not take ends the search.
use crate::filling::{Branches, NodeRange, next_branches};
use crate::made_run::shown_run;
use crate::proposing_search::ProposingSearch;
use crate::searched::Searched;
use candidate_executions::Kind;
use run_maker::MadeRun;
use search_state::{
    AccessId, ConflictSet, Conflicts, Decision, EventGraph, GraphChoice, KnownEnds, KnownOutcomes,
    Mark, Node, NumberedOutcomes, Rule, Trail, choices_of, is_in, known_truth, next_decision,
    push_cycle, push_known, reached_from, read_of_nobody, round_through, take_out,
};
use std::alloc::AllocError;
use tso_machine::Mode;
use tso_program::{Formula, Outcome, Shown};

/// How many choices a search makes one after another at most: no tree that is judged is deeper.
const MOST_CHOICES: usize = 590;

/// A node of the tree whose children are searched.
#[derive(Drop)]
pub(crate) struct Frame {
    pub(crate) choices: Vec<GraphChoice>,
    /// How many choices are taken.
    pub(crate) taken: usize,
    /// The place of its node.
    pub(crate) root: usize,
    /// The place of the child that is searched.
    pub(crate) start: usize,
    /// In a whole tree, the branches that come with the values of the node.
    pub(crate) branches: Option<Branches>,
    /// What the children rest on so far.
    conflicts: ConflictSet,
}

/// How a search ends.
#[derive(Drop)]
pub(crate) enum SearchEnd {
    /// The nodes are a tree.
    Covered,
    /// This run has an outcome that is not in the list.
    New(MadeRun),
    /// It has no tree to go on with.
    Stuck,
}

/// What is found where a search stands.
#[derive(Drop)]
pub(crate) enum Found {
    /// A node, whose next child is to be searched.
    Node,
    /// A tree, which rests on these choices.
    Tree(ConflictSet),
    Ended(SearchEnd),
}

/// A search on its way: a graph with the choices that are made, the outcomes that are known, and the nodes of the tree so
/// far.
#[derive(Drop)]
pub(crate) struct BackjumpingSearch<'a> {
    pub(crate) asked: &'a ProposingSearch<'a>,
    graph: EventGraph,
    trail: Trail,
    ends: KnownEnds,
    pub(crate) frames: Vec<Frame>,
    /// For each of these the graph at its node.
    marks: Vec<Mark>,
    pub(crate) outcomes: KnownOutcomes<'a>,
    pub(crate) nodes: Vec<Node>,
    /// In a whole tree, what stands below each end of the thread whose node was the last to be done, where that is the same.
    pub(crate) below: Option<NodeRange>,
    /// How many nodes are above the tree that is searched for.
    above: usize,
}

impl<'a> BackjumpingSearch<'a> {
    /// A search in which nothing is chosen.
    pub(crate) fn new(
        asked: &'a ProposingSearch<'a>,
        mode: Mode,
        outcomes: KnownOutcomes<'a>,
    ) -> Result<BackjumpingSearch<'a>, AllocError> {
        let alloc = asked.alloc;
        let graph = EventGraph::new(alloc, asked.program, mode)?;
        Ok(BackjumpingSearch {
            asked,
            trail: Trail::new(&graph),
            graph,
            ends: KnownEnds::none(alloc),
            frames: Vec::new(alloc),
            marks: Vec::new(alloc),
            outcomes,
            nodes: Vec::new(alloc),
            below: None,
            above: 0,
        })
    }

    /// Makes choices, given by their places at the nodes above, and answers what is found after them. The tree that is
    /// searched for begins there.
    pub(crate) fn begin(&mut self, choices: &[usize]) -> Result<Found, AllocError> {
        self.above = choices.len();
        self.find_ends()?;
        let mut found = self.visit();
        for place in choices {
            drop(found?);
            found = self.enter(*place);
        }
        found
    }

    /// Goes to the child of the last node at a place. The nodes above it are left out.
    fn enter(&mut self, place: usize) -> Result<Found, AllocError> {
        if let Some(frame) = self.frames.last_mut() {
            frame.taken = place;
            for _ in 0..place {
                frame.branches = next_branches(&self.asked.shapes, frame.branches);
            }
        }
        self.nodes.truncate(0);
        self.next_child()
    }

    /// Goes on for so many steps, or until the search ends.
    pub(crate) fn go_on(&mut self, mut found: Found, steps: u64) -> Result<Found, AllocError> {
        for _ in 0..steps {
            found = match found {
                Found::Node => self.next_child()?,
                Found::Tree(conflicts) => self.after_child(conflicts)?,
                Found::Ended(end) => return Ok(Found::Ended(end)),
            };
        }
        Ok(found)
    }

    /// What the search has found, where it has ended.
    pub(crate) fn ended(
        self,
        end: Result<Option<SearchEnd>, AllocError>,
    ) -> Result<Option<Searched>, AllocError> {
        match end {
            Ok(Some(end)) => Ok(Some(self.searched(end))),
            Ok(None) => {
                drop(self);
                Ok(None)
            }
            Err(fault) => {
                drop(self);
                Err(fault)
            }
        }
    }

    /// What the search has found, now that it has ended so.
    fn searched(self, end: SearchEnd) -> Searched {
        let outcomes = self.outcomes;
        let nodes = self.nodes;
        let found = match outcomes {
            KnownOutcomes::Open(found) => found,
            KnownOutcomes::Closed(_) => NumberedOutcomes::none(self.asked.alloc),
        };
        Searched { end, found, nodes }
    }

    /// Makes the next choice of the last node.
    fn next_child(&mut self) -> Result<Found, AllocError> {
        let depth = self.depth();
        match self.next_choice() {
            Some(choice) => self.visit_after(depth, choice),
            None => Ok(Found::Ended(SearchEnd::Stuck)),
        }
    }

    /// Takes the next choice of the last node. `None` if no choice is left.
    fn next_choice(&mut self) -> Option<GraphChoice> {
        let start = self.nodes.len();
        let frame = self.frames.last_mut()?;
        let choice = *frame.choices.get(frame.taken)?;
        frame.taken = frame.taken.saturating_add(1);
        frame.start = start;
        Some(choice)
    }

    /// Takes the last choice back, after which a tree rests on these. Where it rests on the choice the node's next child
    /// comes, or the node is done.
    fn after_child(&mut self, own: ConflictSet) -> Result<Found, AllocError> {
        if self.frames.len() <= self.above {
            return Ok(Found::Ended(SearchEnd::Covered));
        }
        if let Some(mark) = self.marks.last() {
            self.graph.take_back_values(mark);
        }
        let depth = self.depth();
        if !own.has(depth) {
            if let Some(found) = self.without_choice(own)? {
                return Ok(found);
            }
        }
        let Some(frame) = self.frames.last_mut() else {
            return Ok(Found::Ended(SearchEnd::Stuck));
        };
        frame.conflicts.add_all(&own);
        let mut conflicts = frame.conflicts;
        if frame.taken < frame.choices.len() {
            frame.branches = next_branches(&self.asked.shapes, frame.branches);
            return Ok(self.again());
        }
        conflicts.remove(depth);
        self.below = None;
        Ok(self.done(conflicts))
    }

    /// How many nodes are above the last one.
    fn depth(&self) -> u16 {
        self.frames.len().saturating_sub(1).min(MOST_CHOICES) as u16
    }

    /// Goes back to the last node for its next child. After its last child the node above goes back.
    fn again(&mut self) -> Found {
        if let Some(mark) = self.marks.last() {
            self.graph.take_back_rows(mark);
        }
        Found::Node
    }

    /// The last node is done: its tree rests on these choices.
    pub(crate) fn done(&mut self, conflicts: ConflictSet) -> Found {
        drop(self.frames.pop());
        self.marks.truncate(self.frames.len());
        Found::Tree(conflicts)
    }

    /// Puts the tree from a place on in the place of the node that stands before it.
    pub(crate) fn lift(&mut self, root: usize, start: usize) {
        if root <= start && start <= self.nodes.len() {
            take_out(&mut self.nodes, root, start);
        }
    }

    /// Makes a choice and sees what is there.
    fn visit_after(&mut self, depth: u16, choice: GraphChoice) -> Result<Found, AllocError> {
        self.graph.choose(choice);
        self.trail.put(depth, &self.graph, choice);
        match choice {
            GraphChoice::Value { .. } => {
                if let Some(read) = self.lost_read() {
                    return self.open_node(Decision::Source(read));
                }
                self.find_ends()?;
            }
            GraphChoice::Source { read: at, .. } | GraphChoice::Order { second: at, .. } => {
                if self.graph.rows.has_round() {
                    return self.cycle(at);
                }
            }
        }
        self.visit()
    }

    /// In a whole tree, once each read has its value: a read of a value that nobody writes.
    fn lost_read(&self) -> Option<u8> {
        match self.asked.rule {
            Rule::Whole if self.graph.is_whole() => read_of_nobody(&self.graph),
            _ => None,
        }
    }

    /// What is there: a leaf, or a node, which is put after the others.
    fn visit(&mut self) -> Result<Found, AllocError> {
        let is_whole = self.graph.is_whole();
        let followed = self.graph.rows.followed;
        if let Some(conflicts) = self.known_leaf(is_whole, followed)? {
            return Ok(Found::Tree(conflicts));
        }
        let last = if is_whole {
            self.ends.last_writes(followed)
        } else {
            0
        };
        match next_decision(&self.graph, &self.asked.writes, self.asked.rule, last) {
            Some(decision) => self.open_node(decision),
            None => self.new_end(),
        }
    }

    /// Puts the node of a decision after the others.
    fn open_node(&mut self, decision: Decision) -> Result<Found, AllocError> {
        let choices = choices_of(self.asked.alloc, &self.graph, &self.asked.writes, decision)?;
        let count = choices.len();
        let conflicts = self.conflicts().of_node(decision);
        let root = self.nodes.len();
        let branches = self.branches_of(decision);
        self.frames.push(Frame {
            choices,
            taken: 0,
            root,
            start: root,
            branches,
            conflicts,
        })?;
        let node = self.node_of(decision, count);
        self.nodes.push(node)?;
        if count == 0 {
            drop(self.frames.pop());
            return Ok(Found::Tree(conflicts));
        }
        if self.frames.len() > MOST_CHOICES {
            return Ok(Found::Ended(SearchEnd::Stuck));
        }
        let thread = match decision {
            Decision::Value(t) => t,
            _ => 0,
        };
        self.marks.push(self.graph.mark(thread))?;
        Ok(Found::Node)
    }

    /// The node after choices, given by their places at the nodes above, and how many children it has. `None` if a leaf is
    /// there.
    pub(crate) fn node_after(
        &mut self,
        choices: &[usize],
    ) -> Result<Option<(Node, usize)>, AllocError> {
        let Found::Node = self.begin(choices)? else {
            return Ok(None);
        };
        match (self.nodes.last(), self.frames.last()) {
            (Some(node), Some(frame)) => Ok(Some((*node, frame.choices.len()))),
            _ => Ok(None),
        }
    }

    /// The node of a decision with so many choices.
    fn node_of(&self, decision: Decision, count: usize) -> Node {
        let count = count.min(1 << 16) as u32;
        match decision {
            Decision::Value(thread) => Node::Value { thread, count },
            Decision::Source(read) => Node::Source {
                read: self.access_id(read),
                count,
            },
            Decision::Order(first, second) => Node::Order {
                first: self.access_id(first),
                second: self.access_id(second),
            },
        }
    }

    fn access_id(&self, number: u8) -> AccessId {
        AccessId {
            thread: self.graph.numbering.thread(number),
            access: self.graph.numbering.index(number),
        }
    }

    /// Puts the leaf of a graph that must end as a known outcome after the other nodes. `None` if it need not.
    fn known_leaf(
        &mut self,
        is_whole: bool,
        followed: u32,
    ) -> Result<Option<ConflictSet>, AllocError> {
        if let Shown::Truth(formula) = self.asked.shown {
            return self.told_leaf(formula, is_whole, followed);
        }
        if !is_whole {
            return Ok(None);
        }
        let Some(end) = self.ends.must_end(followed) else {
            return Ok(None);
        };
        push_known(&mut self.nodes, u64::from(end.number))?;
        Ok(Some(self.conflicts().of_end(end.others)))
    }

    /// Puts the leaf of a graph that must end with a known truth of the formula after the other nodes.
    fn told_leaf(
        &mut self,
        formula: &Formula,
        is_whole: bool,
        followed: u32,
    ) -> Result<Option<ConflictSet>, AllocError> {
        let Some(truth) = known_truth(self.asked.alloc, &self.graph, formula)? else {
            return Ok(None);
        };
        let told = Outcome::told(self.asked.alloc, truth)?;
        let number = self.outcomes.number_of(&told);
        drop(told);
        let Some(number) = number else {
            return Ok(None);
        };
        push_known(&mut self.nodes, u64::from(number))?;
        Ok(Some(if is_whole {
            self.conflicts().of_end(followed)
        } else {
            self.conflicts().of_ended()
        }))
    }

    /// What is found in a complete graph whose outcome is new: an open list takes it, and the graph has its leaf.
    fn new_end(&mut self) -> Result<Found, AllocError> {
        let Some(run) = shown_run(self.asked.alloc, &self.graph, self.asked.shown)? else {
            return Ok(Found::Ended(SearchEnd::Stuck));
        };
        let KnownOutcomes::Open(found) = &mut self.outcomes else {
            return Ok(Found::Ended(SearchEnd::New(run)));
        };
        let number = found.next_number();
        let MadeRun { outcome, labels } = run;
        self.ends
            .add(&self.graph, self.asked.shown, number, &outcome)?;
        found.add(outcome, &labels)?;
        push_known(&mut self.nodes, u64::from(number))?;
        Ok(Found::Tree(self.new_conflicts()))
    }

    /// What the leaf of a new outcome rests on.
    fn new_conflicts(&self) -> ConflictSet {
        let followed = self.graph.rows.followed;
        match (self.asked.shown, self.ends.must_end(followed)) {
            (Shown::Truth(_), _) => self.conflicts().of_end(followed),
            (_, Some(end)) => self.conflicts().of_end(end.others),
            (_, None) => ConflictSet::all(),
        }
    }

    /// Once each read has its value, the known outcomes as which the graph may end.
    fn find_ends(&mut self) -> Result<(), AllocError> {
        let asked = self.asked;
        if matches!(asked.shown, Shown::Truth(_)) || !self.graph.is_whole() {
            return Ok(());
        }
        self.ends
            .find(asked.alloc, &self.graph, asked.shown, &self.outcomes)
    }

    /// Puts the leaf of a cycle through an access after the other nodes.
    fn cycle(&mut self, at: u8) -> Result<Found, AllocError> {
        let kind = self.union_around(at);
        let round = round_through(self.asked.alloc, self.graph.rows.of_union(kind), at)?;
        self.push_round(kind, &round)?;
        Ok(Found::Tree(self.conflicts().of_cycle(kind, &round)))
    }

    fn push_round(&mut self, kind: Kind, round: &[u8]) -> Result<(), AllocError> {
        let mut accesses = Vec::with_capacity(self.asked.alloc, round.len())?;
        for number in round {
            accesses.push(self.access_id(*number))?;
        }
        push_cycle(&mut self.nodes, kind, &accesses)
    }

    /// The union that has a cycle through an access.
    fn union_around(&self, at: u8) -> Kind {
        match self.graph.mode() {
            Mode::Sequential => Kind::Sequential,
            _ if is_in(reached_from(&self.graph.rows.main, at), at) => Kind::Location,
            Mode::Fenced(_) => Kind::Global,
        }
    }

    fn conflicts(&self) -> Conflicts<'_> {
        Conflicts {
            graph: &self.graph,
            trail: &self.trail,
            writes: &self.asked.writes,
            rule: self.asked.rule,
        }
    }
}
