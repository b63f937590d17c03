//! Long searches, in parts that threads share.
//!
//! A search that has not ended after so many turns begins again. Its tree is opened from the top, a choice more at a time,
//! until enough places are open, and what stands at each of them is a part. A part is searched by itself: its outcomes are a
//! list of its own, and its tree takes the place of no node above. How a search is cut depends on nothing but its steps, so
//! what is found is the same for any number of threads.
use crate::backjumping_search::{BackjumpingSearch, Found, SearchEnd};
use crate::proposing_search::ProposingSearch;
use crate::searched::{Searched, TURN_STEPS, searched_within};
use search_state::{KnownOutcomes, Node};
use std::alloc::{AllocError, Global};
use std::sync::atomic::{AtomicUsize, Ordering};
use std::thread::{self, Threads};
use tso_machine::Mode;
use tso_program::Outcome;

/// A search of more turns is cut.
const SHORT_TURNS: u64 = 1 << 6;

/// A search is cut into so many parts or more.
const MANY_PARTS: usize = 32;

/// How many nodes are above a part at most.
const MOST_ABOVE: usize = 64;

/// More turns than any machine makes.
const MOST_TURNS: u64 = 1 << 44;

/// A piece of a tree.
#[derive(Drop)]
enum Piece {
    /// A node above the parts.
    Node(Node),
    /// A part, by the places of the choices above it.
    Part(Vec<usize>),
}

/// A search that is cut, whose parts threads share.
#[derive(Drop)]
struct CutSearch<'a> {
    asked: &'a ProposingSearch<'a>,
    mode: Mode,
    listed: Option<&'a [Outcome]>,
    /// In the order of the tree's nodes.
    pieces: Vec<Piece>,
    /// How many pieces were taken by a thread.
    taken: AtomicUsize,
    /// The place of a part that ends the question. Before there is one it is greater than all places.
    last: AtomicUsize,
}

/// Searches: a short search in one piece, a long one in parts. The outcomes that leaves may name are listed, or the search
/// finds them.
pub(crate) fn searched<'a, R: Threads + Sync>(
    rt: &R,
    asked: &'a ProposingSearch<'a>,
    mode: Mode,
    listed: Option<&'a [Outcome]>,
) -> Result<Searched, AllocError> {
    match listed {
        Some(_) => {
            asked.watch.ask();
        }
        None => asked.watch.seek_outcomes(),
    }
    match searched_within(asked, mode, listed, SHORT_TURNS)? {
        Some(searched) => Ok(searched),
        None => CutSearch::new(asked, mode, listed)?.searched(rt),
    }
}

impl<'a> CutSearch<'a> {
    /// A search that is cut.
    fn new(
        asked: &'a ProposingSearch<'a>,
        mode: Mode,
        listed: Option<&'a [Outcome]>,
    ) -> Result<CutSearch<'a>, AllocError> {
        let mut pieces = Vec::new(asked.alloc);
        pieces.push(Piece::Part(Vec::new(asked.alloc)))?;
        let mut search = CutSearch {
            asked,
            mode,
            listed,
            pieces,
            taken: AtomicUsize::new(0),
            last: AtomicUsize::new(usize::MAX),
        };
        search.cut()?;
        asked.watch.cut(parts_in(&search.pieces));
        Ok(search)
    }

    /// Cuts the parts until there are many.
    fn cut(&mut self) -> Result<(), AllocError> {
        for _ in 0..MOST_ABOVE {
            if parts_in(&self.pieces) >= MANY_PARTS {
                return Ok(());
            }
            self.pieces = self.cut_once()?;
        }
        Ok(())
    }

    /// The pieces with each part cut once more.
    fn cut_once(&self) -> Result<Vec<Piece>, AllocError> {
        let mut pieces = Vec::new(self.asked.alloc);
        for piece in &self.pieces {
            match piece {
                Piece::Node(node) => pieces.push(Piece::Node(*node))?,
                Piece::Part(choices) => self.open(choices, &mut pieces)?,
            }
        }
        Ok(pieces)
    }

    /// Adds the node of a part and a part for each of its children, or the part itself where it is a leaf.
    fn open(&self, choices: &[usize], pieces: &mut Vec<Piece>) -> Result<(), AllocError> {
        let mut search = self.search()?;
        let node = search.node_after(choices);
        drop(search);
        match node? {
            Some((node, count)) => {
                pieces.push(Piece::Node(node))?;
                self.push_children(choices, count, pieces)
            }
            None => {
                pieces.push(Piece::Part(Vec::from_slice(self.asked.alloc, choices)?))?;
                Ok(())
            }
        }
    }

    /// Adds a part for each child of the node after these choices.
    fn push_children(
        &self,
        choices: &[usize],
        count: usize,
        pieces: &mut Vec<Piece>,
    ) -> Result<(), AllocError> {
        for place in 0..count {
            let mut below = Vec::from_slice(self.asked.alloc, choices)?;
            below.push(place)?;
            pieces.push(Piece::Part(below))?;
        }
        Ok(())
    }

    /// A search in which nothing is chosen.
    fn search(&self) -> Result<BackjumpingSearch<'_>, AllocError> {
        let outcomes = KnownOutcomes::listed(self.asked.alloc, self.listed);
        BackjumpingSearch::new(self.asked, self.mode, outcomes)
    }

    /// Searches the parts, and joins what is found in them.
    fn searched<R: Threads + Sync>(&self, rt: &R) -> Result<Searched, AllocError> {
        let mut joined = Searched::none(self.asked.alloc);
        match self.join(rt, &mut joined) {
            Ok(()) => Ok(joined),
            Err(fault) => {
                drop(joined);
                Err(fault)
            }
        }
    }

    /// Searches the parts, and adds what is found in them.
    fn join<R: Threads + Sync>(&self, rt: &R, joined: &mut Searched) -> Result<(), AllocError> {
        for (piece, found) in self.pieces.iter().zip(self.found(rt)?) {
            add_piece(joined, piece, found)?;
        }
        Ok(())
    }

    /// What is found in each part, at the place of its piece. `None` for a node, and for a part after one that ends the
    /// question.
    fn found<R: Threads + Sync>(&self, rt: &R) -> Result<Vec<Option<Searched>>, AllocError> {
        let mut found = none_found(self.asked.alloc, self.pieces.len())?;
        for parts in thread::map_indices(
            rt,
            self.asked.alloc,
            self.asked.workers,
            &|_| self.some_searched(),
        )? {
            put_all(&mut found, parts?);
        }
        Ok(found)
    }

    /// Searches parts that no other thread has taken, one after another, and answers each with its place.
    fn some_searched(&self) -> Result<Vec<(usize, Searched)>, AllocError> {
        let mut parts = Vec::new(self.asked.alloc);
        for _ in 0..self.pieces.len() {
            let place = self.taken.fetch_add(1, Ordering::SeqCst);
            if let Some(Piece::Part(choices)) = self.pieces.get(place) {
                if let Some(searched) = self.part_searched(place, choices)? {
                    parts.push((place, searched))?;
                }
                self.asked.watch.finish_part();
            }
        }
        Ok(parts)
    }

    /// Searches a part. `None` once a part before it ends the question.
    fn part_searched(
        &self,
        place: usize,
        choices: &[usize],
    ) -> Result<Option<Searched>, AllocError> {
        let mut search = self.search()?;
        let end = self.end_of(&mut search, place, choices);
        search.ended(end)
    }

    /// How the search of a part ends. `None` once a part before it ends the question.
    fn end_of(
        &self,
        search: &mut BackjumpingSearch<'_>,
        place: usize,
        choices: &[usize],
    ) -> Result<Option<SearchEnd>, AllocError> {
        let mut found = search.begin(choices)?;
        for _ in 0..MOST_TURNS {
            if self.last.load(Ordering::SeqCst) < place {
                break;
            }
            found = match search.go_on(found, TURN_STEPS)? {
                Found::Ended(end) => {
                    self.note(place, &end);
                    return Ok(Some(end));
                }
                other => other,
            };
        }
        drop(found);
        Ok(None)
    }

    /// Notes that a part ends the question, where it does.
    fn note(&self, place: usize, end: &SearchEnd) {
        let is_covered = matches!(end, SearchEnd::Covered);
        if !is_covered && place < self.last.load(Ordering::SeqCst) {
            self.last.store(place, Ordering::SeqCst);
        }
    }
}

/// Adds a piece of the tree, with what is found in it.
fn add_piece(
    joined: &mut Searched,
    piece: &Piece,
    found: Option<Searched>,
) -> Result<(), AllocError> {
    if let Some(searched) = found {
        return joined.add(searched);
    }
    if let Piece::Node(node) = piece {
        joined.nodes.push(*node)?;
    }
    Ok(())
}

/// Nothing yet at each of so many places.
fn none_found(alloc: Global, places: usize) -> Result<Vec<Option<Searched>>, AllocError> {
    let mut found = Vec::with_capacity(alloc, places)?;
    for _ in 0..places {
        found.push(None)?;
    }
    Ok(found)
}

/// How many of the pieces are parts.
fn parts_in(pieces: &[Piece]) -> usize {
    let mut count: usize = 0;
    for piece in pieces {
        if let Piece::Part(_) = piece {
            count = count.saturating_add(1);
        }
    }
    count
}

/// Puts what is found in parts at the places of their pieces.
fn put_all(found: &mut Vec<Option<Searched>>, parts: Vec<(usize, Searched)>) {
    for (place, searched) in parts {
        if place < found.len() {
            found[place] = Some(searched);
        }
    }
}
