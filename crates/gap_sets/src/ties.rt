//! Gaps that go together.
ghost use Rattle.std.specs.Prelude.{◌≡◌, ◌↔◌, ◌≤◌, [], Some, min, slice_get, IfOk, IsTrue};
ghost use Rattle.gap_sets.specs.Order.{total};
ghost use Rattle.gap_sets.specs.Ties.{AreTies, IsAllowed, name_of, names_in, spread};

use crate::costs::Costs;
use crate::gap_set::{GapSet, MAX_GAPS};
use std::alloc::{AllocError, Global};
use std::marker::Model;
use std::sync::Arc;

/// Ties: sets of gaps that are fenced together or not at all. A tie is named by its least gap, and a set of names stands for
/// the gaps of their ties. The names never change and are shared by all copies.
///
/// Only `single`, `new` and `copy` take memory.
#[derive(Drop)]
pub struct Ties {
    /// The name of each gap, by the gap's number.
    names: Arc<Vec<u8>>,
}

impl Model for Ties {
    ghost use Rattle.std.specs.Prelude.{List, ℕ};
    ghost use Rattle.std.specs.Arc.{arc_value};
    ghost use Rattle.gap_sets.specs.Ties.{AreTies};

    ghost Value = { List ℕ };

    ghost view = { λ ties. (arc_value ties.names).items };

    ghost invariant = { λ ties. AreTies (arc_value ties.names).items };
}

impl Ties {
    /// Each gap is a tie of its own.
    pub fn single(alloc: Global) -> Result<Ties, AllocError>
        ensures { IfOk result (λ ties. ties ≡ []) }
    {
        Ties::new(alloc, &[])
    }

    /// The ties where each gap has this name; gaps past the list are ties of their own.
    pub fn new(alloc: Global, names: &[u8]) -> Result<Ties, AllocError>
        requires { AreTies names.now }
        ensures { IfOk result (λ ties. ties ≡ names.now) }
    {
        Ok(Ties {
            names: Arc::new(alloc, Vec::from_slice(alloc, names)?)?,
        })
    }

    /// Whether each of these names is one that a gap may have: no greater than the gap, and its own name.
    pub fn are_names(names: &[u8]) -> bool
        ensures { IsTrue result ↔ AreTies names.now }
    {
        if names.len() > MAX_GAPS as usize {
            return false;
        }
        for (gap, name) in names.iter().enumerate() {
            if !is_name(names, gap, *name) {
                return false;
            }
        }
        true
    }

    /// For a proof alone: recalls what holds of all ties.
    pub fn recall_facts(&self)
        ensures { AreTies self.now }
    {
        let _ = self.is_single();
    }

    /// Whether there is no list of names: each gap is a tie of its own.
    pub fn is_single(&self) -> bool
        ensures value { IsTrue result ↔ (self.now ≡ []) }
        ensures ties { AreTies self.now }
    {
        self.as_slice().is_empty()
    }

    /// The names that are listed, by the gaps' numbers.
    pub fn as_slice(&self) -> &[u8]
        ensures value { result.now ≡ self.now }
        ensures ties { AreTies self.now }
    {
        self.names.as_slice()
    }

    /// The name of a gap's tie.
    pub fn name_of(&self, gap: u8) -> u8
        ensures value { result ≡ name_of self.now gap }
        ensures least { result ≤ gap }
    {
        match self.as_slice().get(gap as usize) {
            Some(name) => if *name < gap { *name } else { gap },
            None => gap,
        }
    }

    /// The gaps of the ties with these names.
    pub fn spread(&self, names: &GapSet) -> GapSet
        ensures { result ≡ spread self.now names.now }
    {
        let mut gaps = *names;
        for (gap, name) in self.as_slice().iter().enumerate() {
            let gap = gap as u8;
            gaps = if names.has(least(gap, *name)) {
                gaps.with(gap)
            } else {
                gaps.without(gap)
            };
        }
        gaps
    }

    /// The names of the ties of these gaps.
    pub fn names_in(&self, gaps: &GapSet) -> GapSet
        ensures { result ≡ names_in self.now gaps.now }
    {
        let mut names = GapSet::empty();
        for gap in gaps.iter() {
            names = names.with(self.name_of(gap));
        }
        names
    }

    /// Whether the set has of each tie all gaps or none.
    pub fn allow(&self, gaps: &GapSet) -> bool
        ensures { IsTrue result ↔ IsAllowed self.now gaps.now }
    {
        self.spread(&self.names_in(gaps)).same(gaps)
    }

    /// A copy that shares the names with this one.
    pub fn copy(&self) -> Result<Ties, AllocError>
        ensures { IfOk result (λ ties. ties ≡ self.now) }
    {
        Ok(Ties {
            names: Arc::try_clone(&self.names)?,
        })
    }

    /// Whether the two list the same names.
    pub fn same(&self, other: &Ties) -> bool
        ensures { IsTrue result ↔ (self.now ≡ other.now) }
    {
        self.as_slice() == other.as_slice()
    }
}

/// Whether a name is no greater than the gap, and its own name.
fn is_name(names: &[u8], gap: usize, name: u8) -> bool
    ensures { IsTrue result ↔ ((name ≤ gap) × (slice_get names.now name ≡ Some name)) }
{
    match names.get(name as usize) {
        Some(own) => *own == name && name as usize <= gap,
        None => false,
    }
}

/// The lesser of two numbers.
fn least(first: u8, second: u8) -> u8
    ensures { result ≡ min first second }
{
    if second < first { second } else { first }
}

/// What each gap costs, and which gaps go together. A tie costs what its least gap costs.
#[derive(Drop)]
pub struct TiedCosts {
    pub costs: Costs,
    pub ties: Ties,
}

impl TiedCosts {
    /// The costs of gaps of which each is a tie of its own.
    pub fn single(alloc: Global, costs: Costs) -> Result<TiedCosts, AllocError>
        ensures costs { IfOk result (λ tied. tied.costs ≡ costs) }
        ensures ties { IfOk result (λ tied. tied.ties ≡ []) }
    {
        Ok(TiedCosts {
            costs,
            ties: Ties::single(alloc)?,
        })
    }

    /// What the ties with these gaps cost together, each once.
    pub fn total(&self, gaps: &GapSet) -> u64
        ensures { result ≡ total self.now.costs (names_in self.now.ties gaps.now) }
    {
        self.costs.total(&self.ties.names_in(gaps))
    }
}
