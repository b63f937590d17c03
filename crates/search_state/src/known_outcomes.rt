//! The outcomes by which a search goes.
use cert_forest::Runs;
use std::alloc::{AllocError, Global};
use std::collections::BTreeMap;
use tso_machine::Label;
use tso_program::Outcome;

/// How many outcomes a search finds at most.
const MOST_OUTCOMES: usize = 1 << 24;

/// Outcomes that a search has found so far.
#[derive(Drop)]
pub struct NumberedOutcomes {
    alloc: Global,
    /// The number of each, by which a tree names it: how many were found before.
    pub numbers: BTreeMap<Outcome, u32>,
    /// A run of each, in the order of their numbers.
    pub runs: Runs,
}

/// The outcomes that the leaves of a tree may name, by their numbers.
#[derive(Drop)]
pub enum KnownOutcomes<'a> {
    /// These alone. They ascend, and the number of an outcome is its place.
    Closed(&'a [Outcome]),
    /// Those that are found so far. The search adds to them.
    Open(NumberedOutcomes),
}

impl NumberedOutcomes {
    /// No outcome yet.
    pub fn none(alloc: Global) -> NumberedOutcomes {
        NumberedOutcomes {
            alloc,
            numbers: BTreeMap::new(alloc),
            runs: Runs::new(alloc),
        }
    }

    /// The number of the next new outcome: how many there are.
    pub fn next_number(&self) -> u32 {
        number_at(self.numbers.len())
    }

    /// The number of an outcome, which is added with the labels of its run if it is new.
    pub fn add(&mut self, outcome: Outcome, labels: &[Label]) -> Result<u32, AllocError> {
        let next = self.next_number();
        let number = *self.numbers.entry(outcome)?.or_insert(next);
        if number == next {
            if self.numbers.len() > MOST_OUTCOMES {
                return Err(AllocError);
            }
            self.runs.push(labels)?;
        }
        Ok(number)
    }

    /// Adds those outcomes of another list that are new, and answers for each number there the one here.
    pub fn add_all(&mut self, other: NumberedOutcomes) -> Result<Vec<u32>, AllocError> {
        let NumberedOutcomes { numbers, runs, .. } = other;
        let mut added = vec![in self.alloc; 0u32; numbers.len()]?;
        for (outcome, number) in numbers {
            let labels = runs.get(number as usize).unwrap_or(&[]);
            let own = self.add(outcome, labels)?;
            if let Some(place) = added.get_mut(number as usize) {
                *place = own;
            }
        }
        Ok(added)
    }
}

impl<'a> KnownOutcomes<'a> {
    /// Those that are listed, or else none yet.
    pub fn listed(alloc: Global, listed: Option<&'a [Outcome]>) -> KnownOutcomes<'a> {
        match listed {
            Some(outcomes) => KnownOutcomes::Closed(outcomes),
            None => KnownOutcomes::Open(NumberedOutcomes::none(alloc)),
        }
    }
}

impl KnownOutcomes<'_> {
    /// The number of an outcome. `None` if it is not known.
    pub fn number_of(&self, outcome: &Outcome) -> Option<u32> {
        match self {
            KnownOutcomes::Closed(outcomes) => match outcomes.binary_search(outcome) {
                Ok(place) => Some(number_at(place)),
                Err(_) => None,
            },
            KnownOutcomes::Open(found) => found.numbers.get(outcome).copied(),
        }
    }
}

/// The number of the outcome at a place of a list.
pub(crate) fn number_at(place: usize) -> u32 {
    place.min(MOST_OUTCOMES) as u32
}
