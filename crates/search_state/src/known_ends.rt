//! The known outcomes as which a graph may end in which each read has its value.
use crate::known_outcomes::{KnownOutcomes, NumberedOutcomes, number_at};
use event_rows::{EventGraph, each_in, one};
use std::alloc::{AllocError, Global};
use tso_program::{Items, MAX_LOCATIONS, Outcome, REGISTERS, Shown};

/// A known outcome by its number, and the writes of other values: the graph must end so once each of them has a later
/// one.
#[derive(Clone, Copy)]
pub struct KnownEnd {
    /// Its number among the known outcomes.
    pub number: u32,
    /// A row of bits: the writes of other values.
    pub others: u32,
}

/// The known outcomes whose registers are those of a graph.
#[derive(Drop)]
pub struct KnownEnds {
    ends: Vec<KnownEnd>,
}

impl KnownEnds {
    /// None.
    pub fn none(alloc: Global) -> KnownEnds {
        KnownEnds {
            ends: Vec::new(alloc),
        }
    }

    /// Takes those of a graph in which each read has its value in place of its own.
    pub fn find(
        &mut self,
        alloc: Global,
        graph: &EventGraph,
        shown: &Shown,
        outcomes: &KnownOutcomes<'_>,
    ) -> Result<(), AllocError> {
        self.ends.truncate(0);
        let least = registers_alone(alloc, graph, shown)?;
        match outcomes {
            KnownOutcomes::Closed(listed) => self.add_listed(graph, shown, &least, listed),
            KnownOutcomes::Open(found) => self.add_found(graph, shown, &least, found),
        }
    }

    /// Adds those of a list that ascends which have the registers of this outcome, and do not come before it.
    fn add_listed(
        &mut self,
        graph: &EventGraph,
        shown: &Shown,
        least: &Outcome,
        listed: &[Outcome],
    ) -> Result<(), AllocError> {
        let start = match listed.binary_search(least) {
            Ok(place) | Err(place) => place,
        };
        let rest = listed.get(start..).unwrap_or(&[]);
        for (index, outcome) in rest.iter().enumerate() {
            if outcome.registers != least.registers {
                return Ok(());
            }
            let number = number_at(start.saturating_add(index));
            self.add(graph, shown, number, outcome)?;
        }
        Ok(())
    }

    /// Adds those of the found outcomes which have the registers of this outcome, and do not come before it.
    fn add_found(
        &mut self,
        graph: &EventGraph,
        shown: &Shown,
        least: &Outcome,
        found: &NumberedOutcomes,
    ) -> Result<(), AllocError> {
        for (outcome, number) in found.numbers.range(least..) {
            if outcome.registers != least.registers {
                return Ok(());
            }
            self.add(graph, shown, *number, outcome)?;
        }
        Ok(())
    }

    /// Adds an outcome with the graph's registers, if the graph may end as it.
    pub fn add(
        &mut self,
        graph: &EventGraph,
        shown: &Shown,
        number: u32,
        outcome: &Outcome,
    ) -> Result<(), AllocError> {
        if let Some(others) = others_of(graph, shown, outcome) {
            self.ends.push(KnownEnd { number, others })?;
        }
        Ok(())
    }

    /// One as which the graph must end, that of which the fewest writes need a later one.
    pub fn must_end(&self, followed: u32) -> Option<KnownEnd> {
        let mut best: Option<KnownEnd> = None;
        for end in &self.ends {
            if end.others & !followed == 0 {
                best = match best {
                    Some(other) => Some(fewer(*end, other)),
                    None => Some(*end),
                };
            }
        }
        best
    }

    /// The writes such that the graph must end as a known outcome once they have a later one.
    pub fn last_writes(&self, followed: u32) -> u32 {
        let mut row = 0;
        for end in &self.ends {
            let left = end.others & !followed;
            if left.count_ones() == 1 {
                row = row | left;
            }
        }
        row
    }
}

/// That of two ends of which fewer writes need a later one, the second if they are alike.
fn fewer(own: KnownEnd, other: KnownEnd) -> KnownEnd {
    if own.others.count_ones() < other.others.count_ones() {
        own
    } else {
        other
    }
}

/// An outcome with what is shown of the graph's registers, which comes before all others that have them.
fn registers_alone(
    alloc: Global,
    graph: &EventGraph,
    shown: &Shown,
) -> Result<Outcome, AllocError> {
    let mut registers: Vec<[u32; REGISTERS]> = Vec::new(alloc);
    for t in 0..graph.thread_count() {
        registers.push(shown.registers(t as usize, graph.state(t).last.registers))?;
    }
    Ok(Outcome {
        registers: Items::of(registers),
        memory: Items::of(Vec::new(alloc)),
    })
}

/// The writes of other values than those with which an outcome's locations end. `None` if a location that nobody writes
/// ends otherwise.
fn others_of(graph: &EventGraph, shown: &Shown, outcome: &Outcome) -> Option<u32> {
    let mut others = 0;
    for (place, value) in outcome.memory.as_slice().iter().enumerate() {
        let location = (place % MAX_LOCATIONS) as u8;
        let written = graph.rows.written(location);
        if written == 0 && shown.value(place, graph.initial(location)) != *value {
            return None;
        }
        for d in each_in(written) {
            if shown_write(graph, shown, place, d) != Some(*value) {
                others = others | one(d);
            }
        }
    }
    Some(others)
}

/// What is shown of the value that an access writes.
fn shown_write(graph: &EventGraph, shown: &Shown, location: usize, number: u8) -> Option<u32> {
    let value = graph.access(number).written?;
    Some(shown.value(location, value))
}
