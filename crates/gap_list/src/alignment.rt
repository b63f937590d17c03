//! Which instructions of two threads are likely one line of their source. No clause rests on it.
use crate::shapes::are_alike;
use std::alloc::{AllocError, Global};
use tso_program::Instr;

/// Whether two threads have as many instructions, each alike.
pub(crate) fn are_wholly_alike(first: &[Instr], second: &[Instr]) -> bool {
    if first.len() != second.len() {
        return false;
    }
    for (k, code) in first.iter().enumerate() {
        let is_alike = second.get(k).is_some_and(|other| are_alike(*code, *other));
        if !is_alike {
            return false;
        }
    }
    true
}

/// Two instructions by their numbers, of two threads.
#[derive(Clone, Copy)]
pub(crate) struct Pair {
    pub(crate) first: usize,
    pub(crate) second: usize,
}

/// How many instructions of two threads can be paired in order, from each place of the one and each place of the other on.
#[derive(Drop)]
struct PairCounts {
    columns: usize,
    counts: Vec<u16>,
}

impl PairCounts {
    /// The counts of two threads.
    fn of(alloc: Global, first: &[Instr], second: &[Instr]) -> Result<PairCounts, AllocError> {
        let columns = second.len().saturating_add(1);
        let cells = first.len().saturating_add(1).saturating_mul(columns);
        let mut found = PairCounts {
            columns,
            counts: vec![in alloc; 0; cells]?,
        };
        for row in (0..first.len()).rev() {
            found.fill_row(row, first, second);
        }
        Ok(found)
    }

    fn fill_row(&mut self, row: usize, first: &[Instr], second: &[Instr]) {
        for column in (0..second.len()).rev() {
            let skipped = self.at(row.saturating_add(1), column);
            let other_skipped = self.at(row, column.saturating_add(1));
            let mut count = skipped.max(other_skipped);
            if alike_at(first, row, second, column) {
                let paired = self.at(row.saturating_add(1), column.saturating_add(1));
                count = count.max(paired.saturating_add(1));
            }
            self.set(row, column, count);
        }
    }

    /// Whether as many can be paired without the first thread's next instruction as without the second's.
    fn skips_first(&self, row: usize, column: usize) -> bool {
        self.at(row.saturating_add(1), column) >= self.at(row, column.saturating_add(1))
    }

    fn place(&self, row: usize, column: usize) -> usize {
        row.saturating_mul(self.columns).saturating_add(column)
    }

    fn at(&self, row: usize, column: usize) -> u16 {
        self.counts
            .get(self.place(row, column))
            .copied()
            .unwrap_or(0)
    }

    fn set(&mut self, row: usize, column: usize, count: u16) {
        let place = self.place(row, column);
        if let Some(cell) = self.counts.get_mut(place) {
            *cell = count;
        }
    }
}

fn alike_at(first: &[Instr], row: usize, second: &[Instr], column: usize) -> bool {
    match (first.get(row), second.get(column)) {
        (Some(code), Some(other)) => are_alike(*code, *other),
        _ => false,
    }
}

/// The most instructions of two threads that are alike, in order.
pub(crate) fn aligned(
    alloc: Global,
    first: &[Instr],
    second: &[Instr],
) -> Result<Vec<Pair>, AllocError> {
    let counts = PairCounts::of(alloc, first, second)?;
    let mut pairs = Vec::new(alloc);
    let mut row = 0usize;
    let mut column = 0usize;
    for _ in 0..first.len().saturating_add(second.len()) {
        let next = counts.at(row.saturating_add(1), column.saturating_add(1));
        let is_pair = alike_at(first, row, second, column)
            && counts.at(row, column) == next.saturating_add(1);
        if is_pair {
            pairs.push(Pair {
                first: row,
                second: column,
            })?;
            row = row.saturating_add(1);
            column = column.saturating_add(1);
        } else if counts.skips_first(row, column) {
            row = row.saturating_add(1);
        } else {
            column = column.saturating_add(1);
        }
    }
    Ok(pairs)
}
