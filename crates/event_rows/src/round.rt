//! Shortest cycles of related numbers.
use crate::numbers::{each_in, is_in, one};
use bit_rows::{ROW_BITS, Relation};
use std::alloc::{AllocError, Global};

/// Layers of numbers by their distance from the first, and for each number one of the layer before that is related to it.
#[derive(Drop)]
struct Layers {
    seen: u32,
    last: u32,
    before: [u8; ROW_BITS],
}

impl Layers {
    /// The next layer: the numbers that are not seen yet to which one of the last layer is related.
    fn next(&mut self, relation: &Relation) {
        let mut next = 0;
        for d in each_in(self.last) {
            let new = relation.row(d % ROW_BITS as u8) & !self.seen;
            self.put(new, d);
            next = next | new;
        }
        self.last = next;
    }

    /// The numbers of the row are reached from this one.
    fn put(&mut self, row: u32, from: u8) {
        self.seen = self.seen | row;
        for d in each_in(row) {
            self.before[d as usize % ROW_BITS] = from;
        }
    }
}

/// The numbers to which a path leads from this one.
pub fn reached_from(relation: &Relation, number: u8) -> u32 {
    relation.reach(number % ROW_BITS as u8)
}

/// A shortest cycle of a relation through a number, which comes last in it.
pub fn round_through(
    alloc: Global,
    relation: &Relation,
    number: u8,
) -> Result<Vec<u8>, AllocError> {
    let mut layers = Layers {
        seen: 0,
        last: one(number),
        before: [0; ROW_BITS],
    };
    for _ in 0..ROW_BITS {
        if is_in(layers.seen, number) {
            break;
        }
        layers.next(relation);
    }
    back_from(alloc, &layers.before, number)
}

/// The cycle that was gone through from the number on, as far as the numbers before say.
fn back_from(alloc: Global, before: &[u8; ROW_BITS], number: u8) -> Result<Vec<u8>, AllocError> {
    let mut round = Vec::with_capacity(alloc, 4)?;
    round.push(number)?;
    let mut d = before[number as usize % ROW_BITS];
    for _ in 0..ROW_BITS {
        if d == number {
            break;
        }
        round.push(d)?;
        d = before[d as usize % ROW_BITS];
    }
    round.reverse();
    Ok(round)
}
