//! Which of the choices that a search has made a tree rests on.

/// How many choices have a bit of their own. All deeper ones share the last.
const OWN_BITS: u16 = 255;

const ROWS: usize = 4;

/// How many choices have a bit in one row.
const ROW_CHOICES: u16 = 64;

/// Choices that a tree rests on, by their depth.
#[derive(Clone, Copy)]
pub struct ConflictSet {
    rows: [u64; ROWS],
}

impl ConflictSet {
    /// No choice.
    pub fn none() -> ConflictSet {
        ConflictSet { rows: [0; ROWS] }
    }

    /// Each choice.
    pub fn all() -> ConflictSet {
        ConflictSet {
            rows: [u64::MAX; ROWS],
        }
    }

    /// Adds the choice at a depth.
    pub(crate) fn add(&mut self, depth: u16) {
        let bit = depth.min(OWN_BITS);
        let place = (bit / ROW_CHOICES) as usize % ROWS;
        self.rows[place] = self.rows[place] | 1u64 << (bit % ROW_CHOICES);
    }

    /// Adds the choices of another set.
    pub fn add_all(&mut self, other: &ConflictSet) {
        for place in 0..ROWS {
            self.rows[place] = self.rows[place] | other.rows[place];
        }
    }

    /// Whether the set has the choice at a depth.
    pub fn has(&self, depth: u16) -> bool {
        let bit = depth.min(OWN_BITS);
        self.rows[(bit / ROW_CHOICES) as usize % ROWS] >> (bit % ROW_CHOICES) & 1 == 1
    }

    /// Takes out the choice at a depth, where that has a bit of its own.
    pub fn remove(&mut self, depth: u16) {
        if depth < OWN_BITS {
            let place = (depth / ROW_CHOICES) as usize % ROWS;
            self.rows[place] = self.rows[place] & !(1u64 << (depth % ROW_CHOICES));
        }
    }

    /// How many choices there are.
    pub(crate) fn len(&self) -> u32 {
        let mut count: u32 = 0;
        for row in self.rows {
            count = count.saturating_add(row.count_ones());
        }
        count
    }
}
