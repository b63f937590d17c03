//! A row for each number.
use crate::numbers::one;
use bit_rows::ROW_BITS;

/// A row for each number.
#[derive(Clone, Copy)]
pub struct RowList {
    rows: [u32; ROW_BITS],
}

impl RowList {
    /// Rows without numbers.
    pub fn none() -> RowList {
        RowList {
            rows: [0; ROW_BITS],
        }
    }

    /// The row of a number.
    pub fn at(&self, number: u8) -> u32 {
        self.rows[number as usize % ROW_BITS]
    }

    /// Puts the numbers of a row into that of a number.
    pub fn add(&mut self, number: u8, row: u32) {
        let place = number as usize % ROW_BITS;
        self.rows[place] = self.rows[place] | row;
    }

    /// Puts a number into the row of another or takes it out.
    pub fn put(&mut self, number: u8, other: u8, is_in: bool) {
        let place = number as usize % ROW_BITS;
        let rest = self.rows[place] & !one(other);
        self.rows[place] = if is_in { rest | one(other) } else { rest };
    }
}
