//! The numbers of a row.
ghost use Rattle.std.specs.Iterator.{at_most};

use bit_rows::{ROW_BITS, lowest, without};

/// The numbers of a row that are still to come, ascending.
#[derive(Drop)]
pub struct Numbers {
    left: u32,
}

impl Iterator for Numbers {
    type Item = u8;

    ghost remaining = { λ s. at_most s.left };

    fn next(&mut self) -> Option<u8> {
        let number = lowest(self.left)?;
        self.left = without(self.left, number);
        Some(number)
    }
}

/// The numbers of a row, ascending.
pub fn each_in(row: u32) -> Numbers {
    Numbers { left: row }
}

/// The row of one number.
pub fn one(number: u8) -> u32 {
    1 << (number % ROW_BITS as u8)
}

/// Whether a row has a number.
pub fn is_in(row: u32, number: u8) -> bool {
    row & one(number) != 0
}

/// The row of the numbers below this one.
pub fn first_numbers(count: u8) -> u32 {
    if usize::from(count) >= ROW_BITS {
        u32::MAX
    } else {
        one(count).wrapping_sub(1)
    }
}

/// The row with each number larger by this much.
pub fn shifted(row: u32, by: u8) -> u32 {
    row.wrapping_shl(u32::from(by))
}
