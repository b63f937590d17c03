//! Large numbers as people read them.

use std::alloc::{AllocError, Global};

/// The digits of a number in groups of three, as in `1,234,567`.
pub fn grouped(alloc: Global, number: u64) -> Result<String, AllocError> {
    let digits = format!(in alloc; "{number}")?;
    let mut text = String::new(alloc);
    let mut left = digits.len();
    for digit in digits.chars() {
        text.push(digit)?;
        left = left.saturating_sub(1);
        if left > 0 && left % 3 == 0 {
            text.push(',')?;
        }
    }
    Ok(text)
}
