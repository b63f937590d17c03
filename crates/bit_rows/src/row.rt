//! Numbers below 32 as the bits of a word.
ghost use Rattle.std.specs.Prelude.{◌≡◌, ◌≢◌, ◌↔◌, ◌⊎◌, ◌+◌, ◌<◌, ◌≤◌, ℕ, IsTrue, MatchOption};
ghost use Rattle.bit_rows.specs.Rows.{IsIn};
ghost use Rattle.bit_rows.specs.declared.row.TheConstants.{ROW_BITS};

/// The numbers of a row are below this one: the bits of a word.
pub const ROW_BITS: usize = 32;

/// Whether the row has the number.
pub fn has(row: u32, number: u8) -> bool
    requires { number < ROW_BITS }
    ensures { IsTrue result ↔ IsIn row number }
{
    row >> number & 1 == 1
}

/// Whether the row has any number.
pub fn has_any(row: u32) -> bool
    ensures { IsTrue result ↔ ((k : ℕ) × IsIn row k) }
{
    row != 0
}

/// The row with this number too.
pub fn with(row: u32, number: u8) -> u32
    requires { number < ROW_BITS }
    ensures { (k : ℕ) → IsIn result k ↔ (IsIn row k ⊎ (k ≡ number)) }
{
    row | 1 << number
}

/// The row without this number.
pub fn without(row: u32, number: u8) -> u32
    requires { number < ROW_BITS }
    ensures numbers { (k : ℕ) → IsIn result k ↔ (IsIn row k × (k ≢ number)) }
    ensures less { IsIn row number → result < row }
{
    row & !(1 << number)
}

/// The lowest number of the row.
pub fn lowest(row: u32) -> Option<u8>
    ensures { MatchOption result ((k : ℕ) → IsIn row k → ⊥) (λ d. (d < ROW_BITS) × IsIn row d × ((k : ℕ) → IsIn row k → d ≤ k)) }
{
    if row == 0 {
        return None;
    }
    Some(row.trailing_zeros() as u8)
}

/// The numbers of either row.
pub fn joined(a: u32, b: u32) -> u32
    ensures { (k : ℕ) → IsIn result k ↔ (IsIn a k ⊎ IsIn b k) }
{
    a | b
}

/// The numbers that are in both rows.
pub fn common(a: u32, b: u32) -> u32
    ensures { (k : ℕ) → IsIn result k ↔ (IsIn a k × IsIn b k) }
{
    a & b
}

/// The numbers of the first row that are not in the second.
pub fn minus(a: u32, b: u32) -> u32
    ensures { (k : ℕ) → IsIn result k ↔ (IsIn a k × (IsIn b k → ⊥)) }
{
    a & !b
}

/// The row with each number larger by this much. What would be `ROW_BITS` or more is left out.
pub fn raised(row: u32, by: u8) -> u32
    requires { by < ROW_BITS }
    ensures { (k : ℕ) → IsIn result k ↔ ((k < ROW_BITS) × ((j : ℕ) × IsIn row j × (by + j ≡ k))) }
{
    row << by
}

/// Whether some number is in both rows.
pub fn meets(a: u32, b: u32) -> bool
    ensures { IsTrue result ↔ ((k : ℕ) × IsIn a k × IsIn b k) }
{
    a & b != 0
}
