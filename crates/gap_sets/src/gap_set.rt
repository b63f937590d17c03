//! Sets of gap numbers in one word.
ghost use Rattle.std.specs.Prelude.{◌≡◌, ◌<◌, ◌≤◌, ◌↔◌, ℕ, IsTrue, true, All};
ghost use Rattle.std.specs.FinSet as set;
ghost use Rattle.std.specs.List.Sorted.{IsStrictlyIncreasing};
ghost use Rattle.std.specs.Iterator.{YieldsFirst, item_count};
ghost use Rattle.gap_sets.specs.Gaps.{IsGapSet, numbers_of_set};
ghost use Rattle.gap_sets.specs.Order.{HasLeastDifference};
ghost use Rattle.gap_sets.specs.declared.gap_set.TheConstants.{MAX_GAPS};

use std::marker::Model;

/// How many gaps there are at most: their numbers are below this one.
pub const MAX_GAPS: u8 = 128;

/// A set of gap numbers, each below `MAX_GAPS`. No call of it takes memory.
#[derive(Clone, Copy, Debug)]
pub struct GapSet {
    bits: u128,
}

impl Model for GapSet {
    ghost use Rattle.std.specs.Prelude.{◌<◌, ◌^◌};
    ghost use Rattle.std.specs.FinSet as set;
    ghost use Rattle.std.specs.Ordering.{nat_cmp};
    ghost use Rattle.std.specs.Coded.{coded_ℕ};
    ghost use Rattle.gap_sets.specs.Internal.Bits.{gaps_of_bits, bits_of};
    ghost use Rattle.gap_sets.specs.declared.gap_set.TheConstants.{MAX_GAPS};

    ghost Value = { set.FinSet nat_cmp };

    ghost coded = { set.code coded_ℕ };

    ghost view = { λ s. gaps_of_bits s.bits };

    ghost invariant = { λ s. s.bits < 2 ^ MAX_GAPS };

    ghost inverse = { λ v. record { bits = bits_of v } };

    ghost use Rattle.gap_sets.specs.Internal.BitsLaws.{bits_of-gaps_of};

    ghost inverse_ok = { λ s h i. record { bits = bits_of-gaps_of s.bits h i } };
}

impl GapSet {
    /// The set with no gap.
    pub fn empty() -> Self
        ensures { result ≡ set.empty }
    {
        GapSet { bits: 0 }
    }

    /// The set with this gap too.
    pub fn with(self, gap: u8) -> Self
        requires { gap < MAX_GAPS }
        ensures { result ≡ set.insert self gap }
    {
        GapSet {
            bits: self.bits | 1 << gap,
        }
    }

    /// The set without this gap.
    pub fn without(self, gap: u8) -> Self
        requires { gap < MAX_GAPS }
        ensures { result ≡ set.remove self gap }
    {
        GapSet {
            bits: self.bits & !(1 << gap),
        }
    }

    /// The gaps of either set.
    pub fn joined(self, other: GapSet) -> Self
        ensures { result ≡ set.union self other }
    {
        GapSet {
            bits: self.bits | other.bits,
        }
    }

    /// The gaps of this set that are not in the other.
    pub fn minus(self, other: GapSet) -> Self
        ensures { result ≡ set.difference self other }
    {
        GapSet {
            bits: self.bits & !other.bits,
        }
    }

    /// Whether the gap is in the set.
    pub fn has(&self, gap: u8) -> bool
        ensures value { result ≡ set.contains self.now gap }
        ensures below { IsTrue result → gap < MAX_GAPS }
    {
        gap < MAX_GAPS && self.bits >> gap & 1 == 1
    }

    /// Whether some gap is in both sets.
    pub fn meets(&self, other: &GapSet) -> bool
        ensures { IsTrue result
            ↔ ((gap : ℕ) × (set.contains self.now gap ≡ true) × (set.contains other.now gap ≡ true)) }
    {
        self.bits & other.bits != 0
    }

    /// Whether each gap of the other set is in this one.
    pub fn holds_all(&self, other: &GapSet) -> bool
        ensures { result ≡ set.is_subset other.now self.now }
    {
        other.bits & !self.bits == 0
    }

    /// Whether the two sets have the same gaps.
    pub fn same(&self, other: &GapSet) -> bool
        ensures { IsTrue result ↔ (self.now ≡ other.now) }
    {
        self.bits == other.bits
    }

    /// How many gaps are in the set.
    pub fn len(&self) -> u32
        ensures value { result ≡ set.len self.now }
        ensures gaps { IsGapSet self.now }
    {
        self.bits.count_ones()
    }

    /// For a proof alone: recalls what holds of every set.
    pub fn recall_facts(&self)
        ensures gaps { IsGapSet self.now }
    {
        let _ = self.len();
    }

    /// Whether no gap is in the set.
    pub fn is_empty(&self) -> bool
        ensures { IsTrue result ↔ (self.now ≡ set.empty) }
    {
        self.same(&GapSet::empty())
    }

    /// The gaps of the set, ascending.
    pub fn iter(&self) -> Gaps
        ensures value { result ≡ numbers_of_set self.now }
        ensures ascending { IsStrictlyIncreasing result }
        ensures members { set.from_list result ≡ self.now }
        ensures below { All (λ gap. gap < MAX_GAPS) result }
    {
        Gaps { left: self.bits }
    }

    /// Whether the least gap that is in exactly one of the two sets is in this one.
    pub(crate) fn has_least_difference(&self, other: &GapSet) -> bool
        ensures { IsTrue result ↔ HasLeastDifference self.now other.now }
    {
        let differing = self.bits ^ other.bits;
        differing != 0 && self.bits >> differing.trailing_zeros() & 1 == 1
    }
}

impl PartialEq for GapSet {
    ghost use Rattle.gap_sets.specs.Gaps.{have_same_gaps};
    ghost use Rattle.gap_sets.specs.SameGaps.{have_same_gaps-IsPartialEquivalence};

    ghost eq = { have_same_gaps };

    ghost laws = { have_same_gaps-IsPartialEquivalence };

    fn eq(&self, other: &GapSet) -> bool {
        self.same(other)
    }
}

impl Eq for GapSet {
    ghost use Rattle.gap_sets.specs.SameGaps.{have_same_gaps-IsEquivalence};

    ghost laws = { have_same_gaps-IsEquivalence };
}

/// The gaps of a set that are still to come, ascending.
#[derive(Drop)]
pub struct Gaps {
    left: u128,
}

impl Model for Gaps {
    ghost use Rattle.std.specs.Prelude.{◌<◌, ◌^◌, List, ℕ};
    ghost use Rattle.gap_sets.specs.Internal.Bits.{list_of};
    ghost use Rattle.gap_sets.specs.declared.gap_set.TheConstants.{MAX_GAPS};

    ghost Value = { List ℕ };

    ghost view = { λ s. list_of s.left };

    ghost invariant = { λ s. s.left < 2 ^ MAX_GAPS };
}

impl Iterator for Gaps {
    type Item = u8;

    ghost next_gives = { YieldsFirst (λ rest. rest) };

    ghost remaining = { item_count (λ rest. rest) };

    fn next(&mut self) -> Option<u8> {
        if self.left == 0 {
            return None;
        }
        let gap = self.left.trailing_zeros() as u8;
        self.left &= !(1 << gap);
        Some(gap)
    }
}
