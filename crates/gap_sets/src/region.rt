//! Regions of sets of gaps.
ghost use Rattle.std.specs.Prelude.{◌≡◌, ◌<◌, ◌↔◌, IsTrue};
ghost use Rattle.gap_sets.specs.declared.gap_set.TheConstants.{MAX_GAPS};
ghost use Rattle.gap_sets.specs.Regions.{all_sets, with_gap, without_gap};

use crate::gap_set::GapSet;

/// The sets of gaps that hold each gap of one set and no gap of another. A search for the best set splits regions
/// until it knows what each holds.
#[derive(Clone, Copy)]
pub struct Region {
    /// The gaps that each set of the region holds.
    pub must: GapSet,
    /// The gaps that no set of the region holds.
    pub never: GapSet,
}

impl Region {
    /// The region of all sets.
    pub fn all() -> Region
        ensures { result ≡ all_sets }
    {
        Region {
            must: GapSet::empty(),
            never: GapSet::empty(),
        }
    }

    /// The sets of the region that hold the gap.
    pub fn with(&self, gap: u8) -> Region
        requires { gap < MAX_GAPS }
        ensures { result ≡ with_gap self.now gap }
    {
        Region {
            must: self.must.with(gap),
            never: self.never,
        }
    }

    /// The sets of the region that do not hold the gap.
    pub fn without(&self, gap: u8) -> Region
        requires { gap < MAX_GAPS }
        ensures { result ≡ without_gap self.now gap }
    {
        Region {
            must: self.must,
            never: self.never.with(gap),
        }
    }

    /// Whether both hold and avoid the same gaps.
    pub fn same(&self, other: &Region) -> bool
        ensures { IsTrue result ↔ (self.now ≡ other.now) }
    {
        self.must.same(&other.must) && self.never.same(&other.never)
    }
}
