//! Counting the gaps at which a split opens nodes.
ghost use Rattle.std.specs.Prelude.{◌≡◌, length};
ghost use Rattle.gap_sets.specs.Regions.{open_gaps};

use gap_sets::GapSet;

/// How many gaps are in the first set and not in the second.
pub(crate) fn count_open(passed: GapSet, never: GapSet) -> usize
    ensures { result ≡ length (open_gaps passed never) }
{
    let mut count = 0;
    for gap in passed.iter() {
        if !never.has(gap) {
            count += 1;
        }
    }
    count
}
