//! Gaps by their places.

ghost use Rattle.std.specs.Prelude.{IfErr, IfOk};
ghost use Rattle.witness_text.specs.FencedGaps.{AreGapsAt, IsFirstWithoutGap};

use gap_sets::GapSet;
use tso_program::Program;

/// The gaps of a program at these places. The error is the first place where it has none.
pub fn gaps_at(program: &Program, places: &[(u8, u8)]) -> Result<GapSet, (u8, u8)>
    ensures gaps { IfOk result (AreGapsAt program.now.threads places.now) }
    ensures none { IfErr result (IsFirstWithoutGap program.now.threads places.now) }
{
    let mut gaps = GapSet::empty();
    for place in places {
        match program.gap_number(place.0, place.1) {
            Some(gap) => gaps = gaps.with(gap),
            None => return Err(*place),
        }
    }
    Ok(gaps)
}
