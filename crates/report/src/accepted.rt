//! The line of a certificate that is accepted.

ghost use Rattle.std.specs.Prelude.{◌≡◌, IfOk};
ghost use Rattle.report.specs.Answers.{accepted_line};

use crate::answers::set_line;
use gap_sets::GapSet;
use std::alloc::{AllocError, Global};
use tso_program::{Program, Shown};

/// The set of gaps that is the program's answer, as far as its outcomes are shown, by their places, and
/// what it costs.
pub fn accepted_line(
    alloc: Global,
    program: &Program,
    shown: &Shown,
    set: GapSet,
    cost: u64,
) -> Result<Vec<u8>, AllocError>
    ensures { IfOk result (λ line. line.items ≡ accepted_line program.now shown.now set cost) }
{
    set_line(alloc, "accepted", program, shown, set, cost)
}
