//! Where gaps lie, as it is printed.

ghost use Rattle.std.specs.Prelude.{◌≡◌, ◌++◌, OnOk, string_bytes};
ghost use Rattle.report.specs.Places.{gap_text, gaps_text};

use gap_sets::GapSet;
use std::alloc::AllocError;
use tso_program::Program;

/// Puts the places of gaps at the end of a line, ascending, each after a space.
pub fn push_gaps(line: &mut String, program: &Program, gaps: &GapSet) -> Result<(), AllocError>
    ensures { OnOk result (string_bytes line.new ≡ string_bytes line.old ++ gaps_text program.now.threads gaps.now) }
{
    for gap in gaps.iter() {
        push_gap(line, program, gap)?;
    }
    Ok(())
}

/// Puts a gap's place at the end of a line, if the program has the gap.
pub fn push_gap(line: &mut String, program: &Program, gap: u8) -> Result<(), AllocError>
    ensures { OnOk result (string_bytes line.new ≡ string_bytes line.old ++ gap_text program.now.threads gap) }
{
    if let Some((thread, k)) = program.gap_place(gap) {
        write!(line, " {thread}:{k}")?;
    }
    Ok(())
}
