//! Where the sections of threads end.
ghost use Rattle.std.specs.Prelude.{◌≡◌};
ghost use Rattle.tso_machine.specs.Modes.{machine_of_mode};
ghost use Rattle.candidate_executions.specs.Traces.{fenced_gaps};

use tso_machine::Mode;
use tso_program::Program;

/// Whether a section of thread t ends before instruction k, at a fenced gap. Sequential consistency
/// has no use for sections, and fences no gap.
pub(crate) fn ends_section(program: &Program, mode: Mode, t: u8, k: u8) -> bool
    ensures { result ≡ fenced_gaps (machine_of_mode program.now mode) t k }
{
    match mode {
        Mode::Sequential => false,
        Mode::Fenced(gaps) => match program.gap_number(t, k) {
            Some(gap) => gaps.has(gap),
            None => false,
        },
    }
}
