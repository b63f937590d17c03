//! The status of a check.

ghost use Rattle.std.specs.Prelude.{◌≡◌};
ghost use Rattle.answers.specs.Statuses.{check_status};

/// The status where a check finds a fault.
const FAULT_FOUND: u8 = 3;

/// The status of an answer: 3 where a check is asked for and finds a fault, and 0 otherwise.
pub fn check_status(check: bool, fault: bool) -> u8
    ensures { result ≡ check_status check fault }
{
    if check && fault { FAULT_FOUND } else { 0 }
}
