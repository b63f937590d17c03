//! A law of the lines before the initial values. The function does nothing: its contract is the law.
ghost use Rattle.std.specs.Prelude.{◌≡◌, ℕ, List};
ghost use Rattle.litmus_lines.specs.declared.fault.LineFault.{LineFault};
ghost use Rattle.litmus_lines.specs.Faults.{RefusesLines};

/// Two refusals of the same lines are one: its kind and its line.
pub fn one_fault_of_lines()
    ensures { (bytes lines : List ℕ) (a b : LineFault) → RefusesLines bytes lines a → RefusesLines bytes lines b → a ≡ b }
{}
