//! The law: its contract is a theorem, and calling it does nothing.
ghost use Rattle.fencecheck.specs.Laws.{AcceptedInputsAreCertified};

/// Where the program accepts an input alone, the input is a litmus text and after it the text of a
/// certificate that is valid for its program with cost 1 for each gap.
pub fn accepted_inputs_are_certified()
    ensures { AcceptedInputsAreCertified }
{}
