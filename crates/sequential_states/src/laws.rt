//! The laws of executed instructions: each function's contract is a theorem, and calling it does nothing.
ghost use Rattle.sequential_states.specs.Examples.{StoreBufferingIsExecuted, ABranchIsTold};

/// The definitions at store buffering and at a branch that no run takes.
pub fn executions_are_told()
    ensures store_buffering { StoreBufferingIsExecuted }
    ensures branch { ABranchIsTold }
{}
