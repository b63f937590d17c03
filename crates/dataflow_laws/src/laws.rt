//! The laws of data flow: each function's contract is a theorem, and calling it does nothing.
ghost use Rattle.dataflow_laws.specs.Examples.{TheLockHoldsZeroOrOne};
ghost use Rattle.dataflow_laws.specs.Laws.{DroppedLoadsKeepGaps, DeadLoadsKeepRuns, DeadLoadsKeepPasses, DeadLoadsKeepPassedGaps, DeadLoadsKeepOutcomes, DeadLoadsKeepForeignRuns, DeadLoadsKeepServing, DeadLoadsKeepTheAnswer, RunsHoldWhatTheyMay, ClosedTablesHaveAll, DroppedLoadsJumpForward, DroppedLoadsStayWithinLimits, LiveIsToldByWhatFollows, LiveAtTheEndIsTold, OneIsWithoutAllDeadLoads, DeadLoadsAddNoValues};

/// A program without some of its loads has the gaps that it had, with the same numbers, and stays within the limits.
pub fn dropped_loads_keep_gaps()
    ensures gaps { DroppedLoadsKeepGaps }
    ensures jumps { DroppedLoadsJumpForward }
    ensures limits { DroppedLoadsStayWithinLimits }
{}

/// One pass from a thread's end finds what is live, and so all dead loads.
pub fn one_pass_finds_what_is_live()
    ensures between { LiveIsToldByWhatFollows }
    ensures end { LiveAtTheEndIsTold }
    ensures one { OneIsWithoutAllDeadLoads }
{}

/// Without its dead loads a program has the same runs, label by label: the same is shown of them, and they pass the same gaps.
pub fn dead_loads_keep_runs()
    ensures runs { DeadLoadsKeepRuns }
    ensures passes { DeadLoadsKeepPasses }
    ensures passed { DeadLoadsKeepPassedGaps }
{}

/// So it has the same outcomes, and the same foreign runs.
pub fn dead_loads_keep_outcomes()
    ensures outcomes { DeadLoadsKeepOutcomes }
    ensures foreign { DeadLoadsKeepForeignRuns }
{}

/// And the same sets of gaps serve, and the same is the answer.
pub fn dead_loads_keep_the_answer()
    ensures serving { DeadLoadsKeepServing }
    ensures answer { DeadLoadsKeepTheAnswer }
{}

/// Every run holds only values that flow to where they are held.
pub fn runs_hold_what_they_may()
    ensures runs { RunsHoldWhatTheyMay }
    ensures tables { ClosedTablesHaveAll }
{}

/// Without its dead loads a program's locations may hold no other values.
pub fn dead_loads_add_no_values()
    ensures { DeadLoadsAddNoValues }
{}

/// What the lock of a spin lock may hold, where its register holds another number elsewhere.
pub fn the_lock_holds_zero_or_one()
    ensures { TheLockHoldsZeroOrOne }
{}
