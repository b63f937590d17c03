//! The laws of the machines: each function's contract is a theorem, and calling it does nothing.
ghost use Rattle.tso_machine.specs.Laws.{EveryRunIsShort, RunsHaveNoFault, CausesStopSteps, TheFirstReplayFaultIsUnique, FencesAreAvoided, AllShownAreTheRuns, AllShownAreTheOutcomes};
ghost use Rattle.tso_machine.specs.Examples.{StoreBufferingIsTold, RIsTold, N6IsTold, LockedExchangeIsTold};
ghost use Rattle.tso_machine.specs.FenceLaws.{SequentialRunsAreAllowed, FencedRunsPassNoGapOfTheSet, PassedGapsTellTheFencedRuns, ProgramsJumpForward, TheEmptySetFencesNothing, ARunThatPassesNothingIsSequential, ARunWithNothingPassedIsSequential, AllGapsServe, FencingIsTheMachineWithGaps, FencingKeepsSequentialOutcomes, TheAnswerIsTheOnlyOne, TheHeadlineIsTheAnswer, WhatServesServesEachPart, WhatServesForAllServes, WhatServesServesTheTruth, AnObservedAnswerCostsNoMore, ATruthsAnswerCostsNoMore, AServedTruthIsKept};
ghost use Rattle.tso_machine.specs.TieLaws.{AnAnswerWithoutTiesCostsNoMore, FencedRunsPassNoName, NamesOfPassedGapsArePassed, NamesServeAsTheirGaps, PassedNamesTellTheFencedRuns, TheAnswerIsTheBestAllowedSet, WithoutTiesAGapIsItsName, WithoutTiesPassedNamesAreGaps};

/// Where no thread has more than n instructions, a run has at most 2n labels for each thread.
pub fn every_run_is_short()
    ensures { EveryRunIsShort }
{}

/// Labels that are a run have no fault but out of memory.
pub fn runs_have_no_fault()
    ensures { RunsHaveNoFault }
{}

/// A cause that applies to a step of a replay makes the step impossible, and two faults that both fit a
/// replay are the same unless one is out of memory: a replay that is refused has one answer.
pub fn the_first_fault_is_unique()
    ensures stops { CausesStopSteps }
    ensures unique { TheFirstReplayFaultIsUnique }
{}

/// A run with no gap fenced is a run with other gaps fenced exactly where it passes none of those.
pub fn fences_are_avoided()
    ensures { FencesAreAvoided }
{}

/// Where everything is shown, a run shows its outcome, and what a machine's runs show are its outcomes.
pub fn all_shown_are_the_outcomes()
    ensures runs { AllShownAreTheRuns }
    ensures outcomes { AllShownAreTheOutcomes }
{}

/// The definitions at four programs of the literature, whose runs end as they say there.
pub fn examples_are_told()
    ensures store_buffering { StoreBufferingIsTold }
    ensures r { RIsTold }
    ensures n6 { N6IsTold }
    ensures locked_exchange { LockedExchangeIsTold }
{}

/// Each sequential outcome is a store buffer outcome, whatever gaps are fenced.
pub fn sequential_runs_are_allowed()
    ensures { SequentialRunsAreAllowed }
{}

/// The runs of the store buffer machine with a set of gaps fenced are its runs with none fenced that
/// pass no gap of the set.
pub fn fenced_runs_pass_no_gap_of_the_set()
    ensures avoided { FencedRunsPassNoGapOfTheSet }
    ensures passed { PassedGapsTellTheFencedRuns }
    ensures empty { TheEmptySetFencesNothing }
{}

/// Jumps of a program within the limits lead forward, which the laws of runs that pass no gap ask for.
pub fn programs_jump_forward()
    ensures { ProgramsJumpForward }
{}

/// A run of the store buffer machine that passes no gap ends as some sequential run does.
pub fn a_run_that_passes_nothing_is_sequential()
    ensures no_gap { ARunThatPassesNothingIsSequential }
    ensures empty_set { ARunWithNothingPassedIsSequential }
{}

/// A set that has every gap of the program serves.
pub fn all_gaps_serve()
    ensures { AllGapsServe }
{}

/// Fences in a program's text and gaps fenced in its machine leave the same outcomes.
pub fn fencing_is_the_machine_with_gaps()
    ensures buffered { FencingIsTheMachineWithGaps }
    ensures sequential { FencingKeepsSequentialOutcomes }
{}

/// No two sets of gaps are both the answer to a question with the same costs.
pub fn the_answer_is_the_only_one()
    ensures { TheAnswerIsTheOnlyOne }
{}

/// What is said of the fenced program's text is said of the set of gaps, and the other way round.
pub fn the_headline_is_the_answer()
    ensures { TheHeadlineIsTheAnswer }
{}

/// A set of gaps that serves where more is shown serves where what is shown can be read off it: where a part is
/// shown, or the truth of a formula that speaks of nothing else.
pub fn what_serves_serves_each_part()
    ensures part { WhatServesServesEachPart }
    ensures all { WhatServesForAllServes }
    ensures truth { WhatServesServesTheTruth }
{}

/// Where less is shown the answer costs no more than where more is.
pub fn an_observed_answer_costs_no_more()
    ensures part { AnObservedAnswerCostsNoMore }
    ensures truth { ATruthsAnswerCostsNoMore }
{}

/// A set serves for a formula's truth exactly where it keeps the truths that sequential runs leave.
pub fn a_served_truth_is_kept()
    ensures { AServedTruthIsKept }
{}

/// With the gaps of some names fenced exactly those runs are left that pass none of these names: they serve as their gaps
/// do. Without ties a name is its gap, and a run passes the names of the gaps that it passes.
pub fn passed_names_tell_the_fenced_runs()
    ensures names { FencedRunsPassNoName }
    ensures tell { PassedNamesTellTheFencedRuns }
    ensures passed { NamesOfPassedGapsArePassed }
    ensures serve { NamesServeAsTheirGaps }
    ensures without { WithoutTiesAGapIsItsName }
    ensures own_gaps { WithoutTiesPassedNamesAreGaps }
{}

/// The gaps that an answer's names stand for are the best set that has of each tie all gaps or none, where a tie costs once.
pub fn the_answer_is_the_best_allowed_set()
    ensures { TheAnswerIsTheBestAllowedSet }
{}

/// Without ties the answer costs no more than with them, where a tie costs at least what its gaps cost together.
pub fn an_answer_without_ties_costs_no_more()
    ensures { AnAnswerWithoutTiesCostsNoMore }
{}
