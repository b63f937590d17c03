//! Laws of the order on sets of gaps. Each function does nothing: its contract is the law.
ghost use Rattle.gap_sets.specs.TieLaws.{ASetStandsForTheGapsOfItsNames, ANameIsNoGreater, FirstAndThirdAreTied, GapsCostNoMoreThanTheirNames, TheLeastDifferenceIsAName, TheNamesOfASetAreThoseOfItsGaps, WhatNamesStandForIsAllowed, NamesAreThoseOfWhatTheyStandFor, WithoutTiesNothingChanges};
ghost use Rattle.gap_sets.specs.Laws.{NoSetIsBetterThanItself, BetterIsTransitive, BetterIsTotal, ProperSubsetIsBetter, ThreeGapsOfCostOne};

/// The order is strict and total on sets of gaps, whatever the costs.
pub fn better_is_an_order()
    ensures irreflexive { NoSetIsBetterThanItself }
    ensures transitive { BetterIsTransitive }
    ensures total { BetterIsTotal }
{}

/// Where each gap has a cost and none is free, a proper subset is better than the set.
pub fn a_proper_subset_is_better()
    ensures { ProperSubsetIsBetter }
{}

/// What the definitions say of three gaps of cost 1.
pub fn three_gaps_of_cost_one()
    ensures { ThreeGapsOfCostOne }
{}

/// A set of names stands for exactly the gaps whose name is in it, and a name is no greater than its gap. Without ties nothing
/// changes.
pub fn a_set_stands_for_the_gaps_of_its_names()
    ensures stands { ASetStandsForTheGapsOfItsNames }
    ensures names { TheNamesOfASetAreThoseOfItsGaps }
    ensures least { ANameIsNoGreater }
    ensures without { WithoutTiesNothingChanges }
{}

/// What names stand for has of each tie all gaps or none, and where each is the name of a tie, they are its names.
pub fn what_names_stand_for_is_allowed()
    ensures allowed { WhatNamesStandForIsAllowed }
    ensures names { NamesAreThoseOfWhatTheyStandFor }
{}

/// Of two sets that have of each tie all gaps or none, the first has the least gap in which they differ exactly where this
/// holds of their names.
pub fn the_least_difference_is_a_name()
    ensures { TheLeastDifferenceIsAName }
{}

/// What names stand for costs no more than they do, where each of them costs at least what it stands for.
pub fn gaps_cost_no_more_than_their_names()
    ensures { GapsCostNoMoreThanTheirNames }
{}

/// The definitions on a worked example: of four gaps the first and the third are tied.
pub fn first_and_third_are_tied()
    ensures { FirstAndThirdAreTied }
{}
