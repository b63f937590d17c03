//! The laws: each function's contract is a theorem, and calling it does nothing.
ghost use Rattle.the_answer.specs.Laws.{RunsAreBounded, OutcomesAreListed, EachOutcomeIsAllowedOrNot, TheTestTellsWhatServes, EachSetServesOrLeavesAnOutcome, TheBestSetIsFound, TheAnswerExists, TheAnswerIsThatSet, TheHeadlineIsOfThatSet, NoServingSetCostsLess, TheLeastCostIsLimited, TheHeadlineTellsTheAnswer};
ghost use Rattle.the_answer.specs.Examples.{StoreBufferingIsAnswered, RIsAnswered, N6IsAnswered, ObservedN6IsAnswered, LockedExchangeIsAnswered};

/// The list of what a machine shows has exactly what its runs show, and these are bounded.
pub fn outcomes_are_listed()
    ensures bounded { RunsAreBounded }
    ensures listed { OutcomesAreListed }
    ensures decided { EachOutcomeIsAllowedOrNot }
{}

/// Each set of gaps serves, or an outcome is left that no sequential run has; a test tells which.
pub fn each_set_serves_or_leaves_an_outcome()
    ensures test { TheTestTellsWhatServes }
    ensures either { EachSetServesOrLeavesAnOutcome }
{}

/// Of the sets of gaps that pass a test the best is found, where there is one.
pub fn the_best_set_is_found()
    ensures { TheBestSetIsFound }
{}

/// There is an answer: the best of the sets that serve. No other set is the answer, and none that
/// serves is cheaper. It costs no more than so many gaps may cost.
pub fn the_answer_exists()
    ensures exists { TheAnswerExists }
    ensures only { TheAnswerIsThatSet }
    ensures headline { TheHeadlineIsOfThatSet }
    ensures cost { NoServingSetCostsLess }
    ensures limit { TheLeastCostIsLimited }
{}

/// A set of which the headline holds is the answer, and its cost is the least one.
pub fn the_headline_tells_the_answer()
    ensures { TheHeadlineTellsTheAnswer }
{}

/// The definitions at programs of the literature: the answers are these.
pub fn examples_are_computed()
    ensures store_buffering { StoreBufferingIsAnswered }
    ensures r { RIsAnswered }
    ensures n6 { N6IsAnswered }
    ensures observed_n6 { ObservedN6IsAnswered }
    ensures locked_exchange { LockedExchangeIsAnswered }
{}
