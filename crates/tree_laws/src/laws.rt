//! The laws: each function's contract is a theorem, and calling it does nothing.
ghost use Rattle.cert_forest.specs.Rule.{Rule};
ghost use Rattle.tree_laws.specs.Laws.{AValidCoverCovers, ACoveredListHasEachOutcome, AValidTreeMakesTheSequentialList, AValidFencedTreeServes, TiesChangeNoCover, ATighterModeKeepsACover, ATighterModeKeepsTheValues, ATighterModeKeepsAWholeSketch, ATighterModeKeepsASettledRead, ASplitLosesNoSet, TheCheapestOfEachAreTheBest, EachCostsAtLeastTheSum, ABoundByRunsLeavesNoBetter, NoRunsBoundByMust, AValidGapTreeAvoidsEachBetter, AValidGapTreeLeavesNoBetter, SoNoServingSetIsBetter, TheRootHasEverySet, AValidCertificateProves, CoversAreJudgedInOrder, GapsAreJudgedInOrder, TheValuesAreOneList, TheSourcesAreOneList, TheChoicesAreOneList, TheGapsAreOneList, TheCheapestAreOneList, TheBoundIsDecided};
ghost use Rattle.tree_laws.specs.StoreBuffering.{StoreBufferingIsCertified};
ghost use Rattle.tree_laws.specs.OwnStore.{OwnStoreIsTold};

/// Where a cover tree is valid at a sketch by a rule, each consistent completion of the sketch has an
/// outcome of the list.
pub fn a_valid_cover_tree_covers()
    ensures { (rule : Rule) → AValidCoverCovers rule }
{}

/// Where a cover tree is valid at the sketch with no choice, the list has every outcome of the machine;
/// and where the list is that of sequential runs, it has the sequential outcomes and no others.
pub fn a_valid_tree_lists_every_outcome()
    ensures each { ACoveredListHasEachOutcome }
    ensures sequential { (rule : Rule) → AValidTreeMakesTheSequentialList rule }
{}

/// A set of gaps with a valid cover tree over the sequential outcomes serves.
pub fn a_valid_fenced_tree_serves()
    ensures { (rule : Rule) → AValidFencedTreeServes rule }
{}

/// A cover tree that is valid is valid whatever gaps go together.
pub fn ties_change_no_cover()
    ensures { (rule : Rule) → TiesChangeNoCover rule }
{}

/// A cover tree that is valid in a mode is valid in each mode that is no looser, as one of that mode. Which
/// reads have a value, the values of the next, and which reads are settled stay the same.
pub fn a_tighter_mode_keeps_a_cover()
    ensures cover { (rule : Rule) → ATighterModeKeepsACover rule }
    ensures values { (rule : Rule) → ATighterModeKeepsTheValues rule }
    ensures whole { ATighterModeKeepsAWholeSketch }
    ensures settled { ATighterModeKeepsASettledRead }
{}

/// The children of a region hold every set of it that has one of the gaps.
pub fn a_split_loses_no_set()
    ensures { ASplitLosesNoSet }
{}

/// Of the sets that hold some gaps and have one of each list of a packing, the one with the cheapest of each
/// list is the best.
pub fn a_packing_bounds_each_set()
    ensures best { TheCheapestOfEachAreTheBest }
    ensures cost { EachCostsAtLeastTheSum }
{}

/// Where runs bound a region, each better set of it leaves an outcome that no sequential run has. No runs bound it
/// exactly where what its sets must have is not better.
pub fn a_bound_by_runs_leaves_no_better()
    ensures leaves { ABoundByRunsLeavesNoBetter }
    ensures alone { NoRunsBoundByMust }
{}

/// A valid gap tree says of each better set of its region which run passes none of its gaps. Where the runs are foreign
/// the set leaves that run's outcome, so it does not serve. At the root that is every set of the program's gaps.
pub fn a_valid_gap_tree_leaves_no_better()
    ensures avoided { AValidGapTreeAvoidsEachBetter }
    ensures leaves { AValidGapTreeLeavesNoBetter }
    ensures serving { SoNoServingSetIsBetter }
    ensures root { TheRootHasEverySet }
{}

/// Children are judged in their order, each at its own sketch or for its own region.
pub fn children_are_judged_in_order()
    ensures covers { (rule : Rule) → CoversAreJudgedInOrder rule }
    ensures gaps { GapsAreJudgedInOrder }
{}

/// What the children of a node are for is determined: a tree with another number of children is not
/// valid.
pub fn the_children_are_determined()
    ensures values { (rule : Rule) → TheValuesAreOneList rule }
    ensures sources { (rule : Rule) → TheSourcesAreOneList rule }
    ensures choices { (rule : Rule) → TheChoicesAreOneList rule }
    ensures gaps { TheGapsAreOneList }
    ensures cheapest { TheCheapestAreOneList }
    ensures bound { TheBoundIsDecided }
{}

/// The headline holds of the set of a valid certificate, whichever rule it has; the set is then the answer. Its runs
/// are foreign, and of each better set one of them passes no gap.
pub fn a_valid_certificate_proves_the_headline()
    ensures { AValidCertificateProves }
{}

/// The definitions at store buffering: its certificate is valid, both gaps are the answer, and a gap tree of one
/// bound by two runs is valid too.
pub fn store_buffering_is_certified()
    ensures { StoreBufferingIsCertified }
{}

/// The definitions at a thread that loads what it has stored: an early tree closes before the other thread's
/// load has a value, and isn't valid by the rule of whole sketches.
pub fn own_store_is_told()
    ensures { OwnStoreIsTold }
{}
