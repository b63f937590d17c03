//! The laws: each function's contract is a theorem, and calling it does nothing.
ghost use Rattle.search_core.specs.Laws.{TheAnswerIsNeverLost, NoBetterSetIsLost, ADoneStateHasTheAnswer, ASeatHoldsOneNode, SettlingLessensTheWork, TakingLeavesTheWork, GivingBackLeavesTheWork, TheLeastCostIsTheLeastCeiling};

/// In each state that a history reaches the answer is the best set, or it lies in the region of a node
/// that is open or held.
pub fn the_answer_is_never_lost()
    ensures answer { TheAnswerIsNeverLost }
    ensures each { NoBetterSetIsLost }
{}

/// The best set of a state that is done is the answer.
pub fn a_done_state_has_the_answer()
    ensures { ADoneStateHasTheAnswer }
{}

/// Each seat holds one node at most.
pub fn a_seat_holds_one_node()
    ensures { ASeatHoldsOneNode }
{}

/// Each node that is split, cut or confirmed leaves less work, one that is taken or given back as much:
/// a search in which each node that is taken is settled ends.
pub fn settling_lessens_the_work()
    ensures settled { SettlingLessensTheWork }
    ensures taken { TakingLeavesTheWork }
    ensures given_back { GivingBackLeavesTheWork }
{}

/// The ceilings are the costs that aren't less than that of the answer.
pub fn the_least_cost_is_the_least_ceiling()
    ensures { TheLeastCostIsTheLeastCeiling }
{}
