//! Sets of gaps, what gaps cost, which go together, and which of two sets is better.
//!
//! A gap is a place where a fence may go, by its number below `MAX_GAPS`. Of the sets that serve a program
//! the best is wanted: the cheapest, and of two equally cheap ones the one that has the least gap in which
//! they differ (least fence sets: Bouajjani, Derevenetc and Meyer, ESOP 2013).
//!
//! Begin with `GapSet`, `Costs::better` and `Region`. Free to change: how a set lies in the bits of a word,
//! and that copies of costs share one list. Relied on: that better is a strict total order, and that a proper
//! subset is better where each gap costs at least 1 (`better_is_an_order`, `a_proper_subset_is_better`);
//! without these an answer would not be the only one.
#![tactic(auto)]

mod costs;
mod gap_set;
mod laws;
mod region;
mod ties;

pub use costs::{CostFault, Costs, MAX_COST, limits_are_the_refusals};
pub use gap_set::{GapSet, Gaps, MAX_GAPS};
pub use laws::{
    a_proper_subset_is_better, a_set_stands_for_the_gaps_of_its_names, better_is_an_order,
    first_and_third_are_tied, gaps_cost_no_more_than_their_names, the_least_difference_is_a_name,
    three_gaps_of_cost_one, what_names_stand_for_is_allowed,
};
pub use region::Region;
pub use ties::{TiedCosts, Ties};
