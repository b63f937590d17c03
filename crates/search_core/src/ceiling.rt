//! Costs that a serving set doesn't pass, and why a node is cut.
ghost use Rattle.std.specs.Prelude.{◌≡◌, ◌<◌, Some, None, IfSome, MatchOption, length};
ghost use Rattle.gap_sets.specs.Order.{total};
ghost use Rattle.tso_program.specs.Listings.{gap_count};
ghost use Rattle.search_core.specs.Ceilings.{IsBound, IsCeiling};

use crate::Subject;
use gap_sets::Costs;
use oracle::Served;
use std::marker::Model;
use tso_program::Question;

/// None, or a cost that some serving set of a program doesn't pass. It takes no memory.
#[derive(Drop)]
pub struct Ceiling {
    limit: Option<Limit>,
}

/// A cost, and what it is of.
#[derive(Drop)]
struct Limit {
    cost: u64,
    subject: Subject,
}

impl Model for Ceiling {
    ghost use Rattle.std.specs.Prelude.{Option, IfSome};
    ghost use Rattle.search_core.specs.Ceilings.{Bound, IsBound};

    ghost Value = { Option Bound };

    ghost use Rattle.gap_sets.specs.contracts.gap_set.GapSet as gap_set;
    ghost use Rattle.std.specs.Coded.{codes};
    ghost use Rattle.tso_program.specs.Nodes.{tree_code};

    ghost coded = { Prim.hlevel (codes, gap_set.the_row.coded, tree_code) };

    ghost use Rattle.search_core.specs.Internal.Limits.{bound_of};

    ghost view = { λ c. bound_of c.limit };

    ghost invariant = { λ c. IfSome (bound_of c.limit) IsBound };
}

impl Ceiling {
    /// No ceiling, of every program and all costs.
    pub fn none() -> Ceiling
        ensures { result ≡ None }
    {
        Ceiling { limit: None }
    }

    /// What a serving set costs.
    pub fn of(served: &Served, costs: &Costs) -> Ceiling
        requires { length costs.now ≡ gap_count served.now.question.program.threads }
        ensures { result ≡ Some (record { question = served.now.question; costs = costs.now; cost = total costs.now served.now.gaps }) }
    {
        let cost = costs.total(&served.set());
        Ceiling::at(served.question(), costs, Some(cost))
    }

    /// None, or a cost that some serving set doesn't pass.
    pub fn at(question: &Question, costs: &Costs, cost: Option<u64>) -> Ceiling
        requires { IfSome cost (IsCeiling question.now costs.now) }
        ensures { MatchOption cost (result ≡ None) (λ c. result ≡ Some (record { question = question.now; costs = costs.now; cost = c })) }
    {
        match cost {
            Some(cost) => Ceiling {
                limit: Some(Limit {
                    cost,
                    subject: Subject::of(question, costs),
                }),
            },
            None => Ceiling::none(),
        }
    }

    /// The cost.
    pub fn cost(&self) -> Option<u64>
        ensures value { MatchOption self.now (result ≡ None) (λ bound. result ≡ Some bound.cost) }
        ensures bound { IfSome self.now IsBound }
    {
        match &self.limit {
            Some(limit) => Some(limit.cost),
            None => None,
        }
    }
}

/// Why a node is cut.
#[derive(Drop)]
pub enum Reason {
    /// There is a best set, and what the node's sets must have isn't better.
    Best,
    /// What the node's sets must have costs more.
    Ceiling(Ceiling),
}
