//! What a ceiling is of.
ghost use Rattle.std.specs.Prelude.{◌≡◌};
ghost use Rattle.search_core.specs.Ceilings.{problem};

use gap_sets::Costs;
use std::marker::Model;
use std::snapshot::Snapshot;
use tso_program::Question;

/// A question, and the costs of its program's gaps, as clauses see them. It takes no memory.
#[derive(Drop)]
pub struct Subject {
    question: Snapshot<Question>,
    costs: Snapshot<Costs>,
}

impl Model for Subject {
    ghost use Rattle.search_core.specs.Ceilings.{Problem};

    ghost Value = { Problem };

    ghost use Rattle.gap_sets.specs.contracts.gap_set.GapSet as gap_set;
    ghost use Rattle.std.specs.Coded.{codes};
    ghost use Rattle.tso_program.specs.Nodes.{tree_code};

    ghost coded = { Prim.hlevel (codes, gap_set.the_row.coded, tree_code) };

    ghost view = { λ s. record { question = s.question.value; costs = s.costs.value } };
}

impl Subject {
    /// The question with these costs.
    pub fn of(question: &Question, costs: &Costs) -> Subject
        ensures { result ≡ problem question.now costs.now }
    {
        Subject {
            question: Snapshot::of(question),
            costs: Snapshot::of(costs),
        }
    }
}
