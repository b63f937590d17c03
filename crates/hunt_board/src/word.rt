//! The ceiling word: a number beside the lock, which workers read and lower without waiting.
ghost use Rattle.std.specs.Prelude.{◌≡◌, ◌≤◌, IfOk, IfSome, min};
ghost use Rattle.gap_sets.specs.Order.{total};
ghost use Rattle.search_core.specs.Ceilings.{IsCeilingOf, problem};
ghost use Rattle.hunt_board.specs.Word.{HasLowered, IsSeatOf, goal_of, no_ceiling, ceiling_number, number_of, with_least};

use crate::rule::{View, WordRule};
use crate::steps;
use crate::steps::TableSeat;
use atomic_table::Table;
use gap_sets::Costs;
use search_core::{Ceiling, Served, Subject};
use std::alloc::{AllocError, Global};
use std::marker::Model;
use tso_program::Question;

/// The word: none, or a cost that some serving set doesn't pass. No call but `new` takes memory, and none waits.
#[derive(Drop)]
pub struct CeilingWord {
    table: Table<u8, View, Subject, WordRule, Global>,
}

impl Model for CeilingWord {
    ghost use Rattle.hunt_board.specs.Word.{Word, word_with};

    ghost Value = { Word };

    ghost use Rattle.gap_sets.specs.contracts.gap_set.GapSet as gap_set;
    ghost use Rattle.std.specs.Coded.{codes};
    ghost use Rattle.tso_program.specs.Nodes.{tree_code};

    ghost coded = { Prim.hlevel (codes, gap_set.the_row.coded, tree_code) };

    ghost view = { λ w. word_with w.table.shared.key w.table.shared.table_id };
}

/// What one worker has of the word. It takes no bytes.
#[derive(Drop)]
pub struct WordSeat {
    seat: TableSeat,
}

impl Model for WordSeat {
    ghost use Rattle.std.specs.Prelude.{◌≡◌};
    ghost use Rattle.hunt_board.specs.Word.{Known, IsLiveSeat};

    ghost Value = { Known };

    ghost view = { λ s. record { table = s.seat.table_id; goal = s.seat.me.0.goal; least = s.seat.me.0.least } };

    ghost invariant = { λ s. IsLiveSeat s.seat.me.0.goal s.seat.me × (s.seat.table_id.words ≡ 1) };
}

impl CeilingWord {
    /// A word that holds no ceiling yet, with its first seat.
    pub fn new(
        alloc: Global,
        question: &Question,
        costs: &Costs,
    ) -> Result<(CeilingWord, WordSeat), AllocError>
        ensures word { IfOk result (λ r. r.0.problem ≡ problem question.now costs.now) }
        ensures seat { IfOk result (λ r. IsSeatOf r.0 r.1 × (r.1.least ≡ no_ceiling)) }
    {
        let subject = Subject::of(question, costs);
        let (table, seat) = Table::of_words(alloc, &[u64::MAX], &subject)?;
        Ok((CeilingWord { table }, WordSeat { seat }))
    }

    /// A second seat, which knows as much.
    pub fn split(&self, seat: &mut WordSeat) -> WordSeat
        requires { IsSeatOf self.now seat.old }
        ensures same { seat.new ≡ seat.old }
        ensures made { result ≡ seat.old }
    {
        WordSeat {
            seat: steps::split(&self.table.shared, &mut seat.seat),
        }
    }

    /// Takes another seat in, which is spent.
    pub fn join(&self, seat: &mut WordSeat, other: WordSeat)
        requires seat { IsSeatOf self.now seat.old }
        requires other { IsSeatOf self.now other }
        ensures { seat.new ≡ with_least seat.old (min seat.old.least other.least) }
    {
        steps::join(&self.table.shared, &mut seat.seat, other.seat);
    }

    /// What the word holds: none, or a cost that isn't below the answer's.
    fn load(&self, seat: &mut WordSeat) -> Option<u64>
        requires { IsSeatOf self.now seat.old }
        ensures least { number_of result ≤ seat.old.least }
        ensures goal { IfSome result (λ cost. goal_of self.now.problem ≤ cost) }
        ensures seat { seat.new ≡ with_least seat.old (number_of result) }
    {
        let found = steps::load(&self.table.shared, &mut seat.seat);
        if found == u64::MAX { None } else { Some(found) }
    }

    /// Lowers the word, where it is higher.
    fn lower_to(&self, seat: &mut WordSeat, to: u64)
        requires seat { IsSeatOf self.now seat.old }
        requires goal { goal_of self.now.problem ≤ to }
        ensures { HasLowered seat.old seat.new to }
    {
        steps::lower(&self.table.shared, &mut seat.seat, to);
    }

    /// What the word holds, as a ceiling of the question and the costs.
    pub fn ceiling(&self, seat: &mut WordSeat, question: &Question, costs: &Costs) -> Ceiling
        requires seat { IsSeatOf self.now seat.old }
        requires problem { self.now.problem ≡ problem question.now costs.now }
        ensures of { IsCeilingOf question.now costs.now result }
        ensures least { ceiling_number result ≤ seat.old.least }
        ensures seat { seat.new ≡ with_least seat.old (ceiling_number result) }
    {
        question.program.recall_facts();
        Ceiling::at(question, costs, self.load(seat))
    }

    /// Lowers the word to what a serving set costs, where it is higher.
    pub fn lower(&self, seat: &mut WordSeat, served: &Served, costs: &Costs)
        requires seat { IsSeatOf self.now seat.old }
        requires problem { self.now.problem ≡ problem served.now.question costs.now }
        ensures { HasLowered seat.old seat.new (total costs.now served.now.gaps) }
    {
        let program = served.program();
        program.recall_facts();
        let to = costs.total(&served.set());
        self.lower_to(seat, to);
    }
}
