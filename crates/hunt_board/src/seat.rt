//! What one worker has in hand.
ghost use Rattle.std.specs.Prelude.{◌≡◌, false, min, Some, None, IfSome, IsTrue, MatchOption};
ghost use Rattle.gap_sets.specs.Order.{Better};
ghost use Rattle.gap_sets.specs.declared.region.Region.{Region};
ghost use Rattle.search_core.specs.Facts.{Serving, IsServing};
ghost use Rattle.search_core.specs.Events.{IsBeatenBy, IsBestAfter};
ghost use Rattle.hunt_board.specs.Seats.{SeatView, holding_node, with_best, with_known};
ghost use Rattle.hunt_board.specs.Settlings.{IsOwnBestAfter};
ghost use Rattle.hunt_board.specs.Word.{IsSeatOf, with_least};
ghost use Rattle.hunt_board.specs.Internal.Confirmed.{serving_of, newer, IsKept};

use crate::settling::Settling;
use crate::word::{CeilingWord, WordSeat};
use gap_sets::{Costs, GapSet, Region};
use search_core::{Served, Verdict};
use std::marker::Model;
use std::snapshot::Snapshot;

/// A place at a hunt for one worker: its number, the node that it holds, the best set that it has itself
/// confirmed, its seat at the ceiling word, and how many runs it has posted.
#[derive(Drop)]
pub struct HuntSeat {
    pub(crate) number: u8,
    pub(crate) node: Option<Region>,
    pub(crate) best: Option<Confirmed>,
    pub(crate) word: WordSeat,
    pub(crate) posted: usize,
}

/// A set that was confirmed. That it serves is for proofs alone.
#[derive(Drop)]
pub(crate) struct Confirmed {
    pub(crate) set: GapSet,
    pub(crate) served: Snapshot<Served>,
}

impl Model for HuntSeat {
    ghost use Rattle.std.specs.Prelude.{◌≡◌, IfSome};
    ghost use Rattle.hunt_board.specs.Seats.{SeatView};
    ghost use Rattle.hunt_board.specs.Internal.Confirmed.{serving_of, IsKept};

    ghost Value = { SeatView };

    ghost use Rattle.gap_sets.specs.contracts.gap_set.GapSet as gap_set;
    ghost use Rattle.std.specs.Coded.{codes};
    ghost use Rattle.tso_program.specs.Nodes.{tree_code};
    ghost use Rattle.search_core.specs.CoverCodes.{coded_cover};

    ghost coded = { Prim.hlevel (codes, gap_set.the_row.coded, coded_cover, tree_code) };

    ghost view = { λ s. record { number = s.number; node = s.node; best = serving_of s.best; known = s.word; posted = s.posted } };

    ghost invariant = { λ s. IfSome s.best IsKept };
}

impl HuntSeat {
    /// The seat's number.
    pub fn number(&self) -> u8
        ensures { result ≡ self.now.number }
    {
        self.number
    }

    /// The node that the seat holds.
    pub fn node(&self) -> Option<Region>
        ensures { result ≡ self.now.node }
    {
        self.node
    }

    /// The best set that the seat has itself confirmed.
    pub fn best(&self) -> Option<GapSet>
        ensures { MatchOption self.now.best (result ≡ None) (λ best. (result ≡ Some best.gaps) × IsServing best) }
    {
        match &self.best {
            Some(best) => Some(best.set),
            None => None,
        }
    }

    /// Whether the seat has confirmed a set that this one isn't better than.
    pub fn has_as_good(&self, costs: &Costs, set: &GapSet) -> bool
        ensures yes { IsTrue result → IsBeatenBy costs.now self.now.best set.now }
        ensures no { result ≡ false → IfSome self.now.best (λ old. Better costs.now set.now old.gaps) }
    {
        match &self.best {
            Some(best) => !costs.better(set, &best.set),
            None => false,
        }
    }

    /// A seat that holds nothing, has confirmed nothing and has posted nothing.
    pub(crate) fn new(number: u8, word: WordSeat) -> HuntSeat
        ensures { result ≡ record { number = number; node = None; best = None; known = word; posted = 0 } }
    {
        HuntSeat {
            number,
            node: None,
            best: None,
            word,
            posted: 0,
        }
    }

    /// The set that a settling confirms, where the seat has confirmed none that is as good.
    pub(crate) fn new_best(&self, costs: &Costs, how: &Settling) -> Option<Confirmed>
        ensures best { IsOwnBestAfter costs.now how.now self.now.best (newer self.now.best (serving_of result)) }
        ensures kept { IfSome result IsKept }
    {
        let Settling::Asked(Verdict::Serves(served)) = how else {
            return None;
        };
        self.newer_best(costs, served)
    }

    /// The set, where the seat has confirmed none that is as good.
    fn newer_best(&self, costs: &Costs, served: &Served) -> Option<Confirmed>
        ensures best { IsBestAfter costs.now served.now self.now.best (newer self.now.best (serving_of result)) }
        ensures kept { IfSome result IsKept }
    {
        served.recall_facts();
        let set = served.set();
        if self.has_as_good(costs, &set) {
            return None;
        }
        Some(Confirmed {
            set,
            served: Snapshot::of(served),
        })
    }

    /// The seat holds nothing more, and the set, if there is one, is its best.
    pub(crate) fn let_go(&mut self, best: Option<Confirmed>)
        requires { IfSome best IsKept }
        ensures { self.new ≡ with_best (holding_node self.old None) (newer self.old.best (serving_of best)) }
    {
        self.node = None;
        if best.is_some() {
            self.best = best;
        }
    }

    /// What another seat knows of the ceiling word, this one knows too; the other is spent.
    pub(crate) fn take_in(&mut self, word: &CeilingWord, other: HuntSeat)
        requires of { IsSeatOf word.now self.old.known }
        requires other { IsSeatOf word.now other.known }
        ensures { self.new ≡ with_known self.old (with_least self.old.known (min self.old.known.least other.known.least)) }
    {
        let HuntSeat {
            number: _,
            node: _,
            best: _,
            word: other,
            posted: _,
        } = other;
        word.join(&mut self.word, other);
    }
}
