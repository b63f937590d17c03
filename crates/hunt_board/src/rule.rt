//! What the ceiling word and the views of its seats keep, and what each step tells.
use atomic_table::{Join, Play, Split, TableRule};
use search_core::Subject;

/// What a seat knows: what the answer costs, and the least that it has read or lowered to. A spent view knows
/// nothing. No value of this type is made.
pub struct View {
    pub goal: u64,
    pub least: u64,
    pub live: bool,
}

/// The rule of the word.
pub struct WordRule;

impl TableRule<u8, View, Subject> for WordRule {
    ghost use Rattle.hunt_board.specs.Word.{Ruled, fresh, goal_of};

    ghost holds = { λ about. Ruled (goal_of about) };

    ghost first = { λ about. fresh (goal_of about) };
}

/// A load.
pub struct Loads;

impl Play<u8, View> for Loads {
    ghost use Rattle.hunt_board.specs.Word.{Loaded};

    ghost then = { Loaded };
}

/// A `fetch_min`.
pub struct Lowers;

impl Play<u8, View> for Lowers {
    ghost use Rattle.hunt_board.specs.Word.{Lowered};

    ghost then = { Lowered };
}

/// A seat that knows as much.
pub struct Splits;

impl Split<View> for Splits {
    ghost left = { λ v. v };

    ghost right = { λ v. v };
}

/// A seat that has been taken in is spent.
pub struct Joins;

impl Join<View> for Joins {
    ghost use Rattle.hunt_board.specs.Word.{both, spent};

    ghost both = { both };

    ghost spent = { spent };
}
