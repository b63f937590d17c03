//! Single steps on the ceiling word. Each keeps its rule.
ghost use Rattle.std.specs.Prelude.{◌≡◌, ◌≤◌, min};
ghost use Rattle.hunt_board.specs.Word.{IsAbove, SitsAt, goal_of};

use crate::rule::{Joins, Loads, Lowers, Splits, View, WordRule};
use atomic_table::{Seat, Shared};
use search_core::Subject;

pub type SharedWord = Shared<u8, View, Subject, WordRule>;

pub type TableSeat = Seat<u8, View>;

/// Reads the word.
pub fn load(word: &SharedWord, seat: &mut TableSeat) -> u64
    requires seat { SitsAt word.now.table_id word.now.key seat.old.table_id seat.old.me }
    ensures seat { SitsAt word.now.table_id word.now.key seat.new.table_id seat.new.me }
    ensures least { (result ≤ seat.old.me.0.least) × (seat.new.me.0.least ≡ result) }
    ensures above { IsAbove (goal_of word.now.key) result }
{
    word.load::<Loads>(seat, 0)
}

/// Lowers the word, where it is higher.
pub fn lower(word: &SharedWord, seat: &mut TableSeat, to: u64)
    requires seat { SitsAt word.now.table_id word.now.key seat.old.table_id seat.old.me }
    requires to { goal_of word.now.key ≤ to }
    ensures seat { SitsAt word.now.table_id word.now.key seat.new.table_id seat.new.me }
    ensures least { (seat.new.me.0.least ≤ to) × (seat.new.me.0.least ≤ seat.old.me.0.least) }
{
    word.fetch_min::<Lowers>(seat, 0, to);
}

/// A new seat that knows as much.
pub fn split(word: &SharedWord, seat: &mut TableSeat) -> TableSeat
    requires seat { SitsAt word.now.table_id word.now.key seat.old.table_id seat.old.me }
    ensures same { (seat.new.table_id ≡ seat.old.table_id) × (seat.new.me ≡ seat.old.me) }
    ensures made { (result.table_id ≡ word.now.table_id) × (result.me ≡ seat.old.me) }
{
    word.split_seat::<Splits>(seat)
}

/// Takes another seat in. What the two know, the one knows.
pub fn join(word: &SharedWord, seat: &mut TableSeat, other: TableSeat)
    requires seat { SitsAt word.now.table_id word.now.key seat.old.table_id seat.old.me }
    requires other { SitsAt word.now.table_id word.now.key other.table_id other.me }
    ensures seat { SitsAt word.now.table_id word.now.key seat.new.table_id seat.new.me }
    ensures least { seat.new.me.0.least ≡ min seat.old.me.0.least other.me.0.least }
{
    word.join_seat::<Joins>(seat, other);
}
