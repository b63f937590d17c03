//! Relations, and what they lead to.
ghost use Rattle.std.specs.Prelude.{◌≡◌, ◌↔◌, ◌⊎◌, ◌<◌, ◌≤◌, ℕ, List, IsTrue, MatchOption, length};
ghost use Rattle.bit_rows.specs.Rows.{IsIn, RowHas, Reaches, LeadsInto, Meets, AreConnected, HasRound, IsTransitive};
ghost use Rattle.bit_rows.specs.declared.row.TheConstants.{ROW_BITS};

use crate::row::{ROW_BITS, common, has, has_any, joined, lowest, meets, with, without};
use std::marker::Model;

/// A relation between the numbers below 32. No call of it takes memory.
#[derive(Drop)]
pub struct Relation {
    next: [u32; ROW_BITS],
    reach: [u32; ROW_BITS],
    round: bool,
}

impl Model for Relation {
    ghost use Rattle.std.specs.Prelude.{◌↔◌, List, ℕ, IsTrue};

    ghost Value = { List ℕ };

    ghost use Rattle.bit_rows.specs.Rows.{IsReach, HasRound};

    ghost view = { λ r. r.next };

    ghost invariant = { λ r. IsReach r.next r.reach × (IsTrue r.round ↔ HasRound r.next) };
}

impl Relation {
    /// No number is related to any.
    pub fn empty() -> Relation
        ensures { (d e : ℕ) → RowHas result d e → ⊥ }
    {
        Relation {
            next: [0; ROW_BITS],
            reach: [0; ROW_BITS],
            round: false,
        }
    }

    /// The order with these rows: what a number leads to is what it is related to.
    pub fn of_order(rows: [u32; ROW_BITS]) -> Relation
        requires transitive { IsTransitive rows }
        requires irreflexive { (d : ℕ) → RowHas rows d d → ⊥ }
        ensures { result ≡ rows }
    {
        Relation {
            next: rows,
            reach: rows,
            round: false,
        }
    }

    /// A copy of the relation.
    pub fn copy(&self) -> Relation
        ensures { result ≡ self.now }
    {
        Relation {
            next: self.next,
            reach: self.reach,
            round: self.round,
        }
    }

    /// Whether d is related to e.
    pub fn has(&self, d: u8, e: u8) -> bool
        requires from { d < ROW_BITS }
        requires to { e < ROW_BITS }
        ensures { IsTrue result ↔ RowHas self.now d e }
    {
        has(self.next[d as usize], e)
    }

    /// The numbers to which d is related.
    pub fn row(&self, d: u8) -> u32
        requires { d < ROW_BITS }
        ensures { (e : ℕ) → IsIn result e ↔ RowHas self.now d e }
    {
        self.next[d as usize]
    }

    /// The numbers to which a path leads from d.
    pub fn reach(&self, d: u8) -> u32
        requires { d < ROW_BITS }
        ensures { (e : ℕ) → IsIn result e ↔ Reaches self.now d e }
    {
        self.reach[d as usize]
    }

    /// RowHas each number of the first row to each of the second.
    pub fn connect(&mut self, from: u32, to: u32)
        ensures { AreConnected self.old from to self.new }
    {
        if !has_any(from) || !has_any(to) {
            return;
        }
        let beyond = reached(&self.reach, to);
        put_rows(&mut self.next, from, to);
        put_reach(&mut self.reach, from, beyond);
        self.round = either(self.round, meets(beyond, from));
    }

    /// Whether a path leads back to where it began.
    pub fn has_round(&self) -> bool
        ensures { IsTrue result ↔ HasRound self.now }
    {
        self.round
    }

    /// The numbers that a path leads back to.
    pub fn on_cycles(&self) -> u32
        ensures { (d : ℕ) → IsIn result d ↔ Reaches self.now d d }
    {
        let mut found = 0;
        for d in 0..ROW_BITS as u8 {
            let itself = common(self.reach[d as usize], with(0, d));
            found = joined(found, itself);
        }
        found
    }
}

/// The numbers of a row, and those to which paths lead from them.
fn reached(reach: &[u32], row: u32) -> u32
    requires { length reach.now ≡ ROW_BITS }
    ensures { (e : ℕ) → IsIn result e ↔ (IsIn row e ⊎ LeadsInto reach.now row e) }
{
    let mut all = row;
    let mut left = row;
    while let Some(d) = lowest(left) {
        all = joined(all, reach[d as usize]);
        left = without(left, d);
    }
    all
}

/// Puts the numbers of one row into the rows of the other's numbers.
pub fn put_rows(next: &mut [u32], from: u32, to: u32)
    requires { length next.old ≡ ROW_BITS }
    ensures { AreConnected next.old from to next.new }
{
    let mut left = from;
    while let Some(d) = lowest(left) {
        next[d as usize] = joined(next[d as usize], to);
        left = without(left, d);
    }
}

/// Puts the numbers of one row into the rows of the other's numbers, and of those from which a path
/// leads to one of these.
fn put_reach(reach: &mut [u32], from: u32, beyond: u32)
    requires { length reach.old ≡ ROW_BITS }
    ensures { (d e : ℕ) → RowHas reach.new d e
        ↔ (RowHas reach.old d e ⊎ ((IsIn from d ⊎ Meets reach.old d from) × IsIn beyond e)) }
{
    for d in 0..ROW_BITS as u8 {
        let row = reach[d as usize];
        let more = row_if(meets(with(row, d), from), beyond);
        reach[d as usize] = joined(row, more);
    }
}

/// The row where the test holds, and else one without numbers.
fn row_if(test: bool, row: u32) -> u32
    ensures { (k : ℕ) → IsIn result k ↔ (IsTrue test × IsIn row k) }
{
    if test { row } else { 0 }
}

/// Whether one of the two holds.
fn either(a: bool, b: bool) -> bool
    ensures { IsTrue result ↔ (IsTrue a ⊎ IsTrue b) }
{
    a || b
}
