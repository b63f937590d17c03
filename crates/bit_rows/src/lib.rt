//! Relations between the numbers below 32 as rows of bits, with what paths lead to.
//!
//! Row d of a relation has the numbers to which d is related. Beside it stands the row of the numbers to
//! which a path leads from d, brought up to date with each edge, so that a cycle is seen without a search. No
//! call takes memory.
//!
//! Begin with `Relation::connect`, `Relation::has_round` and `Relation::on_cycles`. Free to change: how the rows
//! are brought up to date, and what is kept beside them. Relied on: both lists of rows are exact.
#![tactic(auto)]

mod relation;
mod row;

pub use relation::{Relation, put_rows};
pub use row::{
    ROW_BITS, common, has, has_any, joined, lowest, meets, minus, raised, with, without,
};
