//! What a script hunts by.
ghost use Rattle.std.specs.Prelude.{◌≡◌};
ghost use Rattle.std.specs.Coded.{codes};
ghost use Rattle.tso_program.specs.contracts.shown.Names as names;
ghost use Rattle.tso_program.specs.Nodes.{tree_code};

use crate::inquiry::Inquiry;
use hunt_board::Hunt;
use oracle::Oracle;

/// A hunt, and whom its script asks about the same question.
#[derive(Drop)]
pub struct Scene<'a, O: Oracle> {
    pub inquiry: &'a Inquiry<'a, O>,
    pub hunt: &'a Hunt,
    ghost of_table: { hunt.now.question ≡ inquiry.now.table.now.question } by { Prim.hlevel (codes, names.the_row.coded, tree_code) },
}
