//! Programs of a few threads over a few locations, their fences, and what they leave.
//!
//! A program is a `Listing`: threads of numbered instructions, the initial registers of each, and an initial
//! value for each location. A `Program` is a listing within the limits, a `FencedProgram` one with fences in
//! it, within limits of its own.
//!
//! Begin with `Program::new`, `Program::fenced` and `Outcome::show`. Free to change: how programs, formulas
//! and sets of names lie in memory, and that their copies share it. Relied on: what an instruction does is
//! the one definition of `Action`, which the machines, the replay and traces share; the limits, in the order
//! of their refusals; what is shown of an outcome.
#![tactic(auto)]

mod action;
mod atom;
mod eval;
mod fenced;
mod formula;
mod instruction;
mod items;
mod laws;
mod limits;
mod listing;
mod named;
mod node;
mod outcome;
mod program;
mod question;
mod shown;

pub use action::{Action, Local};
pub use atom::Atom;
pub use fenced::{FenceFault, FencedProgram, fencing_stays_within_limits};
pub use formula::Formula;
pub use instruction::{Instr, REGISTERS, Reg};
pub use items::Items;
pub use laws::{
    a_part_is_shown_of_the_whole, a_truth_is_read_off, places_are_distinct, what_is_shown_is_kept,
};
pub use limits::{
    MAX_ACCESSES, MAX_FENCED_INSTRUCTIONS, MAX_INSTRUCTIONS, MAX_LOCATIONS, MAX_THREADS,
    MAX_WORKERS, ProgramFault, limits_are_the_refusals,
};
pub use listing::{Listing, Thread};
pub use named::{with_location, with_register};
pub use node::FormulaNode;
pub use outcome::Outcome;
pub use program::Program;
pub use question::Question;
pub use shown::{Names, PLACES, REGISTER_PLACES, Shown, ShownKind};
