//! What a litmus text stands for.
use crate::label::CodeLabel;
use crate::names::NameTable;
use crate::observed::Observed;
use conditions::Condition;
use tso_program::Items;

/// What a litmus text stands for: a program of the type `P`, and what is asked of its outcomes.
#[derive(Drop)]
pub struct Litmus<P> {
    /// The test's name, from the first line.
    pub name: Items<u8>,
    pub program: P,
    pub names: NameTable,
    pub condition: Condition,
    /// The places behind `locations`, in order.
    pub observed: Items<Observed>,
    /// Each thread's labels, in text order.
    pub labels: Items<Items<CodeLabel>>,
}
