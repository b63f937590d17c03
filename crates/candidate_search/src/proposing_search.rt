//! What a search is asked about.
use crate::search_watch::SearchWatch;
use crate::shapes::Shapes;
use held_values::held_values;
use search_state::{PossibleWrites, Rule};
use std::alloc::{AllocError, Global};
use thread_traces::value_lists;
use tso_program::{Program, Shown};

/// How a search is made.
#[derive(Clone, Copy)]
pub struct SearchPlan<'a> {
    /// The rule of its trees.
    pub rule: Rule,
    /// How many threads search at most, where a search is long. One thread searches if there is none.
    pub workers: u8,
    /// What reports how far it is.
    pub watch: &'a SearchWatch,
}

/// A search that proposes outcomes, runs and trees of one program.
#[derive(Drop)]
pub struct ProposingSearch<'a> {
    pub(crate) alloc: Global,
    /// The rule of its trees.
    pub(crate) rule: Rule,
    /// How many threads search.
    pub(crate) workers: usize,
    pub(crate) watch: &'a SearchWatch,
    pub(crate) program: &'a Program,
    pub(crate) shown: &'a Shown,
    /// The values that the rule takes, and where they may be written.
    pub(crate) writes: PossibleWrites,
    /// For whole trees, how the values of each thread branch.
    pub(crate) shapes: Shapes,
}

impl<'a> ProposingSearch<'a> {
    /// The search of a program by a plan, with what is shown of its outcomes.
    pub fn new(
        alloc: Global,
        plan: SearchPlan<'a>,
        program: &'a Program,
        shown: &'a Shown,
    ) -> Result<ProposingSearch<'a>, AllocError> {
        let SearchPlan {
            rule,
            workers,
            watch,
        } = plan;
        let lists = match rule {
            Rule::Whole => value_lists(alloc, program)?,
            Rule::Early => held_values(alloc, program)?,
        };
        let writes = PossibleWrites::new(alloc, program, lists)?;
        let shapes = match rule {
            Rule::Whole => Shapes::of(alloc, program, &writes)?,
            Rule::Early => Shapes::none(alloc),
        };
        Ok(ProposingSearch {
            alloc,
            rule,
            workers: usize::from(workers.max(1)),
            watch,
            program,
            shown,
            writes,
            shapes,
        })
    }
}
