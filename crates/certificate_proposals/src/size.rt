//! By which rule a certificate is proposed.

use cert_forest::Rule;
use std::alloc::{AllocError, Global};
use thread_traces::trace_combinations;
use tso_program::Program;

/// The most combinations of traces of a program whose certificate is not proposed, but searched for.
const MOST_SEARCHED: u32 = 6;

/// The most combinations of traces of a program whose trees are whole, where no rule is asked for.
const MOST_WHOLE: u32 = 1_000;

/// The rule by which a program's certificate is proposed: the one that is asked for, or one by the program's size. `None`
/// if none is proposed.
pub fn proposed_rule(
    alloc: Global,
    program: &Program,
    asked: Option<Rule>,
) -> Result<Option<Rule>, AllocError> {
    let combinations = trace_combinations(alloc, program, MOST_WHOLE)?;
    let is_large = combinations.is_over(MOST_SEARCHED);
    Ok(match asked {
        Some(Rule::Early) => Some(Rule::Early),
        Some(Rule::Whole) | None if !is_large => None,
        Some(Rule::Whole) => Some(Rule::Whole),
        None => Some(if combinations.is_over(MOST_WHOLE) {
            Rule::Early
        } else {
            Rule::Whole
        }),
    })
}
