//! Why a certificate that is read is refused.
ghost use Rattle.cert_forest.specs.declared.check_fault.CheckFault.TheVariants as check;
ghost use Rattle.std.specs.Prelude.{◌≡◌};

use crate::path::Path;
use std::alloc::AllocError;
use thiserror::Error;

/// Why a certificate is refused: the first of these in this order, after `Shown`, and of several runs or
/// nodes the first. In a tree a node comes before its children.
#[derive(Debug, Drop, Error)]
pub enum CheckFault {
    /// The set has a number that is no gap of the program.
    #[error("the set has a number that is no gap of the program")]
    Set,
    /// The cost isn't the set's, or there isn't one cost for each gap.
    #[error("the cost is not that of the set")]
    Cost,
    /// The sequential run of this number, from 0, is not a run.
    #[error("the sequential run {0} is not a run of the program")]
    SequentialRun(usize),
    /// The tree doesn't show at this node, by its path, that the sequential runs have all outcomes.
    #[error("at node {0} the tree does not show that the sequential runs have every sequential outcome")]
    SequentialTree(Path),
    /// The store buffer run of this number, from 0, is not a run.
    #[error("the store buffer run {0} is not a run of the program with no gap fenced")]
    Run(usize),
    /// The store buffer run of this number, from 0, has a sequential outcome.
    #[error("the store buffer run {0} has a sequential outcome")]
    NotForeign(usize),
    /// The tree doesn't show at this node, by its path, that the set serves.
    #[error("at node {0} the tree does not show that the set serves")]
    FencedTree(Path),
    /// The tree doesn't show at this node, by its path, that no better set serves.
    #[error("at node {0} the tree does not show that no better set serves")]
    GapTree(Path),
    #[error("out of memory")]
    OutOfMemory,
    /// The certificate is about something else than what is shown. Tried before all others.
    #[error("the certificate shows other registers or locations than it is judged with")]
    Shown,
}

impl From<AllocError> for CheckFault {
    ghost from_gives = { λ _ fault. fault ≡ check.OutOfMemory };

    fn from(_error: AllocError) -> CheckFault {
        CheckFault::OutOfMemory
    }
}
