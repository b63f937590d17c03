//! Why a call has no other answer.

use cert_forest::CertFault;
use conditions::FormulaFault;
use gap_sets::CostFault;
use litmus_syntax::SyntaxFault;
use litmus_text::ReadFault;
use std::alloc::AllocError;
use thiserror::Error;
use tso_machine::{ReplayFault, RunFault};
use tso_program::{FenceFault, ProgramFault};

/// A refusal by the call, `Call`, where the words are not those of a call, or `Gap`, where the program lacks one of the gaps.
#[derive(Clone, Copy, Debug, Error)]
pub enum TextRefusal {
    #[error("call")]
    Call,
    #[error("gap")]
    Gap,
    #[error("memory")]
    Memory(#[from(alloc)] AllocError),
    #[error("costs {0:?}")]
    Costs(#[from] CostFault),
    #[error("program {0:?}")]
    Program(#[from] ProgramFault),
    #[error("fence {0:?}")]
    Fence(#[from] FenceFault),
    #[error("run {0:?}")]
    Run(#[from] RunFault),
    #[error("replay {0:?}")]
    Replay(#[from] ReplayFault),
    #[error("formula {0:?}")]
    Formula(#[from] FormulaFault),
    #[error("syntax {0:?}")]
    Syntax(#[from] SyntaxFault),
    #[error("litmus {0:?}")]
    Litmus(#[from] ReadFault),
    #[error("certificate {0:?}")]
    Certificate(#[from] CertFault),
}
