//! The lines of why the checker refuses a certificate.

ghost use Rattle.std.specs.Prelude.{◌≡◌, IfOk};
ghost use Rattle.report.specs.CheckLines.{check_line, refused_node};

use crate::faults::refused_at;
use cert_forest::{CheckFault, Path};
use std::alloc::{AllocError, Global};

/// Why a certificate is refused, with the number of a run or the path to a node.
pub fn check_line(alloc: Global, fault: &CheckFault) -> Result<Vec<u8>, AllocError>
    ensures { IfOk result (λ line. line.items ≡ check_line fault.now) }
{
    match fault {
        CheckFault::Set => Vec::from_slice(alloc, b"refused check 1 Set\n"),
        CheckFault::Cost => Vec::from_slice(alloc, b"refused check 2 Cost\n"),
        CheckFault::SequentialRun(run) => refused_at(alloc, "check 3 SequentialRun", *run as u64),
        CheckFault::SequentialTree(path) => refused_node(alloc, "check 4 SequentialTree", path),
        CheckFault::Run(run) => refused_at(alloc, "check 5 Run", *run as u64),
        CheckFault::NotForeign(run) => refused_at(alloc, "check 6 NotForeign", *run as u64),
        CheckFault::FencedTree(path) => refused_node(alloc, "check 7 FencedTree", path),
        CheckFault::GapTree(path) => refused_node(alloc, "check 8 GapTree", path),
        CheckFault::OutOfMemory => Vec::from_slice(alloc, b"refused check 9 OutOfMemory\n"),
        CheckFault::Shown => Vec::from_slice(alloc, b"refused check 10 Shown\n"),
    }
}

/// The line of a refusal with the path to a node.
fn refused_node(alloc: Global, what: &str, path: &Path) -> Result<Vec<u8>, AllocError>
    ensures { IfOk result (λ line. line.items ≡ refused_node what.now path.now) }
{
    Ok(format!(in alloc; "refused {what} {path}\n")?.into_bytes())
}
