//! Why a tree isn't valid.
ghost use Rattle.std.specs.Prelude.{◌≡◌, []};
ghost use Rattle.cover_judge.specs.declared.fault.NodeFault.TheVariants.{OutOfMemory};
ghost use Rattle.cover_judge.specs.Judged.{IsFrom};

use cert_forest::Path;
use std::alloc::{AllocError, Global};
use thiserror::Error;

/// Why a tree isn't valid: its first wrong node. A node comes before its children.
#[derive(Debug, Drop, Error)]
pub enum NodeFault {
    /// The node of this path is wrong.
    #[error("node {0} is not valid")]
    Wrong(Path),
    #[error("out of memory")]
    OutOfMemory,
}

impl NodeFault {
    /// The root is wrong.
    pub fn at_root(alloc: Global) -> NodeFault
        ensures { result ≡ NodeFault.Wrong [] }
    {
        NodeFault::Wrong(Path::root(alloc))
    }

    /// This fault as its path begins at the tree's parent, whose child of this number the tree is.
    pub fn from_parent(self, number: usize) -> NodeFault
        ensures { IsFrom number self result }
    {
        match self {
            NodeFault::Wrong(path) => match path.from_parent(number) {
                Ok(path) => NodeFault::Wrong(path),
                Err(_) => NodeFault::OutOfMemory,
            },
            NodeFault::OutOfMemory => NodeFault::OutOfMemory,
        }
    }
}

impl From<AllocError> for NodeFault {
    ghost from_gives = { λ _ fault. fault ≡ OutOfMemory };

    fn from(_error: AllocError) -> NodeFault {
        NodeFault::OutOfMemory
    }
}
