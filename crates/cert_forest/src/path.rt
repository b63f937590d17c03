//! Places of nodes in trees.
ghost use Rattle.std.specs.Prelude.{◌≡◌, ◌∷◌, [], IfOk, Some};
ghost use Rattle.cert_forest.specs.Paths.{path_text};

use std::alloc::{AllocError, Global};
use std::fmt;
use std::marker::Model;

/// The place of a node in its tree: the numbers of the children on the way to it, from the root on and
/// from 0. It is written `/0/2`, and `/` at the root.
#[derive(Debug, Drop)]
pub struct Path {
    children: Vec<usize>,
}

impl Model for Path {
    ghost use Rattle.std.specs.Prelude.{List, ℕ};

    ghost Value = { List ℕ };

    ghost view = { λ path. path.children.items };
}

impl Path {
    /// The place of the root.
    pub fn root(alloc: Global) -> Path
        ensures { result ≡ [] }
    {
        Path {
            children: Vec::new(alloc),
        }
    }

    /// This place as its path begins at the tree's parent, whose child of this number the tree is.
    pub fn from_parent(self, number: usize) -> Result<Path, AllocError>
        ensures { IfOk result (λ path. path ≡ number ∷ self) }
    {
        let mut children = self.children;
        children.insert(0, number)?;
        Ok(Path { children })
    }

    /// The numbers of the children.
    pub fn as_slice(&self) -> &[usize]
        ensures { result.now ≡ self.now }
    {
        self.children.as_slice()
    }
}

impl fmt::Display for Path {
    ghost output = { λ path. Some (path_text path) };

    fn fmt<W: fmt::Write>(&self, f: &mut fmt::Formatter<W>) -> fmt::Result {
        if self.children.is_empty() {
            return write!(f, "/");
        }
        for number in &self.children {
            write!(f, "/{number}")?;
        }
        Ok(())
    }
}
