//! What is searched.
ghost use Rattle.std.specs.Prelude.{◌≡◌, IfErr, IfOk};
ghost use Rattle.tso_program.specs.Shown.{asked};
ghost use Rattle.tso_machine.specs.Modes.{machine_of_mode};
ghost use Rattle.tree_laws.specs.Ascending.{Ascend};
ghost use Rattle.tree_laws.specs.Covers.{IsWholeCover};
ghost use Rattle.cover_search.specs.Stops.{StopLacks};

use crate::stop::SearchStop;
use crate::tree_search::TreeSearch;
use cert_forest::CoverTree;
use exec_axioms::{Mode, Sketch};
use std::alloc::Global;
use tso_program::{Outcome, Program, Shown};

/// The outcomes of a program in a mode, as far as they are shown.
#[derive(Drop)]
pub struct Search<'a> {
    pub alloc: Global,
    pub program: &'a Program,
    pub shown: &'a Shown,
    pub mode: Mode,
}

impl Search<'_> {
    /// A cover tree over outcomes that ascend: they are all that the mode's machine has. It stops where a run has another one.
    pub fn cover(&self, outcomes: &[Outcome]) -> Result<CoverTree, SearchStop>
        requires { Ascend outcomes.now }
        ensures tree { IfOk result (IsWholeCover (asked self.now.program.now self.now.shown.now) (machine_of_mode self.now.program.now self.now.mode) outcomes.now) }
        ensures stop { IfErr result (StopLacks (asked self.now.program.now self.now.shown.now) (machine_of_mode self.now.program.now self.now.mode) outcomes.now) }
    {
        let mut sketch = Sketch::new(self.alloc, self.program, self.mode)?;
        let mut nodes = Vec::new(self.alloc);
        let search = TreeSearch {
            alloc: self.alloc,
            shown: self.shown,
            outcomes,
        };
        search.cover(&mut sketch, &mut nodes)?;
        Ok(CoverTree::of_nodes(self.alloc, nodes)?)
    }
}
