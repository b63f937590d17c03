//! Labels of sequential steps, with the state that they lead to.
ghost use Rattle.std.specs.Prelude.{◌≡◌, ◌<◌, ℕ, OnOk, IfOk};
ghost use Rattle.sequential_states.specs.Internal.Snapshots.{FitsProgram};
ghost use Rattle.sequential_states.specs.Internal.Lists.{IsWalk, IsWalkOn, IsThreadAtEnd, WalksOn};

use crate::snapshot::Snapshot;
use std::alloc::{AllocError, Global};
use tso_machine::Label;
use tso_program::{Items, Program};

/// Steps from a program's start, and where they lead.
#[derive(Drop)]
pub(crate) struct Walk {
    pub(crate) labels: Items<Label>,
    pub(crate) state: Snapshot,
}

impl Walk {
    /// Goes on by thread t's next instruction, and answers whether it has one.
    pub(crate) fn step(
        &mut self,
        alloc: Global,
        program: &Program,
        t: u8,
    ) -> Result<bool, AllocError>
        requires { FitsProgram program.now self.old.state }
        ensures { IfOk result (WalksOn program.now self.old t self.new) }
    {
        match self.state.after(alloc, program, t)? {
            Some(next) => {
                self.labels.push(Label::Exec(t))?;
                self.state = next;
                Ok(true)
            }
            None => Ok(false),
        }
    }

    /// Takes thread t to its end.
    fn end_thread(&mut self, alloc: Global, program: &Program, t: u8) -> Result<(), AllocError>
        requires { IsWalk program.now self.old }
        ensures longer { OnOk result (IsWalkOn program.now self.old self.new) }
        ensures ended { OnOk result (IsThreadAtEnd program.now self.new.state t) }
    {
        program.recall_facts();
        while self.step(alloc, program, t)? {}
        Ok(())
    }

    /// Takes each thread to its end.
    pub(crate) fn end(&mut self, alloc: Global, program: &Program) -> Result<(), AllocError>
        requires { IsWalk program.now self.old }
        ensures longer { OnOk result (IsWalkOn program.now self.old self.new) }
        ensures ended { OnOk result ((t : ℕ) → IsThreadAtEnd program.now self.new.state t) }
    {
        let threads = program.threads().len() as u8;
        for t in 0..threads {
            self.end_thread(alloc, program, t)?;
        }
        Ok(())
    }
}
