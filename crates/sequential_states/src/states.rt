//! The states of a program's sequential runs.
ghost use Rattle.std.specs.Prelude.{◌≡◌, IfOk, IfSome};
ghost use Rattle.sequential_states.specs.Executions.{IsAnswer};

use crate::listed::{Listed, place_at, walk_to};
use crate::worklist::Worklist;
use std::alloc::{AllocError, Global};
use std::marker::Model;
use tso_machine::Label;
use tso_program::{Items, Program};

/// States that sequential runs of a program pass through, enough to tell of each instruction whether a run executes it.
#[derive(Drop)]
pub struct SequentialStates {
    program: Program,
    listed: Vec<Listed>,
}

impl Model for SequentialStates {
    ghost use Rattle.tso_program.specs.declared.listing.Listing.{Listing};
    ghost use Rattle.sequential_states.specs.Internal.Lists.{TellsAll};

    ghost Value = { Listing };

    ghost view = { λ s. s.program };

    ghost invariant = { λ s. TellsAll s.program s.listed.items };
}

impl SequentialStates {
    /// States of a program's sequential runs, until they tell of each instruction whether a run executes it.
    pub fn of(alloc: Global, program: &Program) -> Result<SequentialStates, AllocError>
        ensures { IfOk result (λ states. states ≡ program.now) }
    {
        match SequentialStates::within(alloc, program, usize::MAX)? {
            Some(states) => Ok(states),
            None => Err(AllocError),
        }
    }

    /// These states, or nothing where steps from more than so many states have to be followed. How many there are depends on the
    /// order in which states are listed, and no clause speaks of it.
    pub fn within(
        alloc: Global,
        program: &Program,
        most: usize,
    ) -> Result<Option<SequentialStates>, AllocError>
        ensures { IfOk result (λ found. IfSome found (λ states. states ≡ program.now)) }
    {
        let mut worklist = Worklist::start(alloc, program)?;
        let mut explored = 0;
        while !worklist.is_enough(program, explored) {
            if explored >= most {
                return Ok(None);
            }
            worklist.explore(alloc, program, explored)?;
            explored += 1;
        }
        Ok(Some(SequentialStates {
            program: program.copy()?,
            listed: worklist.into_listed(),
        }))
    }

    /// A sequential run that executes instruction k of thread t. There is none where no sequential run does.
    pub fn run_through(
        &self,
        alloc: Global,
        t: u8,
        k: u8,
    ) -> Result<Option<Items<Label>>, AllocError>
        ensures { IfOk result (IsAnswer self.now t k) }
    {
        let listed = self.listed.as_slice();
        match place_at(listed, t, k) {
            Some(place) => {
                let mut walk = walk_to(alloc, listed, place)?;
                if !walk.step(alloc, &self.program, t)? {
                    return Ok(None);
                }
                walk.end(alloc, &self.program)?;
                Ok(Some(walk.labels))
            }
            None => Ok(None),
        }
    }
}
