//! States that are listed, each once as a rule, while their steps are followed.
ghost use Rattle.std.specs.Prelude.{◌≡◌, ◌<◌, ◌+◌, ◌^◌, ℕ, length, IsTrue, IsFalse, OnOk, IfOk};
ghost use Rattle.tso_machine.specs.Machine as machine;
ghost use Rattle.sequential_states.specs.Internal.Snapshots.{state_of};
ghost use Rattle.sequential_states.specs.Internal.Lists.{IsListed, AreReached, IsFollowed, IsExplored, IsBeginning, IsNoted, IsEnough};

use crate::listed::{Arrival, Listed, has_each};
use crate::snapshot::Snapshot;
use std::alloc::{AllocError, Global};
use std::collections::HashMap;
use std::marker::Model;
use tso_program::Program;

/// The states so far, and where a state of some fingerprint is listed. Where two states have one fingerprint, a state
/// may be listed more than once.
#[derive(Drop)]
pub(crate) struct Worklist {
    listed: Vec<Listed>,
    places: HashMap<u64, usize>,
}

impl Model for Worklist {
    ghost use Rattle.std.specs.Prelude.{List};
    ghost use Rattle.sequential_states.specs.declared.listed.Listed.{Listed};

    ghost Value = { List Listed };

    ghost view = { λ w. w.listed.items };
}

impl Worklist {
    /// The start of a program alone.
    pub(crate) fn start(alloc: Global, program: &Program) -> Result<Worklist, AllocError>
        ensures reached { IfOk result (AreReached program.now) }
        ensures first { IfOk result (λ listed. IsListed listed (machine.start program.now)) }
    {
        let mut listed = Vec::new(alloc);
        listed.push(Listed {
            state: Snapshot::start(alloc, program)?,
            arrival: None,
        })?;
        Ok(Worklist {
            listed,
            places: HashMap::new(alloc),
        })
    }

    /// Whether the list tells of each instruction whether a run executes it: each state was explored, or each instruction
    /// is next at a state. The second is asked at few lengths.
    pub(crate) fn is_enough(&self, program: &Program, explored: usize) -> bool
        ensures enough { IsTrue result → IsEnough program.now self.now explored }
        ensures more { IsFalse result → explored < length self.now }
        ensures room { IsFalse result → explored + 1 < 2 ^ 64 }
    {
        if explored >= self.listed.len() {
            return true;
        }
        explored.is_power_of_two() && has_each(program, self.listed.as_slice())
    }

    /// The states, in the order in which they were listed.
    pub(crate) fn into_listed(self) -> Vec<Listed>
        ensures { result.items ≡ self }
    {
        self.listed
    }

    /// Whether the state is found in the list.
    fn finds(&self, print: u64, state: &Snapshot) -> bool
        ensures { IsTrue result → IsListed self.now (state_of state.now) }
    {
        match self.places.get(&print) {
            Some(place) => is_at(self.listed.as_slice(), *place, state),
            None => false,
        }
    }

    /// Lists a state that an arrival leads to, where it isn't found.
    fn note(&mut self, state: Snapshot, arrival: Arrival) -> Result<(), AllocError>
        ensures { OnOk result (IsNoted self.old state arrival self.new) }
    {
        let print = state.fingerprint();
        if self.finds(print, &state) {
            return Ok(());
        }
        let place = self.listed.len();
        self.listed.push(Listed {
            state,
            arrival: Some(arrival),
        })?;
        self.places.insert(print, place)?;
        Ok(())
    }

    /// Lists the state after thread t's next instruction, where it has one.
    fn follow(
        &mut self,
        alloc: Global,
        program: &Program,
        from: usize,
        t: u8,
    ) -> Result<(), AllocError>
        requires reached { AreReached program.now self.old }
        requires there { from < length self.old }
        ensures reached { OnOk result (AreReached program.now self.new) }
        ensures longer { OnOk result (IsBeginning self.old self.new) }
        ensures followed { OnOk result (IsFollowed program.now self.new from t) }
    {
        match self.listed[from].state.after(alloc, program, t)? {
            Some(next) => self.note(next, Arrival { from, thread: t }),
            None => Ok(()),
        }
    }

    /// Lists the states after steps from the listed state at this place: after one step that reads and writes no location,
    /// where a thread has one, since it can be made before the steps of the others; otherwise after each step.
    pub(crate) fn explore(
        &mut self,
        alloc: Global,
        program: &Program,
        from: usize,
    ) -> Result<(), AllocError>
        requires reached { AreReached program.now self.old }
        requires there { from < length self.old }
        ensures reached { OnOk result (AreReached program.now self.new) }
        ensures longer { OnOk result (IsBeginning self.old self.new) }
        ensures explored { OnOk result (IsExplored program.now self.new from) }
    {
        match self.listed[from].state.local_thread(program) {
            Some(t) => self.follow(alloc, program, from, t),
            None => self.follow_all(alloc, program, from),
        }
    }

    /// Lists the states after each step from the listed state at this place.
    fn follow_all(
        &mut self,
        alloc: Global,
        program: &Program,
        from: usize,
    ) -> Result<(), AllocError>
        requires reached { AreReached program.now self.old }
        requires there { from < length self.old }
        ensures reached { OnOk result (AreReached program.now self.new) }
        ensures longer { OnOk result (IsBeginning self.old self.new) }
        ensures followed { OnOk result ((t : ℕ) → IsFollowed program.now self.new from t) }
    {
        let threads = program.threads().len() as u8;
        for t in 0..threads {
            self.follow(alloc, program, from, t)?;
        }
        Ok(())
    }
}

/// Whether this state is listed at a place.
fn is_at(listed: &[Listed], place: usize, state: &Snapshot) -> bool
    ensures { IsTrue result → IsListed listed.now (state_of state.now) }
{
    match listed.get(place) {
        Some(found) => found.state.same(state),
        None => false,
    }
}
