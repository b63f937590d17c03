//! The search for a cycle.
ghost use Rattle.std.specs.Prelude.{◌⊎◌, ◌↔◌, List, IfOk, IfSome, OnOk, MatchOption, Contains, OnErr};
ghost use Rattle.std.specs.List.{AllPairs};
ghost use Rattle.candidate_executions.specs.declared.event.Event.{Event};
ghost use Rattle.candidate_executions.specs.Events.{ComesBefore};
ghost use Rattle.program_sketches.specs.Known.{HasCycle, HasNoCycle, IsInitialWrite};
ghost use Rattle.candidate_executions.specs.Consistency.{IsOfMode};
ghost use Rattle.candidate_executions.specs.Candidates.{IsAccess};
ghost use Rattle.candidate_executions.specs.Sketches.{IsKnownCycle, given_to};
ghost use Rattle.program_sketches.specs.ProgramSketches.{mode_in};
ghost use Rattle.exec_axioms.specs.Cycles.{IsSimpleCycle};
ghost use Rattle.program_sketches.specs.FewAccesses.{AreFewAccesses};

use crate::{Mode, Sketch};
use candidate_executions::{Event, Kind};
use known_edges::{push_events, round_of};
use std::alloc::AllocError;

impl Sketch {
    /// A cycle of known edges with no event twice, and its union, if there is one. It goes through no
    /// initial write. Only a cycle's list takes memory.
    pub fn find_cycle(&self) -> Result<Option<(Kind, Vec<Event>)>, AllocError>
        ensures cycle { IfOk result (λ found. MatchOption found (HasNoCycle self.now) (λ cycle. IsSimpleCycle self.now cycle.0 cycle.1.items)) }
        ensures accesses { IfOk result (λ found. IfSome found (λ cycle. AreFewAccesses self.now cycle.1.items)) }
        ensures refused { OnErr result (HasCycle self.now) }
    {
        self.recall_facts();
        self.first_cycle()
    }

    /// The first of the mode's unions that has a cycle.
    fn first_cycle(&self) -> Result<Option<(Kind, Vec<Event>)>, AllocError>
        ensures cycle { IfOk result (λ found. MatchOption found (HasNoCycle self.now) (λ cycle. IsSimpleCycle self.now cycle.0 cycle.1.items)) }
        ensures refused { OnErr result (HasCycle self.now) }
    {
        match self.mode {
            Mode::Sequential => self.find_cycle_of(Kind::Sequential),
            Mode::Fenced(_) => match self.find_cycle_of(Kind::Location)? {
                Some(found) => Ok(Some(found)),
                None => self.find_cycle_of(Kind::Global),
            },
        }
    }

    /// A cycle of one union, where it has one. Its rows say whether there is a cycle; before each read has its value
    /// they may lack accesses, and nothing but program order is known.
    fn find_cycle_of(&self, kind: Kind) -> Result<Option<(Kind, Vec<Event>)>, AllocError>
        requires { IsOfMode (mode_in self.now) kind }
        ensures cycle { IfOk result (λ found. MatchOption found ((es : List Event) → IsKnownCycle self.now.program (mode_in self.now) self.now.chosen kind es → ⊥) (λ cycle. IsSimpleCycle self.now cycle.0 cycle.1.items)) }
        ensures refused { OnErr result (HasCycle self.now) }
    {
        let relation = self.rows.of_union(kind);
        if !relation.has_round() {
            return Ok(None);
        }
        let cycle = round_of(self.alloc, self.traces.events(), relation)?;
        Ok(Some((kind, cycle)))
    }

    /// All accesses, by thread and index.
    pub fn events(&self) -> Result<Vec<Event>, AllocError>
        ensures exact { IfOk result (λ events. (e : Event) → Contains events.items e ↔ IsAccess self.now.program (mode_in self.now) (given_to self.now.chosen) e) }
        ensures ordered { IfOk result (λ events. AllPairs ComesBefore events.items) }
    {
        let mut events = Vec::with_capacity(self.alloc, self.traces.events().len())?;
        self.push_accesses(&mut events)?;
        Ok(events)
    }

    /// Appends all accesses to the events, by thread and index.
    pub(crate) fn push_accesses(&self, events: &mut Vec<Event>) -> Result<(), AllocError>
        requires { (e : Event) → Contains events.old.items e → IsInitialWrite e }
        ensures exact { OnOk result ((e : Event) → Contains events.new.items e ↔ (Contains events.old.items e ⊎ IsAccess self.now.program (mode_in self.now) (given_to self.now.chosen) e)) }
        ensures ordered { OnOk result (AllPairs ComesBefore events.old.items → AllPairs ComesBefore events.new.items) }
    {
        push_events(self.traces.thread_traces(), events)?;
        Ok(())
    }
}
