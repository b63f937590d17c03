//! The outcome as which a sketch must end.
ghost use Rattle.std.specs.Prelude.{◌≡◌, ◌<◌, ℕ, IfOk, IfSome, MatchOption, length, slice_index};
ghost use Rattle.tso_program.specs.Shown.{show_registers, ShowsValues};
ghost use Rattle.tso_program.specs.declared.shown.Shown.TheVariants.{Truth};
ghost use Rattle.candidate_executions.specs.Sketches.{IsWhole};
ghost use Rattle.program_sketches.specs.ProgramSketches.{mode_in};
ghost use Rattle.rowless_sketches.specs.Completions.{MustEndSo, NeedNotEnd, EndsOnlyAs};
ghost use Rattle.rowless_sketches.specs.Endings.{final_registers, IsOwn, EndsSo};
ghost use Rattle.exec_axioms.specs.LastValues.{IsLastValue, AreLastValues};

use crate::Sketch;
use std::alloc::AllocError;
use tso_program::{Formula, Items, MAX_LOCATIONS, Outcome, REGISTERS, Shown};

impl Sketch {
    /// The outcome as which the sketch must end, if there is one. Of values, once each read has its value: the
    /// registers at the ends of the threads, and the value on which all writes agree that may be the last of a
    /// location; what isn't shown is 0, and needs no agreement. Of a formula: its truth, as soon as it is known
    /// whatever is chosen further.
    pub fn must_end(&self, shown: &Shown) -> Result<Option<Outcome>, AllocError>
        ensures end { IfOk result (λ end. MatchOption end (NeedNotEnd self.now shown.now) (MustEndSo self.now shown.now)) }
        ensures completions { IfOk result (λ end. IfSome end (EndsOnlyAs self.now shown.now)) }
    {
        match shown {
            Shown::All => self.must_end_whole(shown),
            Shown::Only(_) => self.must_end_whole(shown),
            Shown::Truth(formula) => self.must_tell(formula),
        }
    }

    /// The values with which the sketch must end, as they are shown, once each read has its value.
    fn must_end_whole(&self, shown: &Shown) -> Result<Option<Outcome>, AllocError>
        requires { ShowsValues shown.now }
        ensures end { IfOk result (λ end. MatchOption end (NeedNotEnd self.now shown.now) (MustEndSo self.now shown.now)) }
        ensures completions { IfOk result (λ end. IfSome end (EndsOnlyAs self.now shown.now)) }
    {
        if self.is_whole() {
            self.must_end_in(shown)
        } else {
            Ok(None)
        }
    }

    /// The values with which the sketch must end, where each read has its value.
    fn must_end_in(&self, shown: &Shown) -> Result<Option<Outcome>, AllocError>
        requires whole { IsWhole self.now.program (mode_in self.now) self.now.chosen }
        requires values { ShowsValues shown.now }
        ensures end { IfOk result (λ end. MatchOption end (NeedNotEnd self.now shown.now) (MustEndSo self.now shown.now)) }
        ensures completions { IfOk result (λ end. IfSome end (EndsOnlyAs self.now shown.now)) }
    {
        self.recall_facts();
        match self.last_values(shown) {
            Some(values) => Ok(Some(self.end_with(shown, &values)?)),
            None => Ok(None),
        }
    }

    /// The truth of a formula with which the sketch must end.
    fn must_tell(&self, formula: &Formula) -> Result<Option<Outcome>, AllocError>
        ensures end { IfOk result (λ end. MatchOption end (NeedNotEnd self.now (Truth formula.now)) (MustEndSo self.now (Truth formula.now))) }
        ensures completions { IfOk result (λ end. IfSome end (EndsOnlyAs self.now (Truth formula.now))) }
    {
        self.recall_facts();
        let known = self.parts().knows(self.alloc, formula)?;
        if known.is_true {
            return Ok(Some(Outcome::told(self.alloc, true)?));
        }
        if known.is_false {
            return Ok(Some(Outcome::told(self.alloc, false)?));
        }
        Ok(None)
    }

    /// The registers at the ends of the threads, and the values with which the locations end, as they are
    /// shown.
    fn end_with(
        &self,
        shown: &Shown,
        values: &[Option<u32>; MAX_LOCATIONS],
    ) -> Result<Outcome, AllocError>
        requires { AreLastValues self.now shown.now (IsOwn self.now) values.now }
        ensures registers { IfOk result (λ end. end.registers ≡ show_registers shown.now (final_registers self.now)) }
        ensures long { IfOk result (λ end. length end.memory ≡ length self.now.program.memory) }
        ensures memory { IfOk result (λ end. (l : ℕ) → l < length end.memory → EndsSo self.now shown.now l (slice_index end.memory l)) }
    {
        Ok(Outcome {
            registers: self.end_registers(shown)?,
            memory: self.end_memory(shown, values)?,
        })
    }

    /// What is shown of the registers where the threads stop.
    fn end_registers(&self, shown: &Shown) -> Result<Items<[u32; REGISTERS]>, AllocError>
        ensures { IfOk result (λ registers. registers ≡ show_registers shown.now (final_registers self.now)) }
    {
        let threads = self.program.threads().len();
        let mut registers = Vec::with_capacity(self.alloc, threads)?;
        for t in 0..threads {
            registers.push(shown.registers(t, self.last_registers(t)))?;
        }
        Ok(Items::of(registers))
    }

    /// What is shown of the values with which the locations end.
    fn end_memory(
        &self,
        shown: &Shown,
        values: &[Option<u32>; MAX_LOCATIONS],
    ) -> Result<Items<u32>, AllocError>
        requires { AreLastValues self.now shown.now (IsOwn self.now) values.now }
        ensures long { IfOk result (λ memory. length memory ≡ length self.now.program.memory) }
        ensures values { IfOk result (λ memory. (l : ℕ) → l < length memory → EndsSo self.now shown.now l (slice_index memory l)) }
    {
        let locations = self.program.memory().len();
        let mut memory = Vec::with_capacity(self.alloc, locations)?;
        for l in 0..locations {
            memory.push(self.shown_end(shown, l, values[l]))?;
        }
        Ok(Items::of(memory))
    }

    /// What is shown of the value with which a location ends: the one shown of the accesses that may be its
    /// last write, and that of its initial value if there is none.
    fn shown_end(&self, shown: &Shown, location: usize, last: Option<u32>) -> u32
        requires there { location < length self.now.program.memory }
        requires last { IsLastValue self.now shown.now (IsOwn self.now) location last }
        ensures { EndsSo self.now shown.now location result }
    {
        match last {
            Some(value) => value,
            None => shown.value(location, self.program.memory()[location]),
        }
    }
}
