//! Whether a read's sources are all there, whatever the threads read next.
ghost use Rattle.std.specs.Prelude.{◌≡◌, ◌↔◌, ◌≤◌, ℕ, Some, IsTrue, slice_get};
ghost use Rattle.candidate_executions.specs.Settled.{IsOfOther, IsSettled, MayStillWrite, MayStore};
ghost use Rattle.tso_program.specs.declared.instruction.Instr as the_instr;
ghost use Rattle.tso_program.specs.Listings.{code_of};
ghost use Rattle.program_sketches.specs.ProgramSketches.{mode_in};

use crate::parts::Parts;
use candidate_executions::Event;
use thread_traces::thread_trace_at;
use tso_program::{Instr, Program};

impl Parts<'_> {
    /// Whether no thread but its own may still write what the read has read. So it is of what is no read.
    pub(crate) fn is_settled(&self, read: Event) -> bool
        ensures { IsTrue result ↔ IsSettled self.now.program (mode_in self.now) self.now.chosen read }
    {
        match self.location_and_value(read) {
            Some((location, value)) => !self.others_may_write(read, location, value),
            None => true,
        }
    }

    /// Whether some thread but the event's own may still write the value to the location.
    fn others_may_write(&self, event: Event, location: u8, value: u32) -> bool
        ensures { IsTrue result ↔ ((u : ℕ) × IsOfOther u event × MayStillWrite self.now.program (mode_in self.now) self.now.chosen u location value) }
    {
        let threads = self.thread_traces.len() as u8;
        for u in 0..threads {
            if self.other_may_write(u, event, location, value) {
                return true;
            }
        }
        false
    }

    /// Whether thread u is not the event's own, and may still write the value to the location.
    fn other_may_write(&self, u: u8, event: Event, location: u8, value: u32) -> bool
        ensures { IsTrue result ↔ (IsOfOther u event × MayStillWrite self.now.program (mode_in self.now) self.now.chosen u location value) }
    {
        is_of_other(u, event) && self.may_still_write(u, location, value)
    }

    /// Whether thread u may still write the value to the location: it reads on, and where it stops or later it has an
    /// instruction that may store the value there.
    fn may_still_write(&self, u: u8, location: u8, value: u32) -> bool
        ensures { IsTrue result ↔ MayStillWrite self.now.program (mode_in self.now) self.now.chosen u location value }
    {
        match thread_trace_at(self.thread_traces, u as usize) {
            Some(trace) => {
                if trace.next.is_none() {
                    return false;
                }
                let code = code_at(self.program, u);
                stores_from(code, trace.last.place, location, value)
            }
            None => false,
        }
    }
}

/// The instructions of thread u.
fn code_at(program: &Program, u: u8) -> &[Instr]
    ensures { result.now ≡ code_of program.now.threads u }
{
    match program.threads().get(u as usize) {
        Some(thread) => thread.code.as_slice(),
        None => &[],
    }
}

/// Whether the event is no access of thread u.
fn is_of_other(u: u8, event: Event) -> bool
    ensures { IsTrue result ↔ IsOfOther u event }
{
    match event {
        Event::Initial(_) => true,
        Event::Access(t, _) => u != t,
    }
}

/// Whether an instruction at this place or a later one may store the value to the location.
fn stores_from(code: &[Instr], place: u8, location: u8, value: u32) -> bool
    ensures { IsTrue result ↔ ((k : ℕ) × (place ≤ k) × ((x : the_instr.Instr) × (slice_get code.now k ≡ Some x) × MayStore x location value)) }
{
    for k in place as usize..code.len() {
        if may_store(code[k], location, value) {
            return true;
        }
    }
    false
}

/// Whether the instruction may store the value to the location: as a number, or from a register, whatever that holds.
fn may_store(instr: Instr, location: u8, value: u32) -> bool
    ensures { IsTrue result ↔ MayStore instr location value }
{
    match instr {
        Instr::StoreImm(at, number) => at == location && number == value,
        Instr::Store(at, _) | Instr::Xchg(at, _) => at == location,
        _ => false,
    }
}
