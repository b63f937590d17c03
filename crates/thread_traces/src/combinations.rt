//! In how many ways the traces of the threads may be combined.
ghost use Rattle.std.specs.Prelude.{◌*◌, ◌+◌, ◌-◌, ◌<◌, ◌≤◌, ◌↔◌, ◌^◌, ℕ, IfOk, IsTrue};
ghost use Rattle.thread_traces.specs.TraceCounts.{traces_of, values_at, AreCombinations, IsCountUpTo, CountSays, CountSaysSoFar};

use crate::shared_values::value_lists;
use crate::trace_count::{CountedThread, count_from};
use std::alloc::{AllocError, Global};
use tso_program::{Local, Program};

/// How many combinations of traces there are, counted up to a ceiling.
#[derive(Clone, Copy)]
pub enum Combinations {
    Exactly(u64),
    /// So many, or more: above the ceiling.
    AtLeast(u64),
}

impl Combinations {
    /// Whether there are more combinations than that, which is at most the ceiling. Above the ceiling it is also said where
    /// they are not counted.
    pub fn is_over(self, most: u32) -> bool
        ensures { (ceiling n : ℕ) → most ≤ ceiling → CountSays ceiling self n → IsTrue result ↔ most < n }
    {
        match self {
            Combinations::Exactly(count) => count > u64::from(most),
            Combinations::AtLeast(_) => true,
        }
    }
}

/// In how many ways the traces of a program's threads may be combined, where each read takes each value of its
/// location. A search for the outcomes has to close each of these combinations. Of all threads together no more traces
/// than the ceiling are counted, and one of each thread. Where the threads have no more, the number is exact.
pub fn trace_combinations(
    alloc: Global,
    program: &Program,
    ceiling: u32,
) -> Result<Combinations, AllocError>
    ensures { IfOk result (AreCombinations ceiling program.now) }
{
    let values = value_lists(alloc, program)?;
    let mut combinations = Combinations::Exactly(1);
    let mut left = u64::from(ceiling);
    let threads = program.threads().len();
    for t in 0..threads as u8 {
        let thread = CountedThread {
            program,
            values: &values,
            number: t,
        };
        let traces = count_traces(&thread, left + 1);
        combinations = joined(combinations, left, traces);
        left = left.saturating_sub(traces.saturating_sub(1));
    }
    Ok(combinations)
}

/// How many traces a thread has; the most that are counted, where there are as many.
fn count_traces(thread: &CountedThread<'_>, most: u64) -> u64
    ensures { IsCountUpTo most (traces_of thread.now.program.now (values_at thread.now.values.now) thread.now.number) result }
{
    match thread.program.threads().get(thread.number as usize) {
        Some(listed) => {
            let start = Local {
                place: 0,
                registers: listed.registers,
                flag: false,
            };
            count_from(thread, start, listed.code.len(), most)
        }
        None => most.min(1),
    }
}

/// So many combinations, each with so many traces of one more thread, which are counted up to one more than are left.
fn joined(combinations: Combinations, left: u64, traces: u64) -> Combinations
    ensures { (ceiling n m : ℕ) → ceiling < 2 ^ 32 → CountSaysSoFar ceiling combinations left n → IsCountUpTo (left + 1) m traces → CountSaysSoFar ceiling result (left - (traces - 1)) (n * m) }
{
    let (count, most) = match combinations {
        Combinations::Exactly(count) => (count, left),
        Combinations::AtLeast(count) => (count, 0),
    };
    match count.checked_mul(traces) {
        Some(product) if traces <= most || product == 0 => Combinations::Exactly(product),
        Some(product) => Combinations::AtLeast(product),
        None => Combinations::AtLeast(u64::MAX),
    }
}
