//! The traces of one thread, counted.
ghost use Rattle.std.specs.Prelude.{◌≡◌, sum_by};
ghost use Rattle.tso_program.specs.Actions.{loaded};
ghost use Rattle.tso_program.specs.Listings.{action};
ghost use Rattle.thread_traces.specs.TraceCounts.{trace_count, values_at, IsCountUpTo};

use crate::shared_values::SharedValues;
use tso_program::{Action, Local, Program, Reg};

/// A thread whose traces are counted, and the values of each location.
#[derive(Clone, Copy)]
pub(crate) struct CountedThread<'a> {
    pub(crate) program: &'a Program,
    pub(crate) values: &'a [SharedValues],
    pub(crate) number: u8,
}

/// The values of a location.
fn values_at<'a>(thread: &CountedThread<'a>, location: u8) -> &'a [u32]
    ensures { result.now ≡ values_at thread.now.values.now location }
{
    match thread.values.get(location as usize) {
        Some(values) => values.as_slice(),
        None => &[],
    }
}

/// How many traces the thread has from a state on, in at most so many steps; the most that are counted, where there are as
/// many. It recurses as deep as a thread is long.
#[cycle(count_from)]
pub(crate) fn count_from(thread: &CountedThread<'_>, local: Local, steps: usize, most: u64) -> u64
    ensures { IsCountUpTo most (trace_count (action thread.now.program.now.threads thread.now.number) (values_at thread.now.values.now) steps local) result }
{
    if most == 0 {
        return 0;
    }
    if steps == 0 {
        return 1;
    }
    match thread.program.action(thread.number, local) {
        Action::Stop => 1,
        Action::Go(next) => count_from(thread, next, steps - 1, most),
        Action::Wait(next) => count_from(thread, next, steps - 1, most),
        Action::Write(_, _, next) => count_from(thread, next, steps - 1, most),
        Action::Read(location, to, next) => {
            count_after(thread, location, to, next, steps - 1, most)
        }
        Action::Swap(location, _, to, next) => {
            count_after(thread, location, to, next, steps - 1, most)
        }
    }
}

/// How many traces the thread has from a read on, which takes each value of its location in turn.
#[cycle(count_from)]
fn count_after(
    thread: &CountedThread<'_>,
    location: u8,
    to: Reg,
    next: Local,
    steps: usize,
    most: u64,
) -> u64
    ensures { IsCountUpTo most (sum_by (λ v. trace_count (action thread.now.program.now.threads thread.now.number) (values_at thread.now.values.now) steps (loaded to v next)) (values_at thread.now.values.now location)) result }
{
    let mut count = 0;
    for value in values_at(thread, location) {
        count += count_from(thread, next.with(to, *value), steps, most - count);
    }
    count
}
