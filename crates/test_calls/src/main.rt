//! Tests: the program that makes the call which its input names, and prints the answers.
//!
//! The first line of the input names the call, or a script of calls of one sketch, one search or one hunt,
//! and gives its arguments; the rest is the text that the call takes. After a name like `ask` or `place` the
//! word `--observed` may stand, for what the litmus text names, or `--condition`, for the truth of its
//! condition. `tests/data/calls.tsv` and `tests/data/solver.tsv` have one input in each line.
//!
//! Begin with `main`, `answer` and the table `CALLS`. Free to change: anything, together with these cases.
//! Relied on: nothing stands above it; it is proved once, so that a case costs milliseconds.
#![tactic(auto)]

mod answer;
mod calls;
mod refusal;

use std::io::{self, Read, Write};

fn main(rt: HostRuntime) -> io::Result<()> {
    let mut bytes = Vec::new(rt.alloc());
    rt.stdin().read_to_end(&mut bytes)?;
    let printed = answer::answer(&rt, rt.alloc(), &bytes)?;
    rt.stdout().write_all(printed.as_bytes())
}
