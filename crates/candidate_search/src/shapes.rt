//! How the values of a thread's reads branch.
use search_state::PossibleWrites;
use std::alloc::{AllocError, Global};
use tso_program::{Action, Local, MAX_INSTRUCTIONS, MAX_THREADS, Program};

/// More branches than any machine holds.
const MOST_BRANCHES: u64 = 1 << 56;

/// A read of a thread under values of the reads before it, or its end.
#[derive(Clone, Copy)]
pub(crate) struct Branch {
    /// How many values the read takes. None at the thread's end.
    pub(crate) values: u32,
    /// The place after all that comes with its values.
    pub(crate) next: usize,
}

/// For each thread its branches, each before those that come with its values.
#[derive(Drop)]
pub(crate) struct Shapes {
    threads: Vec<Vec<Branch>>,
}

impl Shapes {
    /// None.
    pub(crate) fn none(alloc: Global) -> Shapes {
        Shapes {
            threads: Vec::new(alloc),
        }
    }

    /// Those of a program.
    pub(crate) fn of(
        alloc: Global,
        program: &Program,
        writes: &PossibleWrites,
    ) -> Result<Shapes, AllocError> {
        let mut threads = Vec::new(alloc);
        for (t, thread) in program.threads().iter().enumerate() {
            let start = Local {
                place: 0,
                registers: thread.registers,
                flag: false,
            };
            threads.push(shape_of(alloc, program, writes, (t % MAX_THREADS) as u8, start)?)?;
        }
        Ok(Shapes { threads })
    }

    /// The branch of a thread at a place.
    pub(crate) fn branch(&self, t: u8, place: usize) -> Branch {
        let end = Branch {
            values: 0,
            next: place.saturating_add(1),
        };
        match self.threads.get(t as usize) {
            Some(shape) => shape.get(place).copied().unwrap_or(end),
            None => end,
        }
    }
}

/// The branches of thread t from its start.
fn shape_of(
    alloc: Global,
    program: &Program,
    writes: &PossibleWrites,
    t: u8,
    start: Local,
) -> Result<Vec<Branch>, AllocError> {
    let mut shape = Vec::new(alloc);
    let mut open = Vec::new(alloc);
    open.push(start)?;
    for _ in 0..MOST_BRANCHES {
        let Some(local) = open.pop() else {
            break;
        };
        let values = open_values(program, writes, t, stop_of(program, t, local), &mut open)?;
        shape.push(Branch { values, next: 0 })?;
    }
    put_next(alloc, &mut shape)?;
    Ok(shape)
}

/// Where thread t comes to its next read, or to its end.
fn stop_of(program: &Program, t: u8, local: Local) -> Local {
    let mut last = local;
    for _ in 0..MAX_INSTRUCTIONS + 1 {
        last = match program.action(t, last) {
            Action::Go(next) | Action::Wait(next) => next,
            Action::Write(_, _, next) => next,
            _ => return last,
        };
    }
    last
}

/// Opens where thread t is with each value of its next read, the least on top, and answers how many there are.
fn open_values(
    program: &Program,
    writes: &PossibleWrites,
    t: u8,
    last: Local,
    open: &mut Vec<Local>,
) -> Result<u32, AllocError> {
    let (location, register, next) = match program.action(t, last) {
        Action::Read(location, register, next) => (location, register, next),
        Action::Swap(location, _, register, next) => (location, register, next),
        _ => return Ok(0),
    };
    let values = writes.values(location);
    let mut count: u32 = 0;
    for i in 0..values.len() {
        if let Some(value) = values.get(values.len().saturating_sub(1).saturating_sub(i)) {
            open.push(next.with(register, *value))?;
            count = count.saturating_add(1);
        }
    }
    Ok(count)
}

/// Puts down for each branch the place after all that comes with its values.
fn put_next(alloc: Global, shape: &mut Vec<Branch>) -> Result<(), AllocError> {
    let mut ends = Vec::new(alloc);
    let mut place = shape.len();
    for _ in 0..shape.len() {
        let after = place;
        place = place.saturating_sub(1);
        if let Some(branch) = shape.get_mut(place) {
            branch.next = last_end(&mut ends, branch.values, after);
            ends.push(branch.next)?;
        }
    }
    Ok(())
}

/// Takes so many ends off a stack, and answers the last of them, or else the other.
fn last_end(ends: &mut Vec<usize>, count: u32, other: usize) -> usize {
    let mut last = other;
    for _ in 0..count {
        if let Some(end) = ends.pop() {
            last = end;
        }
    }
    last
}
