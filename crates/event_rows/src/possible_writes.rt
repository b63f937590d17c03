//! The values that reads of each location take, and which of them each thread may still write from an instruction on.
use std::alloc::{AllocError, Global};
use thread_traces::SharedValues;
use tso_program::{Instr, MAX_LOCATIONS, MAX_THREADS, Program};

/// The values that reads of each location take, ascending, and for each of them and each thread the last instruction that
/// may write it there.
#[derive(Drop)]
pub struct PossibleWrites {
    lists: Vec<SharedValues>,
    /// Where the row of a location's first value begins.
    starts: [usize; MAX_LOCATIONS],
    /// For each value of each location: for each thread how many instructions there are up to the last that may write
    /// it, or 0.
    ends: Vec<[u8; MAX_THREADS]>,
}

impl PossibleWrites {
    /// Those of a program, by the values of each location.
    pub fn new(
        alloc: Global,
        program: &Program,
        lists: Vec<SharedValues>,
    ) -> Result<PossibleWrites, AllocError> {
        let mut starts = [0; MAX_LOCATIONS];
        let mut ends = Vec::new(alloc);
        for (location, list) in lists.iter().enumerate() {
            let place = location % MAX_LOCATIONS;
            starts[place] = ends.len();
            push_rows(program, place as u8, list.as_slice(), &mut ends)?;
        }
        Ok(PossibleWrites {
            lists,
            starts,
            ends,
        })
    }

    /// The values of a location, ascending.
    pub fn values(&self, location: u8) -> &[u32] {
        match self.lists.get(location as usize) {
            Some(list) => list.as_slice(),
            None => &[],
        }
    }

    /// For each thread how many instructions there are up to the last that may write a value to a location.
    pub fn ends_of(&self, location: u8, value: u32) -> [u8; MAX_THREADS] {
        match self.values(location).binary_search(&value) {
            Ok(place) => self.ends_at(location, place),
            Err(_) => [0; MAX_THREADS],
        }
    }

    /// For each thread how many instructions there are up to the last that may write the value at this place of a
    /// location's.
    pub fn ends_at(&self, location: u8, place: usize) -> [u8; MAX_THREADS] {
        let start = self.starts[location as usize % MAX_LOCATIONS];
        self.ends
            .get(start.saturating_add(place))
            .copied()
            .unwrap_or([0; MAX_THREADS])
    }
}

/// Appends the rows of a location's values.
fn push_rows(
    program: &Program,
    location: u8,
    values: &[u32],
    ends: &mut Vec<[u8; MAX_THREADS]>,
) -> Result<(), AllocError> {
    for value in values {
        ends.push(row_of(program, location, *value))?;
    }
    Ok(())
}

/// For each thread how many instructions there are up to the last that may write the value to the location.
fn row_of(program: &Program, location: u8, value: u32) -> [u8; MAX_THREADS] {
    let mut row = [0; MAX_THREADS];
    for (t, thread) in program.threads().iter().enumerate() {
        row[t % MAX_THREADS] = end_of(thread.code.as_slice(), location, value);
    }
    row
}

/// How many instructions there are up to the last that may write the value to the location.
fn end_of(code: &[Instr], location: u8, value: u32) -> u8 {
    let mut end: u8 = 0;
    let mut count: u8 = 0;
    for instruction in code {
        count = count.saturating_add(1);
        if may_write(*instruction, location, value) {
            end = count;
        }
    }
    end
}

/// Whether an instruction may write the value to the location: a store of a register or an exchange may write any.
fn may_write(instruction: Instr, location: u8, value: u32) -> bool {
    match instruction {
        Instr::StoreImm(l, v) => l == location && v == value,
        Instr::Store(l, _) | Instr::Xchg(l, _) => l == location,
        _ => false,
    }
}
