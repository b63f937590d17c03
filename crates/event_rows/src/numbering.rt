//! The numbers of accesses.
use bit_rows::ROW_BITS;
use tso_program::{Instr, MAX_THREADS, Program};

/// The numbers of a program's accesses.
#[derive(Clone, Copy)]
pub struct Numbering {
    /// The number of each thread's first access.
    starts: [u8; MAX_THREADS],
    /// The thread of each number.
    threads: [u8; ROW_BITS],
}

impl Numbering {
    /// That of a program.
    pub fn of(program: &Program) -> Numbering {
        let mut numbering = Numbering {
            starts: [0; MAX_THREADS],
            threads: [0; ROW_BITS],
        };
        let mut start: u8 = 0;
        for (t, thread) in program.threads().iter().enumerate() {
            let count = accesses_in(thread.code.as_slice());
            let place = t % MAX_THREADS;
            numbering.starts[place] = start;
            numbering.put(place as u8, start, count);
            start = start.saturating_add(count);
        }
        numbering
    }

    /// The numbers from the start on, so many, are those of thread t.
    fn put(&mut self, t: u8, start: u8, count: u8) {
        for i in 0..count {
            let place = start.wrapping_add(i) as usize % ROW_BITS;
            self.threads[place] = t;
        }
    }

    /// The number of thread t's first access.
    pub fn start(&self, t: u8) -> u8 {
        self.starts[t as usize % MAX_THREADS]
    }

    /// The thread of an access.
    pub fn thread(&self, number: u8) -> u8 {
        self.threads[number as usize % ROW_BITS]
    }

    /// The index of an access in its thread.
    pub fn index(&self, number: u8) -> u8 {
        number.wrapping_sub(self.start(self.thread(number)))
    }

    /// The number of a thread's access with this index.
    pub fn number(&self, t: u8, index: u8) -> u8 {
        self.start(t).wrapping_add(index)
    }
}

/// How many instructions make accesses.
fn accesses_in(code: &[Instr]) -> u8 {
    let mut count: u8 = 0;
    for instruction in code {
        if instruction.location().is_some() {
            count = count.saturating_add(1);
        }
    }
    count
}
