//! Partly chosen candidate executions.
use crate::graph_choice::GraphChoice;
use crate::numbering::Numbering;
use crate::numbers::{each_in, first_numbers, one, shifted};
use crate::row_list::RowList;
use crate::rows::{EventRows, ReadSource};
use crate::trace_end::TraceEnd;
use bit_rows::ROW_BITS;
use candidate_executions::{Access, Kind};
use std::alloc::{AllocError, Global};
use thread_traces::is_kept_by;
use tso_machine::Mode;
use tso_program::{Action, Local, MAX_INSTRUCTIONS, MAX_THREADS, Program, REGISTERS};

/// A partly chosen candidate execution of a program: values for the first reads of each thread, sources of reads and
/// orders of writes, chosen in any turn.
#[derive(Drop)]
pub struct EventGraph {
    program: Program,
    mode: Mode,
    pub numbering: Numbering,
    /// For each thread the instructions before which a gap is fenced.
    fenced: [u64; MAX_THREADS],
    threads: [TraceEnd; MAX_THREADS],
    accesses: [Access; ROW_BITS],
    /// How many instructions its thread has executed with each access.
    steps: [u8; ROW_BITS],
    /// For each read the writes of its value to its location, as far as they are there.
    matches: RowList,
    /// For each read that has one the number of its source, or of none where that is the initial write.
    sources: [Option<u8>; ROW_BITS],
    pub rows: EventRows,
}

impl EventGraph {
    /// A graph in which nothing is chosen.
    pub fn new(alloc: Global, program: &Program, mode: Mode) -> Result<EventGraph, AllocError> {
        let mut graph = EventGraph {
            program: program.apart(alloc)?,
            mode,
            numbering: Numbering::of(program),
            fenced: fenced_instructions(program, mode),
            threads: [TraceEnd::new([0; REGISTERS]); MAX_THREADS],
            accesses: [no_access(); ROW_BITS],
            steps: [0; ROW_BITS],
            matches: RowList::none(),
            sources: [None; ROW_BITS],
            rows: EventRows::none(is_buffered(mode)),
        };
        for (t, thread) in program.threads().iter().enumerate() {
            let t = (t % MAX_THREADS) as u8;
            graph.put_state(t, TraceEnd::new(thread.registers));
            graph.follow(t);
        }
        Ok(graph)
    }

    /// The program.
    pub fn program(&self) -> &Program {
        &self.program
    }

    /// The memory model, with the gaps that are fenced.
    pub fn mode(&self) -> Mode {
        self.mode
    }

    /// How many threads there are.
    pub fn thread_count(&self) -> u8 {
        self.program.threads().len().min(MAX_THREADS) as u8
    }

    /// Where a thread stands.
    pub fn state(&self, t: u8) -> &TraceEnd {
        &self.threads[t as usize % MAX_THREADS]
    }

    pub(crate) fn put_state(&mut self, t: u8, state: TraceEnd) {
        self.threads[t as usize % MAX_THREADS] = state;
    }

    /// What the access with this number reads and writes.
    pub fn access(&self, number: u8) -> Access {
        self.accesses[number as usize % ROW_BITS]
    }

    /// The writes that are there of a read's value to its location, but for the read.
    pub fn matching(&self, read: u8) -> u32 {
        let location = self.access(read).location;
        self.matches.at(read) & self.rows.written(location) & !one(read)
    }

    /// The accesses of a thread.
    pub fn accesses_of(&self, t: u8) -> u32 {
        shifted(
            first_numbers(self.state(t).accesses),
            self.numbering.start(t),
        )
    }

    /// How many instructions its thread executes up to an access, and with it.
    pub fn steps_with(&self, number: u8) -> u8 {
        self.steps[number as usize % ROW_BITS]
    }

    /// The write that is a read's source. `None` if that is the initial one.
    pub fn source(&self, read: u8) -> Option<u8> {
        self.sources[read as usize % ROW_BITS]
    }

    /// What a location holds at first.
    pub fn initial(&self, location: u8) -> u32 {
        self.program
            .memory()
            .get(location as usize)
            .copied()
            .unwrap_or(0)
    }

    /// Whether each read has its value.
    pub fn is_whole(&self) -> bool {
        for t in 0..self.thread_count() {
            if self.state(t).next.is_some() {
                return false;
            }
        }
        true
    }

    /// A read with a source.
    fn read_source(&self, read: u8, write: Option<u8>) -> ReadSource {
        let own = self.numbering.thread(read);
        ReadSource {
            read,
            location: self.access(read).location,
            write,
            is_own: match write {
                Some(write) => self.numbering.thread(write) == own,
                None => false,
            },
        }
    }

    /// Makes a choice.
    pub fn choose(&mut self, choice: GraphChoice) {
        match choice {
            GraphChoice::Value { thread, value } => self.give_value(thread, value),
            GraphChoice::Source { read, write } => {
                self.sources[read as usize % ROW_BITS] = write;
                let source = self.read_source(read, write);
                self.rows.choose_source(source);
            }
            GraphChoice::Order { first, second } => self.rows.choose_order(first, second),
        }
    }

    /// Gives a value to the next read of a thread.
    fn give_value(&mut self, t: u8, value: u32) {
        match self.program.action(t, self.state(t).last) {
            Action::Read(location, register, next) => {
                self.add_access(t, location, Some(value), None);
                self.after_read(t, next.with(register, value));
            }
            Action::Swap(location, written, register, next) => {
                self.add_access(t, location, Some(value), Some(written));
                self.after_read(t, next.with(register, value));
                self.threads[t as usize % MAX_THREADS].end_section();
            }
            _ => {}
        }
        self.follow(t);
    }

    /// The thread goes on after a read.
    fn after_read(&mut self, t: u8, next: Local) {
        let state = &mut self.threads[t as usize % MAX_THREADS];
        state.given = state.given.saturating_add(1);
        state.last = next;
        state.steps = state.steps.saturating_add(1);
    }

    /// Follows a thread up to its next read, or to its end.
    fn follow(&mut self, t: u8) {
        for _ in 0..MAX_INSTRUCTIONS + 1 {
            if !self.step(t) {
                return;
            }
        }
    }

    /// One instruction of a thread: whether it goes on after it.
    fn step(&mut self, t: u8) -> bool {
        let place = t as usize % MAX_THREADS;
        let last = self.threads[place].last;
        if self.fenced[place] >> (last.place as usize % MAX_INSTRUCTIONS) & 1 == 1 {
            self.threads[place].end_section();
        }
        match self.program.action(t, last) {
            Action::Stop => self.stop(place, None, false),
            Action::Read(location, _, _) => self.stop(place, Some(location), false),
            Action::Swap(location, _, _, _) => self.stop(place, Some(location), true),
            Action::Go(next) => self.go_to(place, next),
            Action::Wait(next) => {
                self.threads[place].end_section();
                self.go_to(place, next)
            }
            Action::Write(location, value, next) => {
                self.add_access(t, location, None, Some(value));
                self.go_to(place, next)
            }
        }
    }

    /// The thread stops before a read of this location, or at its end.
    fn stop(&mut self, place: usize, next: Option<u8>, is_exchange: bool) -> bool {
        let state = &mut self.threads[place % MAX_THREADS];
        state.next = next;
        state.is_exchange = is_exchange;
        false
    }

    /// The thread goes on.
    fn go_to(&mut self, place: usize, next: Local) -> bool {
        let state = &mut self.threads[place % MAX_THREADS];
        state.last = next;
        state.steps = state.steps.saturating_add(1);
        true
    }

    /// Adds an access of a thread after its others.
    fn add_access(&mut self, t: u8, location: u8, read: Option<u32>, written: Option<u32>) {
        let state = *self.state(t);
        let access = Access {
            section: state.section,
            location,
            read,
            written,
        };
        let number = self.numbering.number(t, state.accesses);
        let (main, global) = match self.mode {
            Mode::Sequential => (self.kept_before(Kind::Sequential, t, access), 0),
            Mode::Fenced(_) => (
                self.kept_before(Kind::Location, t, access),
                self.kept_before(Kind::Global, t, access),
            ),
        };
        self.accesses[number as usize % ROW_BITS] = access;
        self.steps[number as usize % ROW_BITS] = state.steps.saturating_add(1);
        self.rows.add_access(number, access, main, global);
        self.put_matches(number, access);
        let state = &mut self.threads[t as usize % MAX_THREADS];
        state.accesses = state.accesses.saturating_add(1);
    }

    /// Puts down which reads and writes of the location match an access.
    fn put_matches(&mut self, number: u8, access: Access) {
        for d in each_in(self.rows.present) {
            let other = self.access(d);
            if other.location == access.location {
                let is_written = other.written.is_some() && other.written == access.read;
                self.matches.put(number, d, is_written);
                let is_read = other.read.is_some() && other.read == access.written;
                self.matches.put(d, number, is_read);
            }
        }
    }

    /// The accesses of a thread from which a union keeps program order to one that comes after them.
    pub fn kept_before(&self, kind: Kind, t: u8, next: Access) -> u32 {
        let start = self.numbering.start(t);
        let mut row = 0;
        for i in 0..self.state(t).accesses {
            if is_kept_by(kind, self.access(start.wrapping_add(i)), next) {
                row = row | one(i);
            }
        }
        shifted(row, start)
    }
}

/// No access.
fn no_access() -> Access {
    Access {
        section: 0,
        location: 0,
        read: None,
        written: None,
    }
}

/// Whether stores may wait.
fn is_buffered(mode: Mode) -> bool {
    match mode {
        Mode::Sequential => false,
        Mode::Fenced(_) => true,
    }
}

/// For each thread the instructions before which a gap is fenced.
fn fenced_instructions(program: &Program, mode: Mode) -> [u64; MAX_THREADS] {
    let mut rows = [0; MAX_THREADS];
    if let Mode::Fenced(gaps) = mode {
        for t in 0..MAX_THREADS {
            for k in 0..MAX_INSTRUCTIONS {
                if program.is_fenced(&gaps, t as u8, k as u8) {
                    rows[t] = rows[t] | 1u64 << k;
                }
            }
        }
    }
    rows
}
