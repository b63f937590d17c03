//! Accesses by their numbers, and the known edges between them.
use crate::numbers::{each_in, is_in, one};
use crate::round::reached_from;
use crate::row_list::RowList;
use bit_rows::Relation;
use candidate_executions::{Access, Kind};
use tso_program::MAX_LOCATIONS;

/// The accesses that there are, what is chosen of them, and the known edges of the mode's unions. The main one is
/// Sequential in sequential mode, which has no other, and else Location.
#[derive(Drop)]
pub struct EventRows {
    is_fenced: bool,
    /// The accesses that there are.
    pub present: u32,
    /// The reads that have no source.
    pub unsourced: u32,
    /// For each location the accesses that write it.
    written: [u32; MAX_LOCATIONS],
    /// For each write those that are chosen to come after it.
    pub later: RowList,
    /// For each write those that are chosen to come before it.
    pub earlier: RowList,
    /// The writes after which another is chosen to come.
    pub followed: u32,
    /// For each write the reads that have it as their source.
    pub readers: RowList,
    /// For each location the reads that have its initial write as their source.
    initial_readers: [u32; MAX_LOCATIONS],
    pub main: Relation,
    pub global: Relation,
}

/// A read with a source.
#[derive(Clone, Copy)]
pub struct ReadSource {
    pub read: u8,
    pub location: u8,
    /// The write. `None` is the initial one of the location.
    pub write: Option<u8>,
    /// Whether the write is of the read's thread.
    pub is_own: bool,
}

/// The rows between which a read's source makes edges: the read's, the source's, the source's where it is of another
/// thread, and that of the writes after the source.
#[derive(Clone, Copy)]
struct SourceRows {
    reader: u32,
    written: u32,
    far: u32,
    after: u32,
}

impl EventRows {
    /// No access.
    pub fn none(is_fenced: bool) -> EventRows {
        EventRows {
            is_fenced,
            present: 0,
            unsourced: 0,
            written: [0; MAX_LOCATIONS],
            later: RowList::none(),
            earlier: RowList::none(),
            followed: 0,
            readers: RowList::none(),
            initial_readers: [0; MAX_LOCATIONS],
            main: Relation::empty(),
            global: Relation::empty(),
        }
    }

    /// A copy of the rows.
    pub fn copy(&self) -> EventRows {
        EventRows {
            is_fenced: self.is_fenced,
            present: self.present,
            unsourced: self.unsourced,
            written: self.written,
            later: self.later,
            earlier: self.earlier,
            followed: self.followed,
            readers: self.readers,
            initial_readers: self.initial_readers,
            main: self.main.copy(),
            global: self.global.copy(),
        }
    }

    /// The accesses that write a location.
    pub fn written(&self, location: u8) -> u32 {
        self.written[location as usize % MAX_LOCATIONS]
    }

    /// The reads that have the initial write of a location as their source.
    fn initial_readers(&self, location: u8) -> u32 {
        self.initial_readers[location as usize % MAX_LOCATIONS]
    }

    /// The known edges of a union.
    pub fn of_union(&self, kind: Kind) -> &Relation {
        match kind {
            Kind::Sequential | Kind::Location => &self.main,
            Kind::Global => &self.global,
        }
    }

    /// Whether some union has a cycle.
    pub fn has_round(&self) -> bool {
        self.main.has_round() || self.global.has_round()
    }

    /// Puts edges between two rows into each union.
    fn connect(&mut self, before: u32, after: u32) {
        self.main.connect(before, after);
        if self.is_fenced {
            self.global.connect(before, after);
        }
    }

    /// Adds an access that comes after the others of its thread. Program order leads to it from these rows, of the main
    /// union and of the global one. Edges come from the reads of the initial write of the location that it writes, too.
    pub(crate) fn add_access(&mut self, number: u8, access: Access, main: u32, global: u32) {
        let row = one(number);
        self.main.connect(main, row);
        self.global.connect(global, row);
        self.present = self.present | row;
        if access.read.is_some() {
            self.unsourced = self.unsourced | row;
        }
        if access.written.is_some() {
            let readers = self.initial_readers(access.location);
            self.connect(readers, row);
            let place = access.location as usize % MAX_LOCATIONS;
            self.written[place] = self.written[place] | row;
        }
    }

    /// The rows between which a read's source makes edges.
    fn rows_of(&self, source: ReadSource) -> SourceRows {
        let reader = one(source.read);
        let (written, after) = match source.write {
            Some(write) => (one(write), self.later.at(write)),
            None => (0, self.written(source.location)),
        };
        SourceRows {
            reader,
            written,
            far: if source.is_own { 0 } else { written },
            after: after & !reader,
        }
    }

    /// Puts the edges of a read's source: from it to the read, and from the read to the writes after it.
    pub(crate) fn choose_source(&mut self, source: ReadSource) {
        let rows = self.rows_of(source);
        self.main.connect(rows.written, rows.reader);
        if self.is_fenced {
            self.global.connect(rows.far, rows.reader);
        }
        self.connect(rows.reader, rows.after);
        self.unsourced = self.unsourced & !rows.reader;
        match source.write {
            Some(write) => self.readers.add(write, rows.reader),
            None => {
                let place = source.location as usize % MAX_LOCATIONS;
                self.initial_readers[place] = self.initial_readers[place] | rows.reader;
            }
        }
    }

    /// The writes of this row that may come after a read's source without a cycle: no path leads from them to the read.
    pub fn not_before(&self, read: u8, writes: u32) -> u32 {
        let mut row = 0;
        for d in each_in(writes) {
            let reached = reached_from(&self.main, d) | reached_from(&self.global, d);
            if !is_in(reached, read) {
                row = row | one(d);
            }
        }
        row
    }

    /// The first of two writes and the reads that have it as their source, but for the second.
    fn row_before(&self, first: u8, second: u8) -> u32 {
        self.readers.at(first) & !one(second) | one(first)
    }

    /// Puts the edges of an order of two writes: from the first, and from the reads that have it as their source, to the
    /// second.
    pub(crate) fn choose_order(&mut self, first: u8, second: u8) {
        let before = self.row_before(first, second);
        self.followed = self.followed | one(first);
        self.later.add(first, one(second));
        self.earlier.add(second, one(first));
        self.connect(before, one(second));
    }

    /// Whether the edges of an order of two writes would close a cycle.
    pub fn closes_order(&self, first: u8, second: u8) -> bool {
        let before = self.row_before(first, second);
        reached_from(&self.main, second) & before != 0
            || reached_from(&self.global, second) & before != 0
    }

    /// The writes to a location that are in no order with one of them.
    pub fn unordered_with(&self, location: u8, write: u8) -> u32 {
        let ordered = self.later.at(write) | self.earlier.at(write);
        self.written(location) & !one(write) & !ordered
    }
}
