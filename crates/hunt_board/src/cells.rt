//! Runs that seats post for all: rows of cells, each set once.
ghost use Rattle.std.specs.Prelude.{◌≡◌, ◌↔◌, ◌<◌, ◌≤◌, ◌*◌, ◌+◌, Some, None, Err, IfOk, IfErr, IfSome, IsTrue, length, map};
ghost use Rattle.search_core.specs.Facts.{IsForeignValue};
ghost use Rattle.once_cell.specs.Once.{cell_name};
ghost use Rattle.hunt_board.specs.Cells.{IsInCell, IsThere, cell_place, run_in};

use once_cell::race::{Note, OnceBox};
use search_core::ForeignRun;
use std::alloc::{AllocError, AllocFailed, Global};
use std::marker::Model;
use tso_program::Question;

/// How many cells a seat's row has.
pub const ROW_CELLS: usize = 128;

/// A row of cells for each seat, one after the other. A cell is set once, and never changed then.
#[derive(Drop)]
pub struct RunCells {
    alloc: Global,
    cells: Vec<OnceBox<ForeignRun>>,
}

/// What shows that a run was posted. Contracts see its place, the name of its cell, and the run.
#[derive(Drop)]
pub struct Posted {
    place: usize,
    note: Note<ForeignRun>,
}

impl Model for Posted {
    ghost use Rattle.std.specs.Prelude.{IsSome};
    ghost use Rattle.hunt_board.specs.Cells.{PostedRun};

    ghost Value = { PostedRun };

    ghost use Rattle.gap_sets.specs.contracts.gap_set.GapSet as gap_set;
    ghost use Rattle.std.specs.Coded.{codes};
    ghost use Rattle.tso_program.specs.Nodes.{tree_code};

    ghost coded = { Prim.hlevel (codes, gap_set.the_row.coded, tree_code) };

    ghost view = { λ p. record { place = p.place; cell = p.note.cell; run = p.note.known } };

    ghost invariant = { λ p. IsSome p.note.known };
}

/// Why a run isn't posted. It is handed back.
#[derive(Drop)]
pub enum PostFault {
    /// The seat has posted as many runs as a row has cells.
    RowFull(ForeignRun),
    /// The seat has posted fewer. Out of memory: where each seat posts in a row of its own, its next cell is
    /// there and empty.
    Refused(ForeignRun),
}

/// Where the cell of this index in a seat's row lies, if the row has it.
fn place_of(seat: u8, index: usize) -> Option<usize>
    ensures { result ≡ cell_place seat index }
{
    if index < ROW_CELLS {
        Some(usize::from(seat) * ROW_CELLS + index)
    } else {
        None
    }
}

impl RunCells {
    /// Empty rows for so many seats.
    pub fn new(alloc: Global, seats: u8) -> Result<RunCells, AllocError>
        ensures { IfOk result (λ rows. length rows.cells.items ≡ seats * ROW_CELLS) }
    {
        let count = usize::from(seats) * ROW_CELLS;
        let mut cells = Vec::with_capacity(alloc, count)?;
        for _ in 0..count {
            cells.push(OnceBox::new(alloc))?;
        }
        Ok(RunCells { alloc, cells })
    }

    /// Posts a run in a seat's row.
    pub fn post(&self, seat: u8, index: usize, run: ForeignRun) -> Result<Posted, PostFault>
        ensures posted { IfOk result (λ posted. IsInCell (map cell_name self.now.cells.items) posted × (posted.run ≡ Some run)) }
        ensures place { IfOk result (λ posted. Some posted.place ≡ cell_place seat index) }
        ensures back { IfErr result (λ fault. run_in fault ≡ run) }
        ensures full { ROW_CELLS ≤ index → result ≡ Err (PostFault.RowFull run) }
        ensures refused { index < ROW_CELLS → IfErr result (λ fault. fault ≡ PostFault.Refused run) }
    {
        let Some(place) = place_of(seat, index) else {
            return Err(PostFault::RowFull(run));
        };
        match self.cells.get(place) {
            Some(cell) => set(self.alloc, cell, place, run),
            None => Err(PostFault::Refused(run)),
        }
    }

    /// The very run that was posted.
    pub fn posted(&self, posted: &mut Posted) -> &ForeignRun
        requires { IsInCell (map cell_name self.now.cells.items) posted.old }
        ensures run { posted.old.run ≡ Some result.now }
        ensures same { posted.new ≡ posted.old }
    {
        match self.cells[posted.place].get_as(&mut posted.note) {
            Some(run) => run,
            None => unreachable!(),
        }
    }

    /// The run in the cell of this index in a seat's row, where it is one of this question.
    pub fn look(&self, seat: u8, index: usize, question: &Question) -> Option<&ForeignRun>
        ensures of { IfSome result (λ run. run.now.question ≡ question.now) }
        ensures foreign { IfSome result (λ run. IsForeignValue run.now) }
        ensures there { IfSome result (λ _. IsThere (map cell_name self.now.cells.items) seat index) }
    {
        let run = self.cells.get(place_of(seat, index)?)?.get()?;
        if is_same(run.question(), question) {
            Some(run)
        } else {
            None
        }
    }
}

/// Whether two questions are the same.
pub(crate) fn is_same(first: &Question, second: &Question) -> bool
    ensures { IsTrue result ↔ (first.now ≡ second.now) }
{
    first.shown.same(&second.shown)
        && first.ties.same(&second.ties)
        && first.program.same(&second.program)
}

/// Sets a cell.
fn set(
    alloc: Global,
    cell: &OnceBox<ForeignRun>,
    place: usize,
    run: ForeignRun,
) -> Result<Posted, PostFault>
    ensures posted { IfOk result (λ posted. (posted.place ≡ place) × (posted.cell ≡ cell_name cell.now) × (posted.run ≡ Some run)) }
    ensures refused { IfErr result (λ fault. fault ≡ PostFault.Refused run) }
{
    let boxed = match Box::new(alloc, run) {
        Ok(boxed) => boxed,
        Err(AllocFailed { value }) => return Err(PostFault::Refused(value)),
    };
    let mut note = cell.note();
    match cell.set_as(boxed, &mut note) {
        Ok(()) => Ok(Posted { place, note }),
        Err(boxed) => Err(PostFault::Refused(Box::into_inner(boxed))),
    }
}
