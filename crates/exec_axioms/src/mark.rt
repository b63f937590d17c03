//! Marks: what a sketch has chosen at one time, to go back to.
ghost use Rattle.std.specs.Prelude.{◌≡◌, IfOk};
ghost use Rattle.program_sketches.specs.ProgramSketches.{ProgramSketch};
ghost use Rattle.exec_axioms.specs.Marks.{IsMarkOf, ComesAfter};

use crate::Sketch;
use known_edges::{EdgeRows, Traces};
use std::alloc::AllocError;
use std::marker::Model;
use std::sync::Arc;

/// What a sketch has chosen at one time. [`Sketch::mark`] makes it, and [`Sketch::go_back`] takes back
/// what was chosen after it; so a search tries each choice in one sketch, without a copy.
#[derive(Drop)]
pub struct Mark {
    traces: Arc<Traces>,
    sources: usize,
    pairs: usize,
    rows: EdgeRows,
}

impl Model for Mark {
    ghost use Rattle.exec_axioms.specs.Marks.{MarkedSketch};

    ghost Value = { MarkedSketch };

    ghost use Rattle.std.specs.Arc.{arc_value};

    ghost view = { λ m. record { traces = arc_value m.traces; sources = m.sources; pairs = m.pairs; later = m.rows.later; main = m.rows.main; global = m.rows.global } };
}

impl Sketch {
    /// A mark of what is chosen now.
    pub fn mark(&self) -> Result<Mark, AllocError>
        ensures { IfOk result (λ mark. IsMarkOf mark self.now) }
    {
        Ok(Mark {
            traces: Arc::try_clone(&self.traces)?,
            sources: self.sources.len(),
            pairs: self.pairs.len(),
            rows: self.rows.copy(),
        })
    }

    /// Takes back what was chosen after the mark. No memory is taken.
    pub fn go_back(&mut self, mark: Mark)
        requires { (earlier : ProgramSketch) × IsMarkOf mark earlier × ComesAfter earlier self.old }
        ensures { (earlier : ProgramSketch) → IsMarkOf mark earlier → ComesAfter earlier self.old → self.new ≡ earlier }
    {
        self.traces = mark.traces;
        self.sources.truncate(mark.sources);
        self.pairs.truncate(mark.pairs);
        self.rows = mark.rows;
    }
}
