//! Memory models with the gaps that are fenced.
ghost use Rattle.std.specs.Prelude.{◌≡◌};
ghost use Rattle.std.specs.FinSet as set;
ghost use Rattle.tso_program.specs.declared.listing.Listing.{Listing};
ghost use Rattle.tso_machine.specs.Modes.{machine_of_model, machine_of_mode};

use crate::Model;
use gap_sets::GapSet;

/// A memory model, and the gaps that are fenced.
#[derive(Clone, Copy, Debug)]
pub enum Mode {
    /// Sequential consistency: no store waits, so fences make no difference.
    Sequential,
    /// x86-TSO, with these gaps of the program fenced.
    Fenced(GapSet),
}

impl Mode {
    /// The mode of a model, with these gaps fenced.
    pub fn new(model: Model, gaps: GapSet) -> Mode
        ensures { (p : Listing) → machine_of_mode p result ≡ machine_of_model p gaps model }
    {
        match model {
            Model::Sequential => Mode::Sequential,
            Model::Buffered => Mode::Fenced(gaps),
        }
    }

    /// The mode of a model, with no gap fenced.
    pub fn unfenced(model: Model) -> Mode
        ensures { (p : Listing) → machine_of_mode p result ≡ machine_of_model p set.empty model }
    {
        Mode::new(model, GapSet::empty())
    }

    /// The model, and the gaps that are fenced.
    pub fn model_and_gaps(self) -> (Model, GapSet)
        ensures { (p : Listing) → machine_of_model p result.1 result.0 ≡ machine_of_mode p self }
    {
        match self {
            Mode::Sequential => (Model::Sequential, GapSet::empty()),
            Mode::Fenced(gaps) => (Model::Buffered, gaps),
        }
    }
}
