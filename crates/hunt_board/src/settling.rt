//! How a node is settled, and what is given for it.
ghost use Rattle.std.specs.Prelude.{◌≡◌};
ghost use Rattle.hunt_board.specs.Settlings.{settling_event};

use gap_sets::{GapSet, Region};
use search_core::{Ceiling, Verdict};

/// How the node that a seat holds is to be settled.
#[derive(Drop)]
pub enum Settling {
    /// As an oracle said of what the node's sets must have: split by a foreign run, or confirmed.
    Asked(Verdict),
    /// Cut, since what the node's sets must have costs more than the ceiling.
    Cut(Ceiling),
    /// Cut, since what the node's sets must have isn't better than a set that the seat has confirmed.
    Best,
}

/// What became of a settled node.
#[derive(Clone, Copy)]
pub enum ReceiptEvent {
    /// It was split by a run that passes these gaps.
    Split(GapSet),
    Cut,
    Confirmed,
}

/// Says which seat settled which node, and how.
#[derive(Clone, Copy)]
pub struct Receipt {
    pub seat: u8,
    pub node: Region,
    pub event: ReceiptEvent,
}

/// What there is to do.
#[derive(Clone, Copy)]
pub enum Next {
    /// The seat holds this node now.
    Work(Region),
    /// No node is left.
    Done,
}

impl Settling {
    /// What becomes of the node.
    pub(crate) fn event(&self) -> ReceiptEvent
        ensures { result ≡ settling_event self.now }
    {
        match self {
            Settling::Asked(Verdict::Foreign(run)) => ReceiptEvent::Split(run.passed()),
            Settling::Asked(Verdict::Serves(_)) => ReceiptEvent::Confirmed,
            Settling::Cut(_) | Settling::Best => ReceiptEvent::Cut,
        }
    }
}
