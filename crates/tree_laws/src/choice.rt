//! What branches in a sketch, in the words by which the nodes of trees name it.
ghost use Rattle.std.specs.Prelude.{◌≡◌};
ghost use Rattle.tree_laws.specs.CoverTrees as trees;

use candidate_executions::Event;
use cert_forest::AccessId;

/// Something that is left to be chosen in a sketch.
#[derive(Clone, Copy)]
pub enum OpenChoice {
    /// The value of a thread's next read.
    Value(u8),
    /// The source of a read.
    Source(AccessId),
    /// The order of two writes to one location.
    Order(AccessId, AccessId),
}

/// A choice in a sketch.
#[derive(Clone, Copy)]
pub enum Choice {
    /// The next read of a thread takes a value.
    Value(u8, u32),
    /// A read takes a source.
    Source(AccessId, Event),
    /// The first write comes before the second.
    Order(AccessId, AccessId),
}

/// The access as an event.
pub fn event_of(access: AccessId) -> Event
    ensures { result ≡ trees.event_of access }
{
    Event::Access(access.thread, access.access)
}
