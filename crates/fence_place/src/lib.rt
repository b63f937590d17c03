//! The placer: the best set of gaps that serves, with a certificate of it.
//!
//! Workers ask an oracle about sets of gaps. What became of each node is kept, and the certificate's gap tree
//! is read from that record.
//!
//! Begin with `place`, `hunt_with` and `certify`; `accepted_proposal` for a certificate that comes from elsewhere. Free to change: which known run splits a node (`known.rt`),
//! which worker waits for whose question (`turns.rt`), and the second search by the runs of the first
//! (`retracing.rt`). Relied on: over any oracle that keeps its law the headline holds of the set, and the
//! certificate is valid and within the limits of its text.
#![tactic(auto)]

mod arguments;
mod certificates;
mod fault;
mod gaps;
mod hunting;
mod known;
mod placing;
mod proposals;
mod retracing;
mod searching;
mod sharing;
mod turns;
mod worker;

pub use certificates::certify;
pub use fault::PlaceFault;
pub use hunting::hunt_with;
pub use placing::{Oracles, place};
pub use proposals::accepted_proposal;
