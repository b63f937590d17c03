//! The checker: accepts exactly the valid certificates, names the first fault of any other.
//!
//! Where it accepts, the headline holds of the certificate's set: it serves, and no better set does. It uses
//! nothing of a solver.
//!
//! Begin with `check`, `certificate_proves_answer` and `the_first_fault_is_unique`. Free to change: how
//! outcomes are looked up, and what of the replays is kept (`runs.rt`). Relied on: `fencecheck` prints what
//! it answers; `place` takes from `certificate_proves_answer` what its own certificate proves, without
//! judging it.
#![tactic(auto)]

mod checker;
mod fault;
mod gap;
mod laws;
mod packing;
mod runs;

pub use cert_forest::{CheckFault, Path};
pub use checker::{Accepted, certificate_proves_answer, check};
pub use laws::{the_first_fault_is_unique, valid_certificates_have_no_fault};
