//! A search tree that workers share through one lock, with a ceiling and runs beside it.
//!
//! A worker takes a node from its seat, finds out how to settle it, and settles it; the receipt says how. A
//! seat that finds no open node waits. Beside the lock, and without waiting, workers share the least cost
//! that one of them knows of a serving set, and the runs that they post.
//!
//! Begin with `Hunt::next`, `Hunt::settle` and `Hunt::close`. Free to change: how many runs a row keeps
//! (`ROW_CELLS`), when those that wait are woken, and what is posted. Relied on: a hunt that closes is a
//! search that is done, whose record the receipts name whole. No contract reads what a lock guards, so a
//! settling is shown by its receipt.
#![tactic(auto)]

mod cells;
mod events;
mod fault;
mod hunt;
mod record;
mod rule;
mod seat;
mod settling;
mod steps;
mod word;

pub use cells::{PostFault, Posted, ROW_CELLS};
pub use fault::CloseFault;
pub use hunt::Hunt;
pub use seat::HuntSeat;
pub use settling::{Next, Receipt, ReceiptEvent, Settling};
