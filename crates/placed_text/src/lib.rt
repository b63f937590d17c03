//! From a litmus text and costs to the answer's texts, and to a run that each fence prevents.
//!
//! The texts are the answer line, the fenced program and the document, and the certificate where it is asked for. For a
//! program of many combinations of traces a certificate is proposed, which the checker judges (`proposed.rt`). A
//! run that is shown passes no gap of the answer's other ties, and no sequential run leaves what it leaves.
//!
//! Begin with `answer_text`, `place_text` and `why_text`. Free to change: what is reported on the way (`watched.rt`),
//! and which run is shown, and its graph. Relied on: the headline
//! holds of the set for the program and the costs of the texts, all that is written says the same of it
//! (`IsPlacedText`), and for exactly the ties of the answer, in order, labels and table are those of such a run
//! (`IsWhyText`).
#![tactic(auto)]

mod answered_problem;
mod explaining;
mod fault;
mod marked_table;
mod placement;
mod problem;
mod proposed;
mod reasons;
mod verdict;
mod watched;
mod writing;

pub use explaining::{WhyText, why_text};
pub use fault::TextFault;
pub use problem::{read_gap_costs, read_program};
pub use writing::{AnswerText, PlacedText, answer_text, place_text};
