//! How much work a search may be, and where that is reported.

use cert_forest::Rule;
use program_streams::Progress;

/// How fences, or outcomes, are searched for.
#[derive(Clone, Copy)]
pub struct Effort {
    pub workers: u8,
    /// By which rule trees are made. Without one that depends on how large the program is.
    pub trees: Option<Rule>,
    /// Where it is reported how far the search is.
    pub progress: Progress,
    /// Whether a search for an answer warns where it may take minutes.
    pub warns: bool,
}
