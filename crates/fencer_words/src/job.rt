//! Jobs.

use cert_trees::Rule;
use std::alloc::Global;
use tso_machine::Model;
use tso_program::ShownKind;

/// A run that is asked about. The file is given by its name.
#[derive(Drop)]
pub struct Run {
    pub model: Model,
    pub litmus: String,
    pub labels: Vec<String>,
}

/// A placement of fences that is asked for. Files are given by their names.
#[derive(Drop)]
pub struct Placement {
    /// The file of the gaps' costs; without one each gap costs 1.
    pub costs: Option<String>,
    /// How many workers search: 1 to `MAX_WORKERS`.
    pub workers: u8,
    /// By which rule the certificate's trees are made. Without one that depends on how large the program is.
    pub trees: Option<Rule>,
    /// The file to which the certificate is written.
    pub certificate: Option<String>,
    /// The file to which the fenced program is written.
    pub output: Option<String>,
    /// The file to which the litmus text is written with the fences put in.
    pub insert: Option<String>,
    /// What is compared of outcomes.
    pub kind: ShownKind,
    /// Report by the status whether the answer has a gap.
    pub check: bool,
    /// Print the document in place of the text.
    pub json: bool,
    /// Report how far the search is, however short it is.
    pub progress: bool,
    pub litmus: String,
}

/// Reasons that are asked for: a run for each fence of a placement, which itself writes nothing. Files are given by their
/// names.
#[derive(Drop)]
pub struct WhyQuery {
    pub placement: Placement,
    /// The file to which the graphs of the runs are written.
    pub graphs: Option<String>,
    /// The file to which the page of the document is written.
    pub page: Option<String>,
}

/// A table of a run that is asked for. Files are given by their names.
#[derive(Drop)]
pub struct TraceQuery {
    pub run: Run,
    /// The file to which the run's graph is written.
    pub graph: Option<String>,
    /// The file to which the page of the document is written.
    pub page: Option<String>,
    /// Print the document in place of the text.
    pub json: bool,
}

/// A list of outcomes that is asked for. The file is given by its name.
#[derive(Drop)]
pub struct OutcomeQuery {
    pub model: Model,
    /// The places of the gaps that are fenced: the thread and the instruction after each.
    pub fences: Vec<(u8, u8)>,
    /// How many workers search: 1 to `MAX_WORKERS`.
    pub workers: u8,
    /// Print a run of each outcome too.
    pub runs: bool,
    /// Show only what the condition and `locations` name.
    pub observed: bool,
    /// Report by the status whether the condition fails.
    pub check: bool,
    /// Print the document in place of the text.
    pub json: bool,
    /// Report what lies ahead, however little that is.
    pub progress: bool,
    pub litmus: String,
}

/// A run of which the condition's formula has some truth, which is asked for. Files are given by their names.
#[derive(Drop)]
pub struct WitnessQuery {
    pub model: Model,
    /// Show a run whose outcome meets the formula, or one whose outcome does not.
    pub meets: bool,
    /// The places of the gaps that are fenced: the thread and the instruction after each.
    pub fences: Vec<(u8, u8)>,
    /// The file to which the run's graph is written.
    pub graph: Option<String>,
    /// The file to which the page of the document is written.
    pub page: Option<String>,
    /// Report by the status whether a run is shown.
    pub check: bool,
    /// Print the document in place of the text.
    pub json: bool,
    /// Report how far the search is, and not on a terminal alone.
    pub progress: bool,
    pub litmus: String,
}

/// Which gaps are to go together: those of the lines that threads share.
#[derive(Drop)]
pub struct TieQuery {
    /// The threads that run the same code. Without them those do that are wholly alike.
    pub same: Option<Vec<u8>>,
    /// The repeated parts of one thread are one part of its code, too.
    pub tries: bool,
}

/// A list of gaps that is asked for. Files are given by their names.
#[derive(Drop)]
pub struct GapQuery {
    /// The file of the gaps' costs; without one each gap costs 1.
    pub costs: Option<String>,
    /// Print a cost file in place of the list.
    pub template: bool,
    /// Print a cost file in which gaps go together.
    pub ties: Option<TieQuery>,
    /// Print a document in place of either.
    pub json: bool,
    pub litmus: String,
}

/// How each file is surveyed.
#[derive(Clone, Copy)]
pub struct SurveyOptions {
    /// How many workers search: 1 to `MAX_WORKERS`.
    pub workers: u8,
    /// Let the status be that of the condition alone, whatever no sequential run executes.
    pub allow_unexecuted: bool,
    /// Fence lines together that threads or tries share.
    pub ties: bool,
    /// Print a document a file in place of the text.
    pub json: bool,
}

/// Surveys that are asked for: what one look at each program finds. Files are given by their names.
#[derive(Drop)]
pub struct SurveyQuery {
    pub options: SurveyOptions,
    pub files: Vec<String>,
}

/// What a command line asks for. `-` as LITMUS is the program's input.
#[derive(Drop)]
pub enum Job {
    /// Replay labels on the program of a litmus file.
    Replay(Run),
    /// Show the steps of labels on the program of a litmus file as a table.
    Trace(TraceQuery),
    /// List the outcomes of the program of a litmus file.
    Outcomes(OutcomeQuery),
    /// Place fences in the program of a litmus file.
    Place(Placement),
    /// Show for each fence of a placement why it is needed.
    Why(WhyQuery),
    /// List the gaps of the program of a litmus file.
    Gaps(GapQuery),
    /// Show a run of the program of a litmus file of which the condition's formula has some truth.
    Witness(WitnessQuery),
    /// Say what one look at the program of each litmus file finds.
    Survey(SurveyQuery),
}
