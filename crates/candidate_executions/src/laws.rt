//! The laws of candidate executions: each function's contract is a theorem, and calling it does
//! nothing.
ghost use Rattle.candidate_executions.specs.Laws.{EveryRunIsACandidate, EveryRunIsACompletion, EveryCandidateIsARun, EveryOrderIsARun, SectionsTellFences, KeptOrderIsTold, NoEdgeLeadsIntoInitial, CyclesAreOfAccesses, EveryCandidateCompletesEmpty, EmptyIsASketch, AValueKeepsASketch, ASourceKeepsASketch, APairKeepsASketch, EachCompletionHasAValue, EachCompletionHasTheValues, EachCompletionHasASource, EachCompletionHasASettledSource, WholeSketchesAreSettled, EachCompletionHasAnOrder, EachCompletionEndsSo, OutcomesAreOne, HeldValuesAreValues, ConsistentCandidatesReadHeldValues, EachConsistentCompletionHasAHeldValue, AKnownEdgeIsAnEdge, AKnownCycleIsACycle, NoKnownEdgeLeadsIntoInitial, KnownCyclesAreOfAccesses};
ghost use Rattle.candidate_executions.specs.StoreBuffering.{StoreBufferingCandidates};
ghost use Rattle.candidate_executions.specs.ExampleRuns.{RunsShowTheirMarks};

/// Every run of a mode's machine is one of a consistent candidate execution with the run's outcome,
/// which is a completion of the sketch with which a search begins: the run's reads take the
/// candidate's values and find them in their sources, and its writes reach memory in the candidate's
/// order. Jumps lead forward, as they do in every program.
pub fn every_run_is_a_candidate()
    ensures candidate { EveryRunIsACandidate }
    ensures completion { EveryRunIsACompletion }
{}

/// Every consistent candidate execution of a mode is that of a run of its machine, with the
/// candidate's outcome.
pub fn every_candidate_is_a_run()
    ensures { EveryCandidateIsARun }
{}

/// There is such a run along each order of a consistent candidate's accesses that its unions allow: at
/// each access the thread executes all up to and with it, and a plain store is then flushed.
pub fn every_order_is_a_run()
    ensures { EveryOrderIsARun }
{}

/// The definition of a run's candidate at four runs of the literature's programs.
pub fn runs_show_their_marks()
    ensures { RunsShowTheirMarks }
{}

/// Sections and kept program order, in words of what lies between two accesses.
pub fn kept_order_is_told()
    ensures sections { SectionsTellFences }
    ensures kept { KeptOrderIsTold }
{}

/// Nothing leads into an initial write, so the cycles of accesses are all cycles.
pub fn cycles_are_of_accesses()
    ensures edges { NoEdgeLeadsIntoInitial }
    ensures cycles { CyclesAreOfAccesses }
{}

/// The definitions at store buffering: consistent with no fence, and not with both, nor
/// sequentially.
pub fn store_buffering_is_told()
    ensures { StoreBufferingCandidates }
{}

/// A search begins with a sketch that every candidate completes, and each choice that it makes
/// gives a sketch again.
pub fn choices_keep_a_sketch()
    ensures empty { EmptyIsASketch }
    ensures completed { EveryCandidateCompletesEmpty }
    ensures value { AValueKeepsASketch }
    ensures source { ASourceKeepsASketch }
    ensures pair { APairKeepsASketch }
{}

/// Whatever a sketch leaves open, each completion has chosen in one of the ways that a search goes
/// through. A source may be chosen once each read has its value, or for a settled read: no other thread may
/// still write what it has read.
pub fn each_completion_has_chosen()
    ensures value { EachCompletionHasAValue }
    ensures values { EachCompletionHasTheValues }
    ensures source { EachCompletionHasASource }
    ensures settled { EachCompletionHasASettledSource }
    ensures whole { WholeSketchesAreSettled }
    ensures order { EachCompletionHasAnOrder }
{}

/// The reads of a consistent candidate take values that their locations may hold, each of them one of its
/// location's values. So a search for runs goes through the held values alone.
pub fn consistent_candidates_read_held_values()
    ensures values { HeldValuesAreValues }
    ensures reads { ConsistentCandidatesReadHeldValues }
    ensures next { EachConsistentCompletionHasAHeldValue }
{}

/// What is known of a sketch holds of each of its completions.
pub fn a_known_edge_is_an_edge()
    ensures edges { AKnownEdgeIsAnEdge }
    ensures cycles { AKnownCycleIsACycle }
    ensures initial { NoKnownEdgeLeadsIntoInitial }
    ensures accesses { KnownCyclesAreOfAccesses }
{}

/// Where a sketch must end as an outcome, the same is shown of the one outcome of each completion.
pub fn each_completion_ends_so()
    ensures ends { EachCompletionEndsSo }
    ensures one { OutcomesAreOne }
{}
