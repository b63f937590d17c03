//! The files that a job names.

ghost use Rattle.std.specs.Prelude.{◌≡◌, option_map};
ghost use Rattle.fencer_words.specs.CommandFiles.{file_of_litmus, files_of, has_clash, is_same, no_files, third_of};
ghost use Rattle.fencer_words.specs.Internal.Names.{kept_names};

use crate::job::Job;

/// The names of the files that a job reads, and of those that it writes, where they are named.
#[derive(Clone, Copy)]
pub(crate) struct FileNames<'a> {
    pub(crate) litmus: Option<&'a str>,
    pub(crate) costs: Option<&'a str>,
    pub(crate) first: Option<&'a str>,
    pub(crate) second: Option<&'a str>,
    pub(crate) third: Option<&'a str>,
}

impl FileNames<'_> {
    /// No names: of files that are only read none can clash.
    fn none() -> Self
        ensures { kept_names result ≡ no_files }
    {
        FileNames {
            litmus: None,
            costs: None,
            first: None,
            second: None,
            third: None,
        }
    }
}

/// The litmus file, where it is not the program's input.
fn file_of_litmus(litmus: &str) -> Option<&str>
    ensures { option_map (λ name. name.now) result ≡ file_of_litmus litmus.now }
{
    if litmus == "-" { None } else { Some(litmus) }
}

/// The third file that a job writes, where it is named.
fn third_of(job: &Job) -> Option<&str>
    ensures { option_map (λ name. name.now) result ≡ third_of job.now }
{
    match job {
        Job::Place(asked) => asked.insert.as_deref(),
        _ => None,
    }
}

/// The files of a job.
pub(crate) fn files_of(job: &Job) -> FileNames<'_>
    ensures { kept_names result ≡ files_of job.now }
{
    let (litmus, costs, first, second) = match job {
        Job::Replay(run) => (&run.litmus, None, None, None),
        Job::Trace(query) => (
            &query.run.litmus,
            None,
            query.page.as_deref(),
            query.graph.as_deref(),
        ),
        Job::Outcomes(query) => (&query.litmus, None, None, None),
        Job::Place(asked) => (
            &asked.litmus,
            asked.costs.as_deref(),
            asked.output.as_deref(),
            asked.certificate.as_deref(),
        ),
        Job::Why(query) => (
            &query.placement.litmus,
            query.placement.costs.as_deref(),
            query.page.as_deref(),
            query.graphs.as_deref(),
        ),
        Job::Gaps(query) => (&query.litmus, query.costs.as_deref(), None, None),
        Job::Witness(query) => (
            &query.litmus,
            None,
            query.page.as_deref(),
            query.graph.as_deref(),
        ),
        Job::Survey(_) => return FileNames::none(),
    };
    FileNames {
        litmus: file_of_litmus(litmus.as_str()),
        costs,
        first,
        second,
        third: third_of(job),
    }
}

/// Whether both names are given, and are the same.
fn is_same(name: Option<&str>, other: Option<&str>) -> bool
    ensures { result ≡ is_same (option_map (λ name. name.now) name.entry) (option_map (λ name. name.now) other.entry) }
{
    match (name, other) {
        (Some(name), Some(other)) => name == other,
        _ => false,
    }
}

/// Whether a file that is written is a file that is read, or is written twice.
pub(crate) fn has_clash(names: FileNames<'_>) -> bool
    ensures { result ≡ has_clash (kept_names names.entry) }
{
    is_same(names.first, names.litmus)
        || is_same(names.first, names.costs)
        || is_same(names.second, names.litmus)
        || is_same(names.second, names.costs)
        || is_same(names.first, names.second)
        || is_same(names.third, names.litmus)
        || is_same(names.third, names.costs)
        || is_same(names.third, names.first)
        || is_same(names.third, names.second)
}
