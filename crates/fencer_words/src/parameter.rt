//! The parameters of commands: as what `clap` reads each of them, and what help says of it.

ghost use Rattle.std.specs.Prelude.{◌≡◌, false};
ghost use Rattle.clap.specs.Words.{rule_of};
ghost use Rattle.fencer_words.specs.CommandLines.{flag_rule, label_rule, litmus_files_rule, litmus_rule, model_rule, named_rule, rule_of_parameter, trees_rule, value_rule, workers_rule};

use clap::builder::ValueParser;
use clap::{Arg, ArgAction};
use std::alloc::Global;
use tso_program::MAX_WORKERS;

const ALLOW_UNEXECUTED_HELP: &str =
    "Return status 3 only where a condition fails, whatever is unexecuted";

const CERTIFICATE_HELP: &str = "Write the certificate there, for fencecheck";

const CHECK_ANSWER_HELP: &str = "Return status 3 where the program needs a fence";

const CHECK_LIST_HELP: &str = "Return status 3 where the condition fails";

const CHECK_RUN_HELP: &str = "Return status 3 where a run is shown";

const CONDITION_HELP: &str = "Compare only whether an outcome meets the condition's formula";

const COSTS_HELP: &str = "Read what gaps cost, in lines like `0:1 5`; without a line a gap costs 1";

const FENCES_HELP: &str =
    "Put an MFENCE in each of these gaps, as 0:1,1:1; `fencer gaps` lists them";

const GRAPH_HELP: &str = "Write the run's candidate execution there, as a graph for Graphviz";

const GRAPHS_HELP: &str = "Write the candidate execution of each run there, as graphs for Graphviz";

const INSERT_HELP: &str = "Write LITMUS there, with an MFENCE put in for each fence";

const JSON_HELP: &str = "Print a JSON document in place of the text";

const LABEL_HELP: &str =
    "e0: thread 0 executes an instruction; f0: its oldest waiting store reaches memory";

const LITMUS_HELP: &str = "The litmus file, or - for standard input";

const LITMUS_FILES_HELP: &str = "The litmus files; - for standard input";

const NOT_HELP: &str = "Show a run whose outcome does not meet the formula";

const OBSERVED_HELP: &str = "Compare outcomes by what the condition and `locations` name alone";

const OUTPUT_HELP: &str = "Write the program with its fences there, as a litmus file";

const PAGE_HELP: &str = "Write a page there, to step through the runs in a browser";

const PROGRESS_HELP: &str = "Report progress on standard error, as long searches do on a terminal";

const RUNS_HELP: &str = "Print after each outcome a run that leaves it";

const SAME_HELP: &str = "These threads run the same code, as 0,1,2; else those that are alike do";

const TEMPLATE_HELP: &str = "Print a cost file of all gaps instead; a gap costs 1 without --costs";

const TIE_ANSWERS_HELP: &str = "Fence together the lines that threads or tries share";

const TIES_HELP: &str = "Print a cost file that ties the gaps of lines which threads share";

const TREES_HELP: &str = "Make whole trees (certificate 1 or 2) or early ones (4); else by size";

const TRIES_HELP: &str = "Tie the repeated tries of one thread, too";

/// The names among which the values of parameters are chosen.
#[derive(Clone, Copy)]
pub struct ChoiceNames<'a> {
    /// Of the models.
    pub models: &'a [&'a str],
    /// Of the rules of trees.
    pub trees: &'a [&'a str],
}

/// A parameter of a command.
#[derive(Clone, Copy)]
pub enum Parameter {
    AllowUnexecuted,
    Certificate,
    /// `--check` of a placement.
    CheckAnswer,
    /// `--check` of a list of outcomes.
    CheckList,
    /// `--check` of a run that is sought.
    CheckRun,
    Condition,
    Costs,
    Fences,
    /// `--dot` of one run.
    Graph,
    /// `--dot` of several runs.
    Graphs,
    Insert,
    Json,
    Labels,
    Litmus,
    /// `LITMUS..`
    LitmusFiles,
    Model,
    Not,
    Observed,
    Output,
    /// `--html`
    Page,
    Progress,
    Runs,
    Same,
    Template,
    /// `--ties` of answers.
    TieAnswers,
    /// `--ties` of a cost file.
    Ties,
    Trees,
    Tries,
    Workers,
}

impl Parameter {
    /// As what `clap` reads it, where values are chosen among these names.
    pub fn argument<'a>(self, alloc: Global, names: ChoiceNames<'a>) -> Arg<'a>
        ensures rule { rule_of result ≡ rule_of_parameter names.entry self }
        ensures own { result.global ≡ false }
    {
        match self {
            Parameter::AllowUnexecuted => {
                flag_arg(alloc, "allow-unexecuted", ALLOW_UNEXECUTED_HELP)
            }
            Parameter::Certificate => file_arg(alloc, "certificate", CERTIFICATE_HELP),
            Parameter::CheckAnswer => flag_arg(alloc, "check", CHECK_ANSWER_HELP),
            Parameter::CheckList => flag_arg(alloc, "check", CHECK_LIST_HELP),
            Parameter::CheckRun => flag_arg(alloc, "check", CHECK_RUN_HELP),
            Parameter::Condition => flag_arg(alloc, "condition", CONDITION_HELP),
            Parameter::Costs => file_arg(alloc, "costs", COSTS_HELP),
            Parameter::Fences => value_arg(alloc, "fences", "T:K,..", FENCES_HELP),
            Parameter::Graph => file_arg(alloc, "dot", GRAPH_HELP),
            Parameter::Graphs => file_arg(alloc, "dot", GRAPHS_HELP),
            Parameter::Insert => file_arg(alloc, "insert", INSERT_HELP),
            Parameter::Json => flag_arg(alloc, "json", JSON_HELP),
            Parameter::Labels => label_arg(alloc),
            Parameter::Litmus => litmus_arg(alloc),
            Parameter::LitmusFiles => litmus_files_arg(alloc),
            Parameter::Model => model_arg(alloc, names.models),
            Parameter::Not => flag_arg(alloc, "not", NOT_HELP),
            Parameter::Observed => flag_arg(alloc, "observed", OBSERVED_HELP),
            Parameter::Output => file_arg(alloc, "output", OUTPUT_HELP),
            Parameter::Page => file_arg(alloc, "html", PAGE_HELP),
            Parameter::Progress => flag_arg(alloc, "progress", PROGRESS_HELP),
            Parameter::Runs => flag_arg(alloc, "runs", RUNS_HELP),
            Parameter::Same => value_arg(alloc, "same", "T,..", SAME_HELP),
            Parameter::Template => flag_arg(alloc, "template", TEMPLATE_HELP),
            Parameter::TieAnswers => flag_arg(alloc, "ties", TIE_ANSWERS_HELP),
            Parameter::Ties => flag_arg(alloc, "ties", TIES_HELP),
            Parameter::Trees => trees_arg(alloc, names.trees),
            Parameter::Tries => flag_arg(alloc, "tries", TRIES_HELP),
            Parameter::Workers => workers_arg(alloc),
        }
    }
}

/// An argument, with what help calls its value and says of it.
fn named_arg<'a>(alloc: Global, id: &'a str, value: &'a str, help: &'a str) -> Arg<'a>
    ensures rule { rule_of result ≡ named_rule id.entry.now }
    ensures own { result.global ≡ false }
{
    Arg::new(alloc, id).value_name(value).help(help)
}

/// `--NAME VALUE`
fn value_arg<'a>(alloc: Global, name: &'a str, value: &'a str, help: &'a str) -> Arg<'a>
    ensures rule { rule_of result ≡ value_rule name.entry.now }
    ensures own { result.global ≡ false }
{
    named_arg(alloc, name, value, help).long(name)
}

/// `--NAME FILE`
fn file_arg<'a>(alloc: Global, name: &'a str, help: &'a str) -> Arg<'a>
    ensures rule { rule_of result ≡ value_rule name.entry.now }
    ensures own { result.global ≡ false }
{
    value_arg(alloc, name, "FILE", help)
}

/// `--NAME`
fn flag_arg<'a>(alloc: Global, name: &'a str, help: &'a str) -> Arg<'a>
    ensures rule { rule_of result ≡ flag_rule name.entry.now }
    ensures own { result.global ≡ false }
{
    Arg::new(alloc, name)
        .help(help)
        .long(name)
        .action(ArgAction::SetTrue)
}

/// `--model MODEL`, of models with these names.
fn model_arg<'a>(alloc: Global, names: &'a [&'a str]) -> Arg<'a>
    ensures rule { rule_of result ≡ model_rule names.entry }
    ensures own { result.global ≡ false }
{
    named_arg(alloc, "model", "MODEL", "The machine")
        .long("model")
        .value_parser(names)
        .default_value("buffered")
}

/// `--trees RULE`, of rules with these names.
fn trees_arg<'a>(alloc: Global, names: &'a [&'a str]) -> Arg<'a>
    ensures rule { rule_of result ≡ trees_rule names.entry }
    ensures own { result.global ≡ false }
{
    named_arg(alloc, "trees", "RULE", TREES_HELP)
        .long("trees")
        .value_parser(names)
}

/// `--workers N`
fn workers_arg<'a>(alloc: Global) -> Arg<'a>
    ensures rule { rule_of result ≡ workers_rule }
    ensures own { result.global ≡ false }
{
    value_arg(
        alloc,
        "workers",
        "N",
        "How many threads may share the work, 1 to 32",
    )
    .value_parser(ValueParser::unsigned(1, MAX_WORKERS as u64))
    .default_value("1")
}

/// `LITMUS`
fn litmus_arg<'a>(alloc: Global) -> Arg<'a>
    ensures rule { rule_of result ≡ litmus_rule }
    ensures own { result.global ≡ false }
{
    named_arg(alloc, "litmus", "LITMUS", LITMUS_HELP).required(true)
}

/// `LITMUS..`
fn litmus_files_arg<'a>(alloc: Global) -> Arg<'a>
    ensures rule { rule_of result ≡ litmus_files_rule }
    ensures own { result.global ≡ false }
{
    named_arg(alloc, "litmus", "LITMUS", LITMUS_FILES_HELP)
        .num_args(1..)
        .action(ArgAction::Append)
        .required(true)
}

/// `[LABEL..]`
fn label_arg<'a>(alloc: Global) -> Arg<'a>
    ensures rule { rule_of result ≡ label_rule }
    ensures own { result.global ≡ false }
{
    named_arg(alloc, "label", "LABEL", LABEL_HELP)
        .num_args(0..)
        .action(ArgAction::Append)
}
