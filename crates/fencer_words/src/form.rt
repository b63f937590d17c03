//! The forms of commands: the name of each, the parameters that it takes, and what help says of it.

ghost use Rattle.std.specs.Prelude.{◌≡◌, false, IfOk};
ghost use Rattle.clap.specs.Words.{app_of, new_app};
ghost use Rattle.clap.specs.declared.builder.command.Command.TheViews.{out-Command};
ghost use Rattle.fencer_words.specs.CommandLines.{app_of_form, forms, name_of_form, parameters_of};
ghost use Rattle.fencer_words.specs.Commands.{IsBuiltAs};

use crate::parameter::ChoiceNames;
use crate::parameter::Parameter::{
    self, AllowUnexecuted, Certificate, CheckAnswer, CheckList, CheckRun, Condition, Costs, Fences,
    Graph, Graphs, Insert, Json, Labels, Litmus, LitmusFiles, Model, Not, Observed, Output, Page,
    Progress, Runs, Same, Template, TieAnswers, Ties, Trees, Tries, Workers,
};
use crate::{gaps, outcomes, place, replay, survey, trace, why, witness};
use clap::Command;
use std::alloc::{AllocError, Global};

/// The form of a command.
#[derive(Clone, Copy)]
pub enum Form {
    Replay,
    Outcomes,
    Place,
    Trace,
    Why,
    Gaps,
    Witness,
    Survey,
}

impl Form {
    /// The commands, in the order of help.
    pub fn all<'a>() -> &'a [Form]
        ensures { result.now ≡ forms }
    {
        &[
            Form::Replay,
            Form::Outcomes,
            Form::Place,
            Form::Trace,
            Form::Why,
            Form::Gaps,
            Form::Witness,
            Form::Survey,
        ]
    }

    /// The name.
    pub fn name<'a>(self) -> &'a str
        ensures { result.now ≡ name_of_form self }
    {
        match self {
            Form::Replay => "replay",
            Form::Outcomes => "outcomes",
            Form::Place => "place",
            Form::Trace => "trace",
            Form::Why => "why",
            Form::Gaps => "gaps",
            Form::Witness => "witness",
            Form::Survey => "survey",
        }
    }

    /// The parameters, in the order of help.
    fn parameters<'a>(self) -> &'a [Parameter]
        ensures { result.now ≡ parameters_of self }
    {
        match self {
            Form::Replay => &[Model, Litmus, Labels],
            Form::Outcomes => &[
                Model, Fences, Workers, Runs, Observed, CheckList, Json, Progress, Litmus,
            ],
            Form::Place => &[
                Costs,
                Workers,
                Trees,
                Certificate,
                Output,
                Insert,
                Observed,
                Condition,
                CheckAnswer,
                Json,
                Progress,
                Litmus,
            ],
            Form::Trace => &[Model, Graph, Page, Json, Litmus, Labels],
            Form::Why => &[
                Costs, Workers, Graphs, Page, Observed, Condition, Json, Progress, Litmus,
            ],
            Form::Gaps => &[Costs, Template, Ties, Same, Tries, Json, Litmus],
            Form::Witness => &[
                Model, Not, Fences, Graph, Page, CheckRun, Json, Progress, Litmus,
            ],
            Form::Survey => &[Workers, AllowUnexecuted, TieAnswers, Json, LitmusFiles],
        }
    }

    /// What help says of it first and last.
    fn help<'a>(self) -> (&'a str, &'a str) {
        match self {
            Form::Replay => (replay::FIRST, replay::LAST),
            Form::Outcomes => (outcomes::FIRST, outcomes::LAST),
            Form::Place => (place::FIRST, place::LAST),
            Form::Trace => (trace::FIRST, trace::LAST),
            Form::Why => (why::FIRST, why::LAST),
            Form::Gaps => (gaps::FIRST, gaps::LAST),
            Form::Witness => (witness::FIRST, witness::LAST),
            Form::Survey => (survey::FIRST, survey::LAST),
        }
    }

    /// The command, where values are chosen among these names.
    pub fn command<'a>(
        self,
        alloc: Global,
        names: ChoiceNames<'a>,
    ) -> Result<Command<'a>, AllocError>
        ensures { IfOk result (IsBuiltAs (app_of_form names.entry self)) }
    {
        let (first, last) = self.help();
        let mut command = described_command(alloc, self.name(), first, last);
        for parameter in self.parameters() {
            command = command.arg(parameter.argument(alloc, names))?;
        }
        Ok(command)
    }
}

/// A command, with what help says of it first and last.
pub fn described_command<'a>(
    alloc: Global,
    name: &'a str,
    first: &'a str,
    last: &'a str,
) -> Command<'a>
    ensures app { app_of result ≡ new_app name.entry.now }
    ensures local { (out-Command result).has_globals ≡ false }
{
    Command::new(alloc, name).about(first).after_help(last)
}
