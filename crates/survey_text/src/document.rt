//! The document of what is found of a program.

ghost use Rattle.std.specs.Prelude.{IfOk};
ghost use Rattle.documents.specs.Surveys.{IsSurveyDocument};
ghost use Rattle.survey_text.specs.Surveys.{found_of};

use crate::survey::Survey;
use crate::visit::unexecuted_places;
use documents::{Findings, FoundAnswer, LinedLitmus, survey_document};
use gap_list::TextLines;
use json_text::JsonObject;
use std::alloc::{AllocError, Global};
use tso_program::{Shown, ShownKind};

/// The document, where the text is of a file of this name and its instructions stand in these lines.
pub(crate) fn document_of(
    alloc: Global,
    name: &str,
    lines: &TextLines,
    survey: &Survey,
) -> Result<JsonObject, AllocError>
    ensures { IfOk result (IsSurveyDocument survey.now.litmus (found_of name.now survey.now)) }
{
    let litmus = &survey.litmus;
    let truth = litmus.shown_as(ShownKind::Condition)?;
    let all = Shown::All;
    let unexecuted = unexecuted_places(alloc, &survey.visits)?;
    let found = Findings {
        file: name.as_bytes(),
        sequential: survey.sequential,
        buffered: survey.buffered,
        unexecuted: &unexecuted,
        runs: &survey.runs,
        costs: &survey.costs,
        condition: FoundAnswer {
            shown: &truth,
            gaps: &survey.condition.gaps,
        },
        whole: FoundAnswer {
            shown: &all,
            gaps: &survey.whole.gaps,
        },
    };
    let source = LinedLitmus { litmus, lines };
    survey_document(alloc, &source, &found)
}
