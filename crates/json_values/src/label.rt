//! Labels.
ghost use Rattle.std.specs.Prelude.{◌≡◌, IfOk};
ghost use Rattle.json_text.specs.Texts.{quoted};
ghost use Rattle.tso_machine.specs.RunTexts.{spelling};
ghost use Rattle.json_values.specs.Labels.{labels_array, runs_array};

use cert_forest::Runs;
use json_text::{JsonArray, JsonText};
use std::alloc::{AllocError, Global};
use tso_machine::Label;

/// The label of a step.
pub fn label_text(alloc: Global, label: Label) -> Result<JsonText, AllocError>
    ensures { IfOk result (λ json. json ≡ quoted (spelling label)) }
{
    match label {
        Label::Exec(thread) => {
            let text = format!(in alloc; "e{thread}")?;
            JsonText::string(alloc, text.as_bytes())
        }
        Label::Flush(thread) => {
            let text = format!(in alloc; "f{thread}")?;
            JsonText::string(alloc, text.as_bytes())
        }
    }
}

/// The labels of a run.
pub fn labels_array(alloc: Global, labels: &[Label]) -> Result<JsonText, AllocError>
    ensures { IfOk result (λ json. json ≡ labels_array labels.now) }
{
    let mut array = JsonArray::new(alloc);
    for label in labels {
        array.add(label_text(alloc, *label)?)?;
    }
    array.into_json()
}

/// The labels of each run, in order.
pub fn runs_array(alloc: Global, runs: &Runs) -> Result<JsonText, AllocError>
    ensures { IfOk result (λ json. json ≡ runs_array runs.now) }
{
    let mut array = JsonArray::new(alloc);
    for labels in runs {
        array.add(labels_array(alloc, labels)?)?;
    }
    array.into_json()
}
