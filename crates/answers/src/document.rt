//! Texts with their documents: which is printed, and the page of a document.

ghost use Rattle.std.specs.Prelude.{◌≡◌, IfOk, option_map};
ghost use Rattle.answers.specs.Documented.{printed, DeliversNoted, IsPageFor};

use crate::delivery::Answer;
use crate::notes::{NotedText, noted_line};
use documents::Note;
use json_text::JsonObject;
use paged_text::Pages;
use run_page::page_of;
use std::alloc::{AllocError, Global};

/// The document, where it is asked for in place of the text.
pub fn printed(json: bool, text: Vec<u8>, document: Vec<u8>) -> Vec<u8>
    ensures { result.items ≡ printed json text.items document.items }
{
    if json { document } else { text }
}

/// The page of a document, where a file is named for it.
fn page_for(alloc: Global, name: Option<&str>, document: &[u8]) -> Result<Vec<u8>, AllocError>
    ensures { IfOk result (λ page. IsPageFor (option_map (λ name. name.now) name.entry) document.now page.items) }
{
    match name {
        Some(_) => page_of(alloc, document),
        None => Ok(Vec::new(alloc)),
    }
}

/// What is said of runs: as text, as a document, and as a graph; and what sequential runs decide, where that is said.
#[derive(Drop)]
pub struct Told {
    pub lines: Vec<u8>,
    pub document: JsonObject,
    pub graph: Vec<u8>,
    pub verdict: Option<Note>,
}

/// The answer of what is said, with status 0: the text or the document is printed, and the files get the page of the
/// document and the graph. The document has the notes on the litmus text, too.
pub fn documented(
    alloc: Global,
    json: bool,
    page: Option<&str>,
    noted: NotedText<'_>,
    told: Told,
) -> Result<Answer, AllocError>
    ensures { IfOk result (DeliversNoted 0 json (option_map (λ name. name.now) page.entry) told.lines.items told.document told.verdict) }
{
    let Told {
        lines,
        document,
        graph,
        verdict,
    } = told;
    let document = noted_line(alloc, noted, document, verdict)?;
    let first = Pages::of(alloc, page_for(alloc, page, &document)?)?;
    let second = Pages::of(alloc, graph)?;
    Ok(Answer {
        lines: printed(json, lines, document),
        status: 0,
        json,
        first,
        second,
    })
}
