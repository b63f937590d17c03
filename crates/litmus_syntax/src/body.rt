//! What stands before the condition.

ghost use Rattle.std.specs.Prelude.{◌≡◌, ◌↔◌, map, IsTrue, IfNone, IfSome};
ghost use Rattle.std.specs.List.{All};
ghost use Rattle.text_tokens.specs.Tokens.{toks};
ghost use Rattle.litmus_syntax.specs.Grammar.{IsBody, HasThread, place_of_entry};
ghost use Rattle.litmus_syntax.specs.Views.{place_view, entry_view, body_view};
ghost use Rattle.litmus_syntax.specs.Exact.{Reads};

use crate::cell::Cell;
use crate::entry::{Entry, read_initial_values};
use crate::fault::{Part, Refusal, SyntaxFault};
use crate::header::read_header;
use crate::place::Place;
use crate::rows::read_rows;
use std::alloc::Global;
use text_tokens::Token;

/// What a text says before its condition. Names are borrowed from the tokens.
#[derive(Drop)]
pub struct Body<'t> {
    pub entries: Vec<Entry<'t>>,
    pub threads: usize,
    /// The rows from top to bottom, each with a cell for each thread.
    pub rows: Vec<Vec<Cell<'t>>>,
}

/// Whether the place's thread is one of the first so many; a location has none.
fn has_thread(place: Place<'_>, threads: usize) -> bool
    ensures { IsTrue result ↔ HasThread threads (place_view place.entry) }
{
    match place {
        Place::Location(_) => true,
        Place::Register(thread, _) => (thread as usize) < threads,
    }
}

/// The tokens left at the first entry that names a thread past these.
fn missing_thread(entries: &[Entry<'_>], threads: usize) -> Option<usize>
    ensures none { IfNone result (All (HasThread threads) (map place_of_entry (map entry_view entries.now))) }
    ensures some { IfSome result (λ left. All (HasThread threads) (map place_of_entry (map entry_view entries.now)) → ⊥) }
{
    for entry in entries {
        if !has_thread(entry.place, threads) {
            return Some(entry.left);
        }
    }
    None
}

/// Reads initial values, header row and rows, and returns them with the tokens that follow: those begin
/// with one of the words `locations`, `exists`, `forall`, `filter`, or with `~`.
///
/// A refusal names the first token that cannot stand where it does. An entry for a thread that the header
/// row lacks is refused at the entry's first token, once the header row is read.
pub fn read_body<'t>(
    alloc: Global,
    tokens: &'t [Token],
) -> Result<(Body<'t>, &'t [Token]), SyntaxFault>
    ensures { Reads IsBody (λ x. body_view x.0) (λ x. toks x.1.now) result (toks tokens.now) }
{
    let (entries, rest) = read_initial_values(alloc, tokens)?;
    let (threads, rest) = read_header(alloc, rest)?;
    if let Some(left) = missing_thread(entries.as_slice(), threads) {
        let part = Part::Initial;
        return Err(SyntaxFault::Refused(Refusal { part, left }));
    }
    let (rows, rest) = read_rows(alloc, threads, rest)?;
    let body = Body {
        entries,
        threads,
        rows,
    };
    Ok((body, rest))
}
