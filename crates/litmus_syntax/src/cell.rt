//! Cells of the rows.

ghost use Rattle.std.specs.Prelude.{◌<◌, ◌≤◌, ◌≡◌, ◌++◌, length, map, option_map, IfOk};
ghost use Rattle.text_tokens.specs.Tokens.{toks};
ghost use Rattle.litmus_syntax.specs.Grammar.{IsCell, IsNextCell, ends_cell, cell_labels};
ghost use Rattle.litmus_syntax.specs.Views.{code_view, cell_view, label_view};
ghost use Rattle.litmus_syntax.specs.Exact.{Reads};
ghost use Rattle.text_tokens.specs.Steps.{Gives};
ghost use Rattle.litmus_syntax.specs.Reading.{content_at};

use crate::code::{Code, read_code};
use crate::fault::{Part, Refusal, SyntaxFault};
use crate::label::{LabelAt, begins_label, read_label};
use crate::parts::{mark, refused};
use std::alloc::Global;
use text_tokens::{Mark, Token, begins};

/// A cell of the rows. Its labels are those of its thread's next instruction, or of the thread's end.
#[derive(Debug, Drop)]
pub struct Cell<'t> {
    pub labels: Vec<&'t [u8]>,
    pub code: Option<Code<'t>>,
    /// How many tokens are left after the labels, where an instruction has its mnemonic.
    pub left: usize,
}

/// Whether a cell ends here.
fn ends_cell(tokens: &[Token]) -> bool
    ensures { result ≡ ends_cell (toks tokens.now) }
{
    begins(tokens, Mark::Bar) || begins(tokens, Mark::Semicolon)
}

/// Nothing, or an instruction, up to `|` or `;`.
#[tactic(auto, unfolding(crate::specs::Reading::content_at))]
fn read_content<'t>(tokens: &'t [Token]) -> Result<(Option<Code<'t>>, &'t [Token]), Refusal>
    ensures gives { Gives (λ x. (option_map code_view x.0, toks x.1.now)) result (content_at (toks tokens.now)) }
    ensures no_longer { IfOk result (λ x. length x.1.now ≤ length tokens.now) }
{
    if ends_cell(tokens) {
        return Ok((None, tokens));
    }
    let (code, rest) = read_code(tokens)?;
    if ends_cell(rest) {
        Ok((Some(code), rest))
    } else {
        Err(refused(rest, Part::Instruction))
    }
}

/// A cell of this thread, whose labels are added to those before them, also where a refusal follows.
pub(crate) fn read_cell<'t>(
    alloc: Global,
    thread: usize,
    tokens: &'t [Token],
    labels: &mut Vec<LabelAt<'t>>,
) -> Result<(Cell<'t>, &'t [Token]), SyntaxFault>
    ensures reads { Reads IsCell (λ x. cell_view x.0) (λ x. toks x.1.now) result (toks tokens.now) }
    ensures labels { IfOk result (λ x. map label_view labels.new.items ≡ map label_view labels.old.items ++ cell_labels thread (cell_view x.0)) }
    ensures no_longer { IfOk result (λ x. length x.1.now ≤ length tokens.now) }
{
    let mut own = Vec::new(alloc);
    let mut rest = tokens;
    while begins_label(rest) {
        let (name, after) = read_label(rest)?;
        let left = rest.len();
        labels.push(LabelAt { thread, name, left })?;
        own.push(name)?;
        rest = after;
    }
    let left = rest.len();
    let (code, rest) = read_content(rest)?;
    let cell = Cell {
        labels: own,
        code,
        left,
    };
    Ok((cell, rest))
}

/// `|` and a cell of this thread.
pub(crate) fn read_next_cell<'t>(
    alloc: Global,
    thread: usize,
    tokens: &'t [Token],
    labels: &mut Vec<LabelAt<'t>>,
) -> Result<(Cell<'t>, &'t [Token]), SyntaxFault>
    ensures reads { Reads IsNextCell (λ x. cell_view x.0) (λ x. toks x.1.now) result (toks tokens.now) }
    ensures labels { IfOk result (λ x. map label_view labels.new.items ≡ map label_view labels.old.items ++ cell_labels thread (cell_view x.0)) }
    ensures shorter { IfOk result (λ x. length x.1.now < length tokens.now) }
{
    let rest = mark(tokens, Mark::Bar, Part::Instruction)?;
    read_cell(alloc, thread, rest, labels)
}
